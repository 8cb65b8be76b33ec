//! The table of axioms.

ghost use Rattle.std.specs.Prelude.{◌≡◌, ◌<◌, ◌∷◌, [], All, IfOk};
ghost use Rattle.meaning_atoms.specs.declared.aba_axiom.AbaAxiom.TheVariants.{B7, B9, B10, B18};
ghost use Rattle.meaning_atoms.specs.declared.atom.Atom.TheVariants.{Con, Der, Member};
ghost use Rattle.meaning_atoms.specs.Literals.{denied};
ghost use Rattle.meaning_atoms.specs.AbaAxioms.{IsAbaAxiom};
ghost use Rattle.meaning_atoms.specs.Atoms.{IsLit};
ghost use Rattle.meaning_atoms.specs.Worlds.{IsAsk, IsValid};
ghost use Rattle.aba_axioms.specs.AbaTable.{aba_clause, given_atom as given_in};

use crate::loop_clause::loop_clause;
use lists::{Items, Memory};
use meaning_atoms::Atom::{
    Ad, Asm, BGap, Body, Cf, Co, Con, ConGap, Der, HGap, Head, Hit, Member, Miss, St, Sup,
};
use meaning_atoms::Closure::{Own, Rest};
use meaning_atoms::{AbaAxiom, Atom, AtomLit, Closure, END, list, no, yes};
use std::alloc::Global;

/// The clause of an axiom, with its literals in the order of the table. A clause says that one of its literals is true.
/// `Memory` says that an allocation was refused.
pub fn clause_of(alloc: Global, name: &AbaAxiom) -> Result<Items<AtomLit>, Memory>
    requires { IsAbaAxiom name.now }
    ensures table { IfOk result (λ clause. clause ≡ aba_clause name.now) }
    ensures valid { IfOk result IsValid }
    ensures bounds { IfOk result (All IsLit) }
    ensures no_ask { IfOk result (All (λ literal. ¬ IsAsk literal.atom)) }
{
    row(alloc, name)
}

/// The clause beside the name in the table.
fn row(alloc: Global, name: &AbaAxiom) -> Result<Items<AtomLit>, Memory>
    requires { IsAbaAxiom name.now }
    ensures { IfOk result (λ clause. clause ≡ aba_clause name.now) }
{
    match name {
        AbaAxiom::B1(a) => list(alloc, [no(Cf), no(Member(*a)), yes(Asm(*a))]),
        AbaAxiom::B2(a) => list(alloc, [no(Member(*a)), yes(Der(Own, *a))]),
        AbaAxiom::B3(a) => list(
            alloc,
            [no(Asm(*a)), yes(Hit(Own, *a, 1)), yes(Der(Rest, *a))],
        ),
        AbaAxiom::B4(k) => list(alloc, [no(Der(*k, 0))]),
        AbaAxiom::B5(k, r, h) => list(
            alloc,
            [no(Head(*r, *h)), yes(Miss(*k, *r, 1)), yes(Der(*k, *h))],
        ),
        AbaAxiom::B6(k, r, x) => list(
            alloc,
            [no(Body(*r, *x)), yes(Der(*k, *x)), yes(Miss(*k, *r, 1))],
        ),
        AbaAxiom::B7(k, r, i, j) => miss_step(alloc, *k, *r, *i, *j),
        AbaAxiom::B8(k, r, i) => list(alloc, [no(Miss(*k, *r, *i)), no(BGap(*r, *i, END))]),
        AbaAxiom::B9(k, x) => supported(alloc, *k, *x),
        AbaAxiom::B9Con(a, c) => list(
            alloc,
            [no(Der(Rest, *a)), no(Con(*a, *c)), no(Der(Own, *c))],
        ),
        AbaAxiom::B10(k, x, i, j) => support_step(alloc, *k, *x, *i, *j),
        AbaAxiom::B11(k, x, i) => list(alloc, [no(Sup(*k, *x, *i)), no(HGap(*x, *i, END))]),
        AbaAxiom::B12(a, c) => apart(alloc, Cf, *a, *c, Own),
        AbaAxiom::B13(a, c) => apart(alloc, Ad, *a, *c, Rest),
        AbaAxiom::B14(a) => list(
            alloc,
            [no(Co), no(Asm(*a)), yes(Hit(Rest, *a, 1)), yes(Member(*a))],
        ),
        AbaAxiom::B15(a) => list(
            alloc,
            [no(St), no(Asm(*a)), yes(Member(*a)), yes(Hit(Own, *a, 1))],
        ),
        AbaAxiom::B16(1) => list(alloc, [no(Ad), yes(Cf)]),
        AbaAxiom::B16(2) => list(alloc, [no(Co), yes(Ad)]),
        AbaAxiom::B16(_) => list(alloc, [no(St), yes(Co)]),
        AbaAxiom::B17 { closure, x, rows } => loop_clause(alloc, *closure, *x, rows.as_slice()),
        AbaAxiom::B18(k, a, i, j) => hit_step(alloc, *k, *a, *i, *j),
        AbaAxiom::B19(k, a, i) => list(alloc, [no(Hit(*k, *a, *i)), no(ConGap(*a, *i, END))]),
    }
}

/// B7: the atom of a body that a closure misses is none from `i` to just before `j`, and, where `j` is in the closure, a
/// later one than `j`.
fn miss_step(alloc: Global, k: Closure, r: u32, i: u32, j: u32) -> Result<Items<AtomLit>, Memory>
    requires { j < END }
    ensures { IfOk result (λ clause. clause ≡ aba_clause (B7 k r i j)) }
{
    let later = yes(Miss(k, r, j + 1));
    list(
        alloc,
        [no(Miss(k, r, i)), no(BGap(r, i, j)), no(Der(k, j)), later],
    )
}

/// B10: the rule that supports an atom has no number from `i` to just before `j`, and, where the closure misses an atom of
/// the body of `j`, a later one than `j`.
fn support_step(alloc: Global, k: Closure, x: u32, i: u32, j: u32) -> Result<Items<AtomLit>, Memory>
    requires { j < END }
    ensures { IfOk result (λ clause. clause ≡ aba_clause (B10 k x i j)) }
{
    let later = yes(Sup(k, x, j + 1));
    list(
        alloc,
        [
            no(Sup(k, x, i)),
            no(HGap(x, i, j)),
            no(Miss(k, j, 1)),
            later,
        ],
    )
}

/// B9: what a closure has is given or supported by a rule.
fn supported(alloc: Global, k: Closure, x: u32) -> Result<Items<AtomLit>, Memory>
    ensures { IfOk result (λ clause. clause ≡ aba_clause (B9 k x)) }
{
    let given = yes(given_atom(k, x));
    list(alloc, [no(Der(k, x)), given, yes(Sup(k, x, 1))])
}

/// B18: the contrary of an assumption that a closure has is none from `i` to just before `j`, and, where `j` is not in the
/// closure, a later one than `j`.
fn hit_step(alloc: Global, k: Closure, a: u32, i: u32, j: u32) -> Result<Items<AtomLit>, Memory>
    requires { j < END }
    ensures { IfOk result (λ clause. clause ≡ aba_clause (B18 k a i j)) }
{
    let later = yes(Hit(k, a, j + 1));
    list(
        alloc,
        [no(Hit(k, a, i)), no(ConGap(a, i, j)), yes(Der(k, j)), later],
    )
}

/// B12 and B13: a set of the mode has no member whose contrary is in the closure.
fn apart(
    alloc: Global,
    mode: Atom,
    a: u32,
    c: u32,
    closure: Closure,
) -> Result<Items<AtomLit>, Memory>
    ensures { IfOk result (λ clause. clause
        ≡ denied mode ∷ denied (Con a c) ∷ denied (Member a) ∷ denied (Der closure c) ∷ []) }
{
    list(
        alloc,
        [no(mode), no(Con(a, c)), no(Member(a)), no(Der(closure, c))],
    )
}

/// That a closure has the atom without rules: as a member of the set, or as an assumption.
pub(crate) fn given_atom(k: Closure, x: u32) -> Atom
    ensures { result ≡ given_in k x }
{
    match k {
        Closure::Own => Member(x),
        Closure::Rest => Asm(x),
    }
}
