//! The table of axioms.

ghost use Rattle.std.specs.Prelude.{◌≡◌, ◌<◌, All, IfOk};
ghost use Rattle.meaning_atoms.specs.declared.axiom.AfAxiom.TheVariants.{A5, A8};
ghost use Rattle.meaning_atoms.specs.Atoms.{IsLit};
ghost use Rattle.meaning_atoms.specs.Axioms.{IsAfAxiom};
ghost use Rattle.meaning_atoms.specs.Worlds.{IsAsk, IsValid};
ghost use Rattle.af_axioms.specs.Table.{table_clause};

use lists::{Items, Memory};
use meaning_atoms::Atom::{Ad, Attack, Cf, Co, Gap, Live, Member, Range, St, Tail, Unmet};
use meaning_atoms::{AfAxiom, AtomLit, END, list, no, yes};
use std::alloc::Global;

/// The clause of an axiom, with its literals in the order of the table. A clause says that one of its literals
/// is true; where two arguments of the name are equal, a literal may stand twice. `Memory` says that an
/// allocation was refused.
pub fn clause_of(alloc: Global, name: &AfAxiom) -> Result<Items<AtomLit>, Memory>
    requires { IsAfAxiom name.now }
    ensures table { IfOk result (λ clause. clause ≡ table_clause name.now) }
    ensures valid { IfOk result IsValid }
    ensures bounds { IfOk result (All IsLit) }
    ensures no_ask { IfOk result (All (λ literal. ¬ IsAsk literal.atom)) }
{
    row(alloc, name)
}

/// The clause beside the name in the table.
fn row(alloc: Global, name: &AfAxiom) -> Result<Items<AtomLit>, Memory>
    requires { IsAfAxiom name.now }
    ensures { IfOk result (λ clause. clause ≡ table_clause name.now) }
{
    match *name {
        AfAxiom::A1(a) => list(alloc, [no(Cf), no(Member(a)), yes(Live(a))]),
        AfAxiom::A2(b, a) => list(
            alloc,
            [no(Cf), no(Attack(b, a)), no(Member(a)), no(Member(b))],
        ),
        AfAxiom::A3(b, a) => list(
            alloc,
            [no(Ad), no(Attack(b, a)), no(Member(a)), yes(Tail(b, 1))],
        ),
        AfAxiom::A4(b, a) => list(alloc, [no(Attack(b, a)), no(Member(b)), yes(Tail(a, 1))]),
        AfAxiom::A5(a, i, j) => tail_step(alloc, a, i, j),
        AfAxiom::A6(a, i) => list(alloc, [no(Tail(a, i)), no(Gap(a, i, END))]),
        AfAxiom::A7(a) => list(
            alloc,
            [no(Co), no(Live(a)), yes(Member(a)), yes(Unmet(a, 1))],
        ),
        AfAxiom::A8(a, i, j) => unmet_step(alloc, a, i, j),
        AfAxiom::A9(a, i) => list(alloc, [no(Unmet(a, i)), no(Gap(a, i, END))]),
        AfAxiom::A10(a) => list(
            alloc,
            [no(St), no(Live(a)), yes(Member(a)), yes(Tail(a, 1))],
        ),
        AfAxiom::A11(a) => list(alloc, [no(Range(a)), yes(Member(a)), yes(Tail(a, 1))]),
        AfAxiom::A12(a) => list(alloc, [no(Member(a)), yes(Range(a))]),
        AfAxiom::A13(a) => list(alloc, [no(Tail(a, 1)), yes(Range(a))]),
        AfAxiom::A14(1) => list(alloc, [no(Ad), yes(Cf)]),
        AfAxiom::A14(2) => list(alloc, [no(Co), yes(Ad)]),
        AfAxiom::A14(_) => list(alloc, [no(St), yes(Co)]),
    }
}

/// A5: the attacker that a tail tells of is none from `i` to just before `j`, so it is `j` or a later one.
fn tail_step(alloc: Global, a: u32, i: u32, j: u32) -> Result<Items<AtomLit>, Memory>
    requires { j < END }
    ensures { IfOk result (λ clause. clause ≡ table_clause (A5 a i j)) }
{
    let later = yes(Tail(a, j + 1));
    list(
        alloc,
        [no(Tail(a, i)), no(Gap(a, i, j)), yes(Member(j)), later],
    )
}

/// A8: the same of an attacker that the set does not attack; where the set attacks `j`, it is a later one.
fn unmet_step(alloc: Global, a: u32, i: u32, j: u32) -> Result<Items<AtomLit>, Memory>
    requires { j < END }
    ensures { IfOk result (λ clause. clause ≡ table_clause (A8 a i j)) }
{
    let later = yes(Unmet(a, j + 1));
    list(
        alloc,
        [no(Unmet(a, i)), no(Gap(a, i, j)), no(Tail(j, 1)), later],
    )
}
