//! The loop clause that a model lacks.

ghost use Rattle.std.specs.Prelude.{◌≡◌, ℕ, ◌≤◌, ◌<◌, List, Contains, IfNone, IfOk, IfSome, None, OnOk, length, slice_index};
ghost use Rattle.lists.specs.Members.{IsSetOf};
ghost use Rattle.semantics.specs.AbaFrameworks.{IsAtom, IsNumberedAba};
ghost use Rattle.semantics.specs.Rules.{Derives};
ghost use Rattle.meaning_atoms.specs.AbaAxioms.{IsLoop};
ghost use Rattle.meaning_atoms.specs.declared.aba_axiom.AbaAxiom.TheVariants.{B17};
ghost use Rattle.meaning_atoms.specs.declared.atom.Atom.TheVariants.{Asm, Der as DerAtom};
ghost use Rattle.meaning_atoms.specs.declared.atom.Closure.{Closure as AClosure};
ghost use Rattle.meaning_atoms.specs.declared.axiom.AxiomName.TheVariants.{Aba as OfAba};
ghost use Rattle.loop_clauses.specs.LoopNames.{closure_numbered, loop_rows};
ghost use Rattle.semantics.specs.Frameworks.{aba};
ghost use Rattle.oracle_face.specs.Decoding.{IsDecoded, IsModelOf, IsNewLoop, ReadsBack, TellsMembers};
ghost use Rattle.af_encoding.specs.Decoded.{Affirms};
ghost use Rattle.aba_encoding.specs.AbaModels.{AddsAtom, IsFirstLoop, IsFounded, IsLoopBeside, IsLoopName};
ghost use Rattle.af_encoding.specs.NumberAtoms.{atom_of};

use crate::decoding::decode;
use aba_notions::{AbaPlain, Unfounded};
use af_encoding::{NumberAtom, affirmed_numbers};
use lists::Memory;
use loop_clauses::loop_axiom;
use meaning_atoms::{AtomLit, AxiomName, Closure};
use set_lists::NumSet;
use std::alloc::Global;

/// The loop clause that a model of the needed axioms lacks to be read as a set, or None: that of the least of the atoms
/// which it says the decoded set derives and which that set doesn't derive, with a row for each of them; or, if there is
/// none, the same of the atoms which it says are derived from the assumptions that the decoded set doesn't attack. Only
/// the framework's atoms are looked at. The clause is false under a model that is conflict-free and says of each assumption whether it is a member. Time
/// is linear in the literals and the framework, but for numbers that are put in order. `Memory` says that an allocation
/// was refused.
pub fn missing(
    alloc: Global,
    plain: &AbaPlain,
    values: &[AtomLit],
) -> Result<Option<AxiomName>, Memory>
    ensures loops { IfOk result (λ found. IfSome found IsLoopName) }
    ensures lacks { IsModelOf (aba plain.now) values.now → TellsMembers (aba plain.now) values.now
        → IfOk result (λ found. IfSome found (IsNewLoop (aba plain.now) values.now)) }
    ensures first { IfOk result (λ found. IfSome found (λ name. (set : List ℕ) → IsSetOf (IsDecoded Asm values.now) set
        → IsFirstLoop plain.now values.now set name)) }
    ensures unfounded { IfOk result (λ found. IfSome found (λ name. (set : List ℕ)
        → IsSetOf (IsDecoded Asm values.now) set → ¬ ((k : AClosure) → IsFounded plain.now values.now set k))) }
    ensures founded { IfOk result (λ found. found ≡ None → (set : List ℕ) → IsSetOf (IsDecoded Asm values.now) set
        → (k : AClosure) → IsFounded plain.now values.now set k) }
    ensures reads { IfOk result (λ found. found ≡ None → IsModelOf (aba plain.now) values.now → (set : List ℕ)
        → IsSetOf (IsDecoded Asm values.now) set → ReadsBack (aba plain.now) values.now set) }
{
    let own = decode(alloc, values)?;
    if let Some(name) = loop_beside(alloc, plain, values, Closure::Own, &own)? {
        return Ok(Some(name));
    }
    let rest = plain.rest_of(alloc, &own)?;
    let found = loop_beside(alloc, plain, values, Closure::Rest, &rest)?;
    Ok(found)
}

/// The loop clause of the least atom that the literals affirm to be in a closure and that doesn't follow from its base.
fn loop_beside(
    alloc: Global,
    plain: &AbaPlain,
    values: &[AtomLit],
    closure: Closure,
    base: &NumSet,
) -> Result<Option<AxiomName>, Memory>
    ensures some { IfOk result (λ found. IfSome found (IsLoopBeside plain.now values.now base.now closure)) }
    ensures none { IfOk result (λ found. IfNone found ((x : ℕ) → IsAtom plain.now.atoms x
        → Affirms values.now (DerAtom closure x) → Derives plain.now.rules (Contains base.now) x)) }
    ensures form { IsNumberedAba plain.now }
{
    let atoms = plain.atoms();
    let claimed = claimed_atoms(alloc, values, closure, atoms)?;
    match plain.unfounded(alloc, base, &claimed)? {
        Some(found) => Ok(Some(loop_name(alloc, closure, &found)?)),
        None => Ok(None),
    }
}

/// The name of the loop clause of the least of some unfounded atoms.
fn loop_name(alloc: Global, closure: Closure, found: &Unfounded) -> Result<AxiomName, Memory>
    requires some { 0 < length found.now.atoms }
    requires rows { IsLoop (slice_index found.now.atoms 0) (loop_rows found.now.rows) }
    ensures { IfOk result (λ name. name ≡ OfAba (B17 closure (slice_index found.now.atoms 0)
        (loop_rows found.now.rows))) }
{
    let x = found.atoms.as_slice()[0];
    let name = loop_axiom(alloc, index_of(closure), found, x)?;
    Ok(AxiomName::Aba(name))
}

/// The index of a closure, from 1.
fn index_of(closure: Closure) -> u8
    ensures low { 1 ≤ result }
    ensures high { result ≤ 2 }
    ensures value { closure_numbered result ≡ closure }
{
    match closure {
        Closure::Own => 1,
        Closure::Rest => 2,
    }
}

/// The atoms up to a last one that the literals affirm to be in a closure.
fn claimed_atoms(
    alloc: Global,
    values: &[AtomLit],
    closure: Closure,
    last: u32,
) -> Result<NumSet, Memory>
    ensures { IfOk result (IsSetOf (λ x. IsAtom last x × Affirms values.now (DerAtom closure x))) }
{
    let derived = affirmed_numbers(alloc, values, derived_in(closure))?;
    let mut atoms = Vec::new(alloc);
    for x in derived.as_slice() {
        add_atom(&mut atoms, *x, last)?;
    }
    NumSet::from_slice(alloc, &atoms)
}

/// The atom which says that a number is in a closure.
fn derived_in(closure: Closure) -> NumberAtom
    ensures { (x : ℕ) → atom_of result x ≡ DerAtom closure x }
{
    match closure {
        Closure::Own => NumberAtom::OwnDerived,
        Closure::Rest => NumberAtom::RestDerived,
    }
}

/// Adds a number if it is one of the atoms up to a last one.
fn add_atom(atoms: &mut Vec<u32>, x: u32, last: u32) -> Result<(), Memory>
    ensures { OnOk result (AddsAtom last x atoms.old.items atoms.new.items) }
{
    if x < 1 {
        return Ok(());
    }
    if x > last {
        return Ok(());
    }
    atoms.push(x)?;
    Ok(())
}
