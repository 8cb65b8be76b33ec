//! Entries that come into the log of a solver.

ghost use Rattle.std.specs.Prelude.{◌≡◌, ◌≢◌, ◌⊎◌, ◌↔◌, ℕ, Bool, Contains, List, None, IfNone, IfOk, IfSome, IsTrue};
ghost use Rattle.std.specs.Prelude.{OnOk, false, length};
ghost use Rattle.semantics.specs.Frameworks.{Framework};
ghost use Rattle.oracle_face.specs.Entries.{IsShareable};
ghost use Rattle.meaning_atoms.specs.declared.atom.AtomLit.{AtomLit as ALit};
ghost use Rattle.oracle_face.specs.Kinds.{is_assumption_based};
ghost use Rattle.oracle_face.specs.Logs.{IsSameClause, is_loop};
ghost use Rattle.oracle_face.specs.declared.entry.Entry.{Entry as AnEntry};
ghost use Rattle.oracle_face.specs.declared.entry.EntryOrigin.TheVariants.{Axiom, Hints};
ghost use Rattle.oracle_face.specs.declared.entry.HintName.TheVariants.{Entry as OfEntry};
ghost use Rattle.oracle_face.specs.StepSources.{imported_of};
ghost use Rattle.session_log.specs.OwnSteps.{IsNamedByGiven, OwnStep};
ghost use Rattle.entry_taking.specs.Names.{AreNamed};
ghost use Rattle.entry_taking.specs.Taking.{AreFound, ComesIn, ImportsOrMayNot, GoesOn, IsCalledFirst, IsFound};
ghost use Rattle.entry_taking.specs.Taking.{IsKnown};
ghost use Rattle.entry_taking.specs.Taking.{IsLooked, IsOfAxiom, IsOwn, MayCome, is_of_aba};

use crate::names::{StepName, StepNames};
use atom_solver::AtomSolver;
use certificate_claims::clause_of_axiom;
use lists::{Items, Memory};
use meaning_atoms::laws::literals_are_equal;
use meaning_atoms::{AbaAxiom, AtomLit, AxiomName};
use oracle_face::{Entry, EntryName, EntryOrigin, HintName, StepSource};
use plain_lits::{Halt, StepId};
use std::alloc::Global;

/// One's own step of a number, unless it was taken from an entry; None where there is none.
fn own_step(alloc: Global, solver: &AtomSolver, step: StepId) -> Result<Option<StepId>, Memory>
    ensures some { IfOk result (λ found. IfSome found (λ own. (own ≡ step) × IsOwn solver.now.log.steps step)) }
    ensures none { IfOk result (λ found. IfNone found (IsOwn solver.now.log.steps step → ⊥)) }
{
    let number = step.number() as usize;
    if number == 0 || number > solver.len() {
        return Ok(None);
    }
    let origin = solver.origin(alloc, step)?;
    Ok(unless_entry(origin, step))
}

/// A step, unless it comes from an entry.
fn unless_entry(origin: StepSource, step: StepId) -> Option<StepId>
    ensures some { IfSome result (λ found. (found ≡ step) × (imported_of origin ≡ None)) }
    ensures none { IfNone result (imported_of origin ≢ None) }
{
    match origin {
        StepSource::Entry(_) => None,
        StepSource::Axiom(_) | StepSource::Side(_) | StepSource::Hints => Some(step),
    }
}

/// The first step that a name calls so, in the log of the session of the number `own`.
fn called(
    alloc: Global,
    solver: &AtomSolver,
    names: &StepNames,
    own: u32,
    name: &HintName,
) -> Result<Option<StepId>, Memory>
    requires { IsLooked names.now solver.now.log.steps }
    ensures { IfOk result (IsCalledFirst own solver.now.log.steps name.now) }
{
    match name {
        HintName::Axiom(name) => names.find_axiom(alloc, name),
        HintName::Entry(name) => called_entry(alloc, solver, names, own, *name),
    }
}

/// The first step that an entry's name calls so.
fn called_entry(
    alloc: Global,
    solver: &AtomSolver,
    names: &StepNames,
    own: u32,
    name: EntryName,
) -> Result<Option<StepId>, Memory>
    requires { IsLooked names.now solver.now.log.steps }
    ensures { IfOk result (IsCalledFirst own solver.now.log.steps (OfEntry name)) }
{
    if name.session == own {
        return own_step(alloc, solver, name.step);
    }
    Ok(names.find(&StepName::Entry(name.session, name.step)))
}

/// The step that a name stands for.
fn step_of(
    alloc: Global,
    solver: &AtomSolver,
    names: &StepNames,
    own: u32,
    name: &HintName,
) -> Result<Option<StepId>, Memory>
    requires { IsLooked names.now solver.now.log.steps }
    ensures { IfOk result (IsFound own solver.now.log.steps name.now) }
{
    let Some(step) = called(alloc, solver, names, own, name)? else {
        return Ok(None);
    };
    if solver.is_plain(step) {
        return Ok(Some(step));
    }
    Ok(None)
}

/// The steps that names stand for; None where one of them stands for none.
fn steps_of(
    alloc: Global,
    solver: &AtomSolver,
    names: &StepNames,
    own: u32,
    hints: &[HintName],
) -> Result<Option<Items<StepId>>, Memory>
    requires { IsLooked names.now solver.now.log.steps }
    ensures { IfOk result (AreFound own solver.now.log.steps hints.now) }
{
    let mut steps = Items::new(alloc);
    for hint in hints {
        let Some(step) = step_of(alloc, solver, names, own, hint)? else {
            return Ok(None);
        };
        steps.push(step)?;
    }
    Ok(Some(steps))
}

/// Whether a clause has a literal.
fn has(clause: &[AtomLit], lit: &AtomLit) -> bool
    ensures { IsTrue result ↔ Contains clause.now lit.now }
{
    clause.iter().any(|other| literals_are_equal(other, lit))
}

/// Whether a clause has each literal of another.
fn is_part(part: &[AtomLit], clause: &[AtomLit]) -> bool
    ensures { IsTrue result ↔ ((l : ALit) → Contains part.now l → Contains clause.now l) }
{
    part.iter().all(|lit| has(clause, lit))
}

/// Whether two clauses have the same literals.
fn is_same_clause(left: &[AtomLit], right: &[AtomLit]) -> bool
    ensures { IsTrue result ↔ IsSameClause left.now right.now }
{
    is_part(left, right) && is_part(right, left)
}

/// Whether a clause is that of an axiom, by its name.
fn is_of_axiom(alloc: Global, name: &AxiomName, clause: &[AtomLit]) -> Result<bool, Memory>
    ensures { IfOk result (λ is. IsTrue is ↔ IsOfAxiom name.now clause.now) }
{
    if !name.is_name() {
        return Ok(false);
    }
    let literals = clause_of_axiom(alloc, name)?;
    Ok(is_same_clause(clause, literals.as_slice()))
}

/// Takes the axiom that an entry is, where the entry's clause is the axiom's and the log hasn't got it.
fn take_axiom(
    alloc: Global,
    solver: &mut AtomSolver,
    names: &StepNames,
    assumption_based: bool,
    name: &AxiomName,
    clause: &[AtomLit],
) -> Result<(), Memory>
    requires looked { IsLooked names.now solver.old.log.steps }
    requires may { MayCome assumption_based name.now }
    ensures goes { GoesOn assumption_based solver.old solver.new }
    ensures comes { OnOk result ((f : Framework) (own : ℕ) → ComesIn f own clause.now (Axiom name.now) solver.old.log
        solver.new.log) }
    ensures steps { (f : Framework) (own : ℕ) (given : List AnEntry) → is_assumption_based f ≡ assumption_based
        → IsNamedByGiven given name.now
        → (solver.new.log ≡ solver.old.log) ⊎ OwnStep f own given solver.old.log solver.new.log }
{
    let there = names.find_axiom(alloc, name)?;
    if there.is_some() {
        return Ok(());
    }
    let is_of_axiom = is_of_axiom(alloc, name, clause)?;
    if !is_of_axiom {
        return Ok(());
    }
    let taken = name.copy(alloc)?;
    match solver.take_axiom(alloc, taken) {
        Ok(()) | Err(Halt::LogFull) => Ok(()),
        Err(Halt::Memory | Halt::Spent(_)) => Err(Memory),
    }
}

/// Whether an axiom is one of assumption-based frameworks.
fn is_of_aba(name: &AxiomName) -> bool
    ensures { result ≡ is_of_aba name.now }
{
    matches!(name, AxiomName::Aba(_))
}

/// Whether an axiom is a loop clause.
fn is_loop(name: &AxiomName) -> bool
    ensures { result ≡ is_loop name.now }
{
    matches!(name, AxiomName::Aba(AbaAxiom::B17 { .. }))
}

/// Takes the axiom of this name, as `take_axiom` says; those of the other kind of framework stay outside, and loop
/// clauses, which come only where a model calls for them.
fn take_named(
    alloc: Global,
    solver: &mut AtomSolver,
    names: &StepNames,
    assumption_based: bool,
    name: &AxiomName,
    clause: &[AtomLit],
) -> Result<(), Memory>
    requires { IsLooked names.now solver.old.log.steps }
    ensures goes { GoesOn assumption_based solver.old solver.new }
    ensures comes { OnOk result ((f : Framework) (own : ℕ) → is_assumption_based f ≡ assumption_based
        → ComesIn f own clause.now (Axiom name.now) solver.old.log solver.new.log) }
    ensures steps { (f : Framework) (own : ℕ) (given : List AnEntry) → is_assumption_based f ≡ assumption_based
        → IsNamedByGiven given name.now
        → (solver.new.log ≡ solver.old.log) ⊎ OwnStep f own given solver.old.log solver.new.log }
{
    let of_kind = is_of_aba(name) == assumption_based;
    if !of_kind {
        return Ok(());
    }
    if is_loop(name) {
        return Ok(());
    }
    take_axiom(alloc, solver, names, assumption_based, name, clause)
}

/// Takes the clause of an entry that follows by its hints, where the log has the steps that they name.
fn take_derived(
    alloc: Global,
    solver: &mut AtomSolver,
    names: &StepNames,
    own: u32,
    entry: &Entry,
    hints: &[HintName],
) -> Result<(), Memory>
    requires looked { IsLooked names.now solver.old.log.steps }
    requires shareable { IsShareable entry.now }
    requires origin { entry.now.origin ≡ Hints hints.now }
    ensures goes { (assumption_based : Bool) → GoesOn assumption_based solver.old solver.new }
    ensures comes { OnOk result ((f : Framework) → ComesIn f own entry.now.clause (Hints hints.now) solver.old.log
        solver.new.log) }
    ensures steps { (f : Framework) (given : List AnEntry) → Contains given entry.now
        → (IsKnown names.now own entry.now.name → ⊥)
        → (solver.new.log ≡ solver.old.log) ⊎ OwnStep f own given solver.old.log solver.new.log }
{
    let Some(steps) = steps_of(alloc, solver, names, own, hints)? else {
        return Ok(());
    };
    solver.import(alloc, entry.clause.as_slice(), steps, entry.name)?;
    Ok(())
}

/// Takes an entry into the log of the session of the number `own`, whose framework is assumption-based or abstract, where
/// it may come in: an axiom of such frameworks, but a loop clause, as one's own step; any other entry by the steps that
/// its hints name, marked with the entry's name. It is a step of the session wherever the entry was given. It spends
/// nothing. After `Memory` the log is as before.
pub fn import_entry(
    alloc: Global,
    solver: &mut AtomSolver,
    names: &mut StepNames,
    assumption_based: bool,
    own: u32,
    entry: &Entry,
) -> Result<(), Memory>
    requires named { AreNamed names.old solver.old.log.steps }
    requires shareable { IsShareable entry.now }
    ensures named { AreNamed names.new solver.new.log.steps }
    ensures goes { GoesOn assumption_based solver.old solver.new }
    ensures comes { OnOk result ((f : Framework) → is_assumption_based f ≡ assumption_based
        → ImportsOrMayNot f own entry.now solver.old.log solver.new.log) }
    ensures steps { (f : Framework) (given : List AnEntry) → is_assumption_based f ≡ assumption_based
        → Contains given entry.now
        → (solver.new.log ≡ solver.old.log) ⊎ OwnStep f own given solver.old.log solver.new.log }
{
    names.look(alloc, solver)?;
    if is_taken(names, own, entry.name) {
        return Ok(());
    }
    match &entry.origin {
        EntryOrigin::Axiom(name) => {
            let clause = entry.clause.as_slice();
            take_named(alloc, solver, names, assumption_based, name, clause)
        }
        EntryOrigin::Hints(hints) => {
            take_derived(alloc, solver, names, own, entry, hints.as_slice())
        }
    }
}

/// Whether an entry is one's own, or was taken in.
fn is_taken(names: &StepNames, own: u32, name: EntryName) -> bool
    ensures { IsTrue result ↔ IsKnown names.now own name }
{
    name.session == own
        || names
            .find(&StepName::Entry(name.session, name.step))
            .is_some()
}
