//! The steps that names call, and entries that come into a log by them.

ghost use Rattle.std.specs.Prelude.{◌≡◌, ◌↔◌, IfOk, IsTrue, take};
ghost use Rattle.semantics.specs.Frameworks.{Framework as AnyFramework};
ghost use Rattle.edit_rules.specs.Kinds.{framework_of};
ghost use Rattle.oracle_face.specs.declared.entry.EntryOrigin.TheVariants.{Axiom as OfAxiom, Hints};
ghost use Rattle.session_log.specs.Imports.{IsCalled, IsOfEntry};
ghost use Rattle.core_events.specs.Naming.{CallsFirst, Imports, IsCalledAt, MayCome, StandForSome, StandsForSome};
ghost use Rattle.core_events.specs.Stops.{Comes};

use crate::needs::is_axiom_of;
use crate::stop::StepStop;
use core_logs::checking::taken_by;
use core_logs::literals::asks_nothing;
use core_logs::sources::{
    has_axiom, has_entry, is_clause_of, is_from_entry, is_loop_clause, is_of_axiom,
};
use core_logs::steps::{clause_at, find_step, is_closing_at, is_number};
use core_logs::{CoreStep, NamedLog};
use edit_rules::Framework;
use lists::{Items, Memory};
use meaning_atoms::AxiomName;
use oracle_face::{Entry, EntryName, EntryOrigin, HintName};
use plain_lits::StepId;
use std::alloc::Global;

/// Whether the name of an entry calls a step of this number.
fn is_of_entry(own: u32, name: EntryName, number: StepId, step: &CoreStep) -> bool
    ensures { IsTrue result ↔ IsOfEntry own name number step.now }
{
    if name.session == own {
        return name.step == number && step.imported().is_none();
    }
    is_from_entry(step, name)
}

/// Whether a name calls a step of this number, in the log of the session of the number `own`.
fn is_called(own: u32, name: &HintName, number: StepId, step: &CoreStep) -> bool
    ensures { IsTrue result ↔ IsCalled own name.now number step.now }
{
    match name {
        HintName::Axiom(name) => is_of_axiom(step, name),
        HintName::Entry(name) => is_of_entry(own, *name, number, step),
    }
}

/// Whether a name calls the step of a number.
fn is_called_at(own: u32, steps: &[CoreStep], name: &HintName, number: StepId) -> bool
    ensures { IsTrue result ↔ IsCalledAt own steps.now name.now number }
{
    if !is_number(steps, number) {
        return false;
    }
    match find_step(steps, number) {
        Some(step) => is_called(own, name, number, step),
        None => false,
    }
}

/// The number of the last of so many steps.
fn number_of(count: usize) -> Result<u32, Memory>
    ensures { IfOk result (λ number. number ≡ count) }
{
    if count > u32::MAX as usize {
        return Err(Memory);
    }
    Ok(count as u32)
}

/// The first step that a name calls. `Memory` says that there are too many steps.
fn first_called(own: u32, steps: &[CoreStep], name: &HintName) -> Result<Option<StepId>, Memory>
    ensures { IfOk result (CallsFirst own steps.now name.now) }
{
    let count = number_of(steps.len())?;
    for before in 0..count {
        let number = StepId::new(before + 1);
        if is_called_at(own, steps, name, number) {
            return Ok(Some(number));
        }
    }
    Ok(None)
}

/// The step that a name stands for.
fn step_of(own: u32, steps: &[CoreStep], name: &HintName) -> Result<Option<StepId>, Memory>
    ensures { IfOk result (StandsForSome own steps.now name.now) }
{
    let Some(number) = first_called(own, steps, name)? else {
        return Ok(None);
    };
    if is_closing_at(steps, number) {
        return Ok(None);
    }
    if asks_nothing(clause_at(steps, number)) {
        return Ok(Some(number));
    }
    Ok(None)
}

/// The steps that names stand for; None where one of them stands for none.
fn steps_of(
    alloc: Global,
    own: u32,
    steps: &[CoreStep],
    names: &[HintName],
) -> Result<Option<Items<StepId>>, Memory>
    ensures { IfOk result (StandForSome own steps.now names.now) }
{
    let mut found = Items::new(alloc);
    for name in names {
        let Some(step) = step_of(own, steps, name)? else {
            return Ok(None);
        };
        found.push(step)?;
    }
    Ok(Some(found))
}

/// Takes an entry into the log of the session of the number `own`: as its axiom, which has to be one of the opening
/// framework's kind, or by the steps that its hints name.
pub(crate) fn import(
    alloc: Global,
    opening: &Framework,
    own: u32,
    log: &mut NamedLog,
    entry: &Entry,
) -> Result<(), StepStop>
    ensures { Comes (Imports (framework_of opening.now) own entry.now log.old) log.old log.new result }
{
    match &entry.origin {
        EntryOrigin::Axiom(name) => import_axiom(alloc, opening, own, log, entry, name),
        EntryOrigin::Hints(names) => import_by(alloc, own, log, entry, names.as_slice()),
    }
}

/// Whether an axiom may come from an entry: it is of the framework's kind and no loop clause, and no step is it yet.
fn may_come(opening: &Framework, steps: &[CoreStep], name: &AxiomName) -> bool
    ensures { IsTrue result ↔ MayCome (framework_of opening.now) steps.now name.now }
{
    if !is_axiom_of(opening, name) {
        return false;
    }
    if is_loop_clause(name) {
        return false;
    }
    !has_axiom(steps, name)
}

/// Takes an entry of an axiom.
fn import_axiom(
    alloc: Global,
    opening: &Framework,
    own: u32,
    log: &mut NamedLog,
    entry: &Entry,
    name: &AxiomName,
) -> Result<(), StepStop>
    requires { entry.now.origin ≡ OfAxiom name.now }
    ensures { Comes (Imports (framework_of opening.now) own entry.now log.old) log.old log.new result }
{
    if !log.has_room() || entry.name.session == own || has_entry(log.steps(), entry.name) {
        return Err(StepStop::NotAStep);
    }
    if !may_come(opening, log.steps(), name) {
        return Err(StepStop::NotAStep);
    }
    let clause = entry.clause.as_slice();
    if !is_clause_of(alloc, name, clause)? {
        return Err(StepStop::NotAStep);
    }
    log.take_axiom(alloc, name, clause, Some(entry.name))?;
    Ok(())
}

/// The first of the hints, so many, or all if there are fewer.
fn looked_at(hints: &[StepId], used: usize) -> &[StepId]
    ensures { result.now ≡ take used hints.now }
{
    if hints.len() <= used {
        return hints;
    }
    &hints[..used]
}

/// Takes an entry that follows by names. The step keeps the hints that the check looks at.
fn import_by(
    alloc: Global,
    own: u32,
    log: &mut NamedLog,
    entry: &Entry,
    names: &[HintName],
) -> Result<(), StepStop>
    requires { entry.now.origin ≡ Hints names.now }
    ensures { (f : AnyFramework) → Comes (Imports f own entry.now log.old) log.old log.new result }
{
    if !log.has_room() || entry.name.session == own || has_entry(log.steps(), entry.name) {
        return Err(StepStop::NotAStep);
    }
    let Some(hints) = steps_of(alloc, own, log.steps(), names)? else {
        return Err(StepStop::NotAStep);
    };
    let clause = entry.clause.as_slice();
    let Some(used) = taken_by(alloc, log.steps(), clause, hints.as_slice())? else {
        return Err(StepStop::NotAStep);
    };
    let kept = looked_at(hints.as_slice(), used);
    log.take_derived(alloc, clause, kept, Some(entry.name), false)?;
    Ok(())
}
