//! Clauses that a session hands to the pool.

ghost use Rattle.std.specs.Prelude.{◌≡◌, ◌↔◌, ◌⊎◌, ◌∷◌, ◌++◌, [], map, IfOk, IsTrue, None, Some, OnErr, OnOk};
ghost use Rattle.core_logs.specs.Sources.{source_of};
ghost use Rattle.core_machine.specs.Core.{put_at};
ghost use Rattle.session_log.specs.Imports.{name_in_log, name_of_step};
ghost use Rattle.core_machine.specs.Steps.{IsStep, share};
ghost use Rattle.core_events.specs.AtHand.{core_of};
ghost use Rattle.core_events.specs.Places.{pool_of};
ghost use Rattle.core_events.specs.Seats.{IsSeatAt};
ghost use Rattle.core_events.specs.Sharing.{EntryForSome, IsEntryFor, OriginOfSome};
ghost use Rattle.core_events.specs.Stops.{Comes};

use crate::at_hand::CoreAtHand;
use crate::places::{IndexedEntry, find_entry};
use crate::stop::StepStop;
use core_logs::equality::entries_are_equal;
use core_logs::literals::{asks_nothing, copy_clause};
use core_logs::steps::{find_step, is_number};
use core_logs::{CoreStep, Justification};
use lists::{Items, Memory};
use oracle_face::{Entry, EntryName, EntryOrigin, HintName};
use plain_lits::StepId;
use std::alloc::Global;

/// The name under which a step of this number is handed on.
fn name_of(alloc: Global, session: u32, step: &CoreStep, number: StepId) -> Result<HintName, Memory>
    ensures { IfOk result (λ name. name ≡ name_in_log session number step.now.imported step.now.source) }
{
    if let Some(name) = step.imported() {
        return Ok(HintName::Entry(name));
    }
    match step.source() {
        Justification::Axiom(name) => Ok(HintName::Axiom(name.copy(alloc)?)),
        Justification::Side(_) | Justification::Hints(_) => {
            Ok(HintName::Entry(EntryName {
                session,
                step: number,
            }))
        }
    }
}

/// The name under which the step of a number is handed on.
fn hint_name(
    alloc: Global,
    session: u32,
    steps: &[CoreStep],
    number: StepId,
) -> Result<HintName, Memory>
    ensures { IfOk result (λ name. name ≡ name_of_step session steps.now number) }
{
    match find_step(steps, number) {
        Some(step) => name_of(alloc, session, step, number),
        None => Ok(HintName::Entry(EntryName {
            session,
            step: number,
        })),
    }
}

/// The names under which the steps of hints are handed on.
fn hint_names(
    alloc: Global,
    session: u32,
    steps: &[CoreStep],
    hints: &[StepId],
) -> Result<Items<HintName>, Memory>
    ensures { IfOk result (λ names. names ≡ map (name_of_step session steps.now) hints.now) }
{
    let mut names = Items::new(alloc);
    for hint in hints {
        names.push(hint_name(alloc, session, steps, *hint)?)?;
    }
    Ok(names)
}

/// Where a shared clause of this source comes from; None for a side clause.
fn origin_of(
    alloc: Global,
    session: u32,
    steps: &[CoreStep],
    source: &Justification,
) -> Result<Option<EntryOrigin>, Memory>
    ensures { IfOk result (OriginOfSome session steps.now (source_of source.now)) }
{
    match source {
        Justification::Side(_) => Ok(None),
        Justification::Axiom(name) => Ok(Some(EntryOrigin::Axiom(name.copy(alloc)?))),
        Justification::Hints(hints) => {
            let names = hint_names(alloc, session, steps, hints.as_slice())?;
            Ok(Some(EntryOrigin::Hints(names)))
        }
    }
}

/// Whether a step was taken from no entry.
fn is_own(step: &CoreStep) -> bool
    ensures { IsTrue result ↔ (step.now.imported ≡ None) }
{
    step.imported().is_none()
}

/// The entry that a step is handed on as, where it may be.
fn entry_for(
    alloc: Global,
    session: u32,
    steps: &[CoreStep],
    number: StepId,
) -> Result<Option<Entry>, Memory>
    ensures { IfOk result (EntryForSome session steps.now number) }
{
    if !is_number(steps, number) {
        return Ok(None);
    }
    let Some(step) = find_step(steps, number) else {
        return Ok(None);
    };
    if !is_own(step) {
        return Ok(None);
    }
    if !asks_nothing(step.clause()) {
        return Ok(None);
    }
    let Some(origin) = origin_of(alloc, session, steps, step.source())? else {
        return Ok(None);
    };
    let clause = copy_clause(alloc, step.clause())?;
    let name = EntryName {
        session,
        step: number,
    };
    Ok(Some(Entry {
        clause,
        name,
        origin,
    }))
}

/// Whether nothing stands under an index, or the same entry.
fn may_stand(places: &[IndexedEntry], index: u64, entry: &Entry) -> bool
    ensures { IsTrue result
        ↔ ((pool_of places.now index ≡ None) ⊎ (pool_of places.now index ≡ Some entry.now)) }
{
    match find_entry(places, index) {
        None => true,
        Some(old) => entries_are_equal(old, entry),
    }
}

/// Puts an entry under an index under which nothing stands, or the same entry. After `Memory` the pool is as before.
fn put_entry(places: &mut Vec<IndexedEntry>, index: u64, entry: Entry) -> Result<(), Memory>
    requires { (pool_of places.old.items index ≡ None) ⊎ (pool_of places.old.items index ≡ Some entry) }
    ensures ok { OnOk result (pool_of places.new.items ≡ put_at index (Some entry) (pool_of places.old.items)) }
    ensures err { OnErr result (pool_of places.new.items ≡ pool_of places.old.items) }
{
    let Some(_) = find_entry(places.as_slice(), index) else {
        return add_indexed(places, index, entry);
    };
    Ok(())
}

/// Adds an entry under its index after the others. After `Memory` they are as before.
fn add_indexed(places: &mut Vec<IndexedEntry>, index: u64, entry: Entry) -> Result<(), Memory>
    ensures ok { OnOk result (places.new.items ≡ places.old.items ++ record { index = index; entry = entry } ∷ []) }
    ensures err { OnErr result (places.new.items ≡ places.old.items) }
{
    places.push(IndexedEntry { index, entry })?;
    Ok(())
}

/// Steps with one more before them.
fn with_first(alloc: Global, first: StepId, steps: &[StepId]) -> Result<Vec<StepId>, Memory>
    ensures { IfOk result (λ all. all.items ≡ first ∷ steps.now) }
{
    let mut all = Vec::with_capacity(alloc, 1)?;
    all.push(first)?;
    all.extend_from_slice(steps)?;
    Ok(all)
}

impl CoreAtHand {
    /// A session hands a step's clause to the pool.
    pub(crate) fn share(
        &mut self,
        alloc: Global,
        session: u32,
        number: StepId,
        place: u64,
    ) -> Result<(), StepStop>
        ensures { Comes (IsStep (core_of self.old) (share session number place)) (core_of self.old) (core_of self.new)
            result }
    {
        let index = self.seat(alloc, session)?;
        let found = entry_for(
            alloc,
            session,
            self.seats[index].session.log.steps(),
            number,
        )?;
        match found {
            None => Err(StepStop::NotAStep),
            Some(entry) => self.put_in_pool(alloc, session, index, number, place, entry),
        }
    }

    /// The session of a seat hands an entry to the pool.
    fn put_in_pool(
        &mut self,
        alloc: Global,
        session: u32,
        index: usize,
        number: StepId,
        place: u64,
        entry: Entry,
    ) -> Result<(), StepStop>
        requires at { IsSeatAt self.old.seats.items session index }
        requires entry { IsEntryFor session ((core_of self.old).sessions session).log.steps number entry }
        ensures { Comes (IsStep (core_of self.old) (share session number place)) (core_of self.old) (core_of self.new)
            result }
    {
        if !may_stand(self.pool.as_slice(), place, &entry) {
            return Err(StepStop::NotAStep);
        }
        let shared = with_first(alloc, number, self.seats[index].session.shared.as_slice())?;
        put_entry(&mut self.pool, place, entry)?;
        self.seats[index].session.shared = shared;
        Ok(())
    }
}
