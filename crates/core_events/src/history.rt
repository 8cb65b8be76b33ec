//! Turns: a group of edits that is committed, and a look at all edits.

ghost use Rattle.std.specs.Prelude.{◌≡◌, ◌+◌, ◌<◌, ◌≤◌, ◌∷◌, ◌++◌, [], IfOk, OnErr, OnOk};
ghost use Rattle.std.specs.Bool.{OnFalse, OnTrue};
ghost use Rattle.std.specs.Prelude.{◌↔◌, IsTrue};
ghost use Rattle.core_machine.specs.Steps.{IsStep, commit};
ghost use Rattle.edit_history.specs.Entries.{IsGroup};
ghost use Rattle.core_events.specs.AtHand.{core_of};
ghost use Rattle.core_events.specs.Stops.{Comes};
ghost use Rattle.core_events.specs.Turns.{IsCommitted, Turns};

use crate::at_hand::CoreAtHand;
use crate::needs::{copy_edits, edits_in, replay};
use crate::stop::StepStop;
use edit_groups::{GroupFault, apply_group};
use edit_history::HistoryEntry;
use edit_rules::{Edit, MAX_GROUP};
use lists::{Items, Memory};
use std::alloc::Global;

/// Adds an entry behind the others. After `Memory` the entries are as before.
fn add_entry(
    history: &mut Vec<HistoryEntry>,
    session: u32,
    edits: Items<Edit>,
) -> Result<(), Memory>
    ensures ok { OnOk result (history.new.items
        ≡ history.old.items ++ record { session = session; edits = edits } ∷ []) }
    ensures err { OnErr result (history.new.items ≡ history.old.items) }
{
    history.push(HistoryEntry { session, edits })?;
    Ok(())
}

/// Whether there may be so many more.
fn has_room(limit: u64, count: u64, more: u64) -> bool
    ensures room { OnTrue result (count + more ≤ limit) }
    ensures full { OnFalse result (limit < count + more) }
{
    if limit < count {
        return false;
    }
    more <= limit - count
}

/// Whether edits can be a group.
fn is_group(edits: &[Edit]) -> bool
    ensures { IsTrue result ↔ IsGroup edits.now }
{
    if edits.is_empty() {
        return false;
    }
    edits.len() <= MAX_GROUP
}

impl CoreAtHand {
    /// Whether a commit adds the group: the history has room, and the framework after it takes the group.
    fn takes(&self, alloc: Global, session: u32, edits: &[Edit]) -> Result<bool, Memory>
        ensures { IfOk result (IsCommitted (core_of self.now) session edits.now) }
    {
        let all = edits_in(alloc, self.history.as_slice())?;
        let count = all.as_slice().len() as u64;
        if !has_room(self.limit, count, edits.len() as u64) {
            return Ok(false);
        }
        let mut framework = replay(alloc, &self.opening, self.history.as_slice())?;
        match apply_group(alloc, &mut framework, edits) {
            Ok(_) => Ok(true),
            Err(GroupFault::Memory) => Err(Memory),
            Err(GroupFault::Edit(_, _)) => Ok(false),
        }
    }

    /// The number of turns after one more. `Memory` says that there are too many.
    fn next_turn(&self) -> Result<u64, Memory>
        ensures { IfOk result (λ turns. turns ≡ self.now.turns + 1) }
    {
        if self.turns == u64::MAX {
            return Err(Memory);
        }
        Ok(self.turns + 1)
    }

    /// A turn that adds nothing.
    pub(crate) fn refresh(&mut self, alloc: Global, session: u32) -> Result<(), StepStop>
        ensures { Turns (core_of self.old) session [] (core_of self.new) result }
    {
        let turns = self.next_turn()?;
        let index = self.seat(alloc, session)?;
        let seen = self.history.as_slice().len();
        self.seats[index].session.seen = seen;
        self.turns = turns;
        Ok(())
    }

    /// A turn that adds a group.
    fn append(&mut self, alloc: Global, session: u32, edits: Items<Edit>) -> Result<(), StepStop>
        ensures { Turns (core_of self.old) session (record { session = session; edits = edits } ∷ [])
            (core_of self.new) result }
    {
        let turns = self.next_turn()?;
        let index = self.seat(alloc, session)?;
        add_entry(&mut self.history, session, edits)?;
        let seen = self.history.as_slice().len();
        self.seats[index].session.seen = seen;
        self.turns = turns;
        Ok(())
    }

    /// A session commits a group of edits.
    pub(crate) fn commit(
        &mut self,
        alloc: Global,
        session: u32,
        edits: &[Edit],
    ) -> Result<(), StepStop>
        ensures { Comes (IsStep (core_of self.old) (commit session edits.now)) (core_of self.old) (core_of self.new)
            result }
    {
        if !is_group(edits) {
            return Err(StepStop::NotAStep);
        }
        if !self.takes(alloc, session, edits)? {
            return self.refresh(alloc, session);
        }
        let taken = copy_edits(alloc, edits)?;
        self.append(alloc, session, taken)
    }
}
