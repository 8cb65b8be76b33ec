//! The history as threads share it.

ghost use Rattle.std.specs.Prelude.{◌≡◌, ◌≤◌, ◌<◌, ◌∷◌, [], length, IfOk, IfErr, OnErr};
ghost use Rattle.edit_rules.specs.Kinds.{framework_of};
ghost use Rattle.turn_lock.specs.Seats.{list_of, number_of, turns_of};
ghost use Rattle.edit_history.specs.Entries.{FaultSays, IsGroup};
ghost use Rattle.edit_history.specs.Hubs.{AreNewSeats, AreSeatsOf, IsSeatAt, limit_of, sessions_of, start_of};
ghost use Rattle.edit_history.specs.Hubs.{EndsWith, GainsOthers, IsCommitted, IsFresh};

use crate::entry::Change;
use crate::fault::CommitFault;
use crate::journal::Journal;
use edit_rules::{Edit, Effect, Framework};
use lists::{Items, Memory};
use std::alloc::Global;
use std::sync::Wait;
use turn_lock::TurnLock;

/// One session's place at a hub. It has the history that the session saw last, as contracts name it; `seen` gives its
/// length.
pub type Seat = turn_lock::Seat<Journal>;

/// One history of edits, for a fixed number of sessions.
#[derive(Drop)]
pub struct Hub {
    pub(crate) lock: TurnLock<Journal>,
}

/// An edit that was taken.
#[derive(Drop)]
pub struct Committed {
    /// The number of entries up to the edit's own.
    pub front: u64,
    /// What the edit did.
    pub effect: Effect,
}

/// A group of edits that was taken.
#[derive(Drop)]
pub struct GroupCommitted {
    /// The number of entries up to the group's own.
    pub front: u64,
    /// What its edits did, one by one.
    pub effects: Items<Effect>,
}

/// What a refresh tells.
#[derive(Drop)]
pub struct Fresh {
    /// The entries that were asked for, each with its effects.
    pub entries: Items<Change>,
    /// The number of entries of the whole history.
    pub front: u64,
}

/// The history of a hub that was closed.
pub struct History {
    /// The framework at the beginning.
    pub opening: Framework,
    /// The entries, each with its effects.
    pub entries: Vec<Change>,
}

impl Drop for History {
    fn drop(self) {
        let Self { opening, entries } = self;
    }
}

impl Hub {
    /// Opens an empty history over a framework, with the seats of the sessions 1 to n. It will have `limit` edits at
    /// most. `Err` comes only for want of memory.
    pub fn open<R: Wait>(
        rt: &R,
        alloc: Global,
        framework: Framework,
        limit: u64,
        n: u32,
    ) -> Result<(Hub, Vec<Seat>), Memory>
        requires { 0 < n }
        ensures start { IfOk result (λ opened. start_of opened.0 ≡ framework_of framework) }
        ensures limit { IfOk result (λ opened. limit_of opened.0 ≡ limit) }
        ensures count { IfOk result (λ opened. sessions_of opened.0 ≡ n) }
        ensures seats { IfOk result (λ opened. AreNewSeats opened.0 n opened.1.items) }
    {
        let journal = Journal::new(alloc, framework, limit)?;
        let (lock, seats) = TurnLock::open(rt, alloc, journal, n)?;
        Ok((Hub { lock }, seats))
    }

    /// Commits an edit, as the group of it alone.
    pub fn commit<R: Wait>(
        &self,
        rt: &R,
        alloc: Global,
        seat: &mut Seat,
        edit: Edit,
    ) -> Result<Committed, CommitFault>
        requires { IsSeatAt self.now seat.old }
        ensures seat { IsSeatAt self.now seat.new × (number_of seat.new ≡ number_of seat.old) }
        ensures later { turns_of seat.old < turns_of seat.new }
        ensures ok { IfOk result (λ done. IsCommitted (limit_of self.now) (start_of self.now) (number_of seat.old)
            (edit ∷ []) (list_of seat.old) (list_of seat.new) (done.effect ∷ [])) }
        ensures front { IfOk result (λ done. done.front ≡ length (list_of seat.new)) }
        ensures err { OnErr result (GainsOthers (number_of seat.old) (list_of seat.old) (list_of seat.new)) }
        ensures fault { IfErr result (FaultSays (limit_of self.now) (start_of self.now) (list_of seat.new)
            (edit ∷ [])) }
    {
        let edits = [edit];
        let done = self.commit_edits(rt, alloc, seat, &edits)?;
        Ok(Committed {
            front: done.front,
            effect: only_of(done.effects),
        })
    }

    /// Commits a group of edits at one turn, all or none. `HistoryFull` comes exactly where the edits of the history
    /// and of the group together are more than there may be, `Edit` only where the framework after the whole history
    /// and the group's edits before it refuses an edit so. After every answer the seat has seen the history as the turn
    /// left it; after `Err` that is the history as the turn found it. Attacks come or go in place; for every other
    /// group the time is linear in the framework.
    pub fn commit_group<R: Wait>(
        &self,
        rt: &R,
        alloc: Global,
        seat: &mut Seat,
        edits: Items<Edit>,
    ) -> Result<GroupCommitted, CommitFault>
        requires seat { IsSeatAt self.now seat.old }
        requires edits { IsGroup edits }
        ensures seat { IsSeatAt self.now seat.new × (number_of seat.new ≡ number_of seat.old) }
        ensures later { turns_of seat.old < turns_of seat.new }
        ensures ok { IfOk result (λ done. IsCommitted (limit_of self.now) (start_of self.now) (number_of seat.old) edits
            (list_of seat.old) (list_of seat.new) done.effects) }
        ensures front { IfOk result (λ done. done.front ≡ length (list_of seat.new)) }
        ensures err { OnErr result (GainsOthers (number_of seat.old) (list_of seat.old) (list_of seat.new)) }
        ensures fault { IfErr result (FaultSays (limit_of self.now) (start_of self.now) (list_of seat.new) edits) }
    {
        self.commit_edits(rt, alloc, seat, edits.as_slice())
    }

    /// Commits a group of edits at one turn, as [`commit_group`](Hub::commit_group) does. The list stays the caller's.
    pub fn commit_edits<R: Wait>(
        &self,
        rt: &R,
        alloc: Global,
        seat: &mut Seat,
        edits: &[Edit],
    ) -> Result<GroupCommitted, CommitFault>
        requires seat { IsSeatAt self.now seat.old }
        requires edits { IsGroup edits.now }
        ensures seat { IsSeatAt self.now seat.new × (number_of seat.new ≡ number_of seat.old) }
        ensures later { turns_of seat.old < turns_of seat.new }
        ensures ok { IfOk result (λ done. IsCommitted (limit_of self.now) (start_of self.now) (number_of seat.old)
            edits.now (list_of seat.old) (list_of seat.new) done.effects) }
        ensures front { IfOk result (λ done. done.front ≡ length (list_of seat.new)) }
        ensures err { OnErr result (GainsOthers (number_of seat.old) (list_of seat.old) (list_of seat.new)) }
        ensures fault { IfErr result (FaultSays (limit_of self.now) (start_of self.now) (list_of seat.new) edits.now) }
    {
        let mut held = self.lock.enter(rt, seat);
        let done = held.value.commit(alloc, seat.number(), edits);
        self.lock.leave(seat, held);
        let effects = done?;
        Ok(GroupCommitted {
            front: seat.seen(),
            effects,
        })
    }

    /// Sees the whole history at one turn, and tells the entries after the first `from`. After `Memory` the seat has
    /// seen it too. The time is linear in what it tells.
    #[tactic(auto, using(crate::proofs::HubLemmas::still_there))]
    pub fn refresh<R: Wait>(
        &self,
        rt: &R,
        alloc: Global,
        seat: &mut Seat,
        from: u64,
    ) -> Result<Fresh, Memory>
        requires seat { IsSeatAt self.now seat.old }
        requires from { from ≤ length (list_of seat.old) }
        ensures seat { IsSeatAt self.now seat.new × (number_of seat.new ≡ number_of seat.old) }
        ensures later { turns_of seat.old < turns_of seat.new }
        ensures gained { GainsOthers (number_of seat.old) (list_of seat.old) (list_of seat.new) }
        ensures ok { IfOk result (IsFresh (start_of self.now) (list_of seat.new) from) }
    {
        let held = self.lock.enter(rt, seat);
        let told = held.value.changes_from(alloc, from);
        self.lock.leave(seat, held);
        let entries = told?;
        Ok(Fresh {
            entries,
            front: seat.seen(),
        })
    }

    /// Ends the hub, given all its seats in the order of their numbers, and gives the history. It takes no memory and
    /// doesn't wait.
    pub fn close(self, seats: Vec<Seat>) -> History
        requires { AreSeatsOf self seats.items }
        ensures { EndsWith self seats.items result }
    {
        let Hub { lock } = self;
        let (opening, entries) = lock.close(seats).into_parts();
        History { opening, entries }
    }
}

/// The effect of a group of one edit.
fn only_of(effects: Items<Effect>) -> Effect
    requires { length effects ≡ 1 }
    ensures { effects ≡ result ∷ [] }
{
    match effects.into_vec().pop() {
        Some(effect) => effect,
        None => unreachable!(),
    }
}
