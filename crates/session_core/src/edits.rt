//! A session's edits.

ghost use Rattle.std.specs.Prelude.{◌≡◌, ◌<◌, ◌≤◌, ◌+◌, ◌∷◌, [], length, true, false, IfOk, IsErr, OnErr, OnOk};
ghost use mathlib.Core.List.{IsPrefix};
ghost use Rattle.turn_lock.specs.Seats.{number_of, turns_of};
ghost use Rattle.edit_history.specs.Entries.{IsGroup, edit_count};
ghost use Rattle.edit_history.specs.Hubs.{IsSeatAt, limit_of, start_of};
ghost use Rattle.session_core.specs.Replies.{IsEditReply, place_told};
ghost use Rattle.session_core.specs.Sessions.{Follows, seen_by};

use crate::session::Session;
use edit_history::{CommitFault, Hub};
use edit_rules::Edit;
use lists::{Items, Memory};
use session_replies::{Body, Reply};
use std::alloc::Global;
use std::sync::Wait;

impl Session {
    /// Commits an edit at one turn. The reply is `Done` where the edit was taken, `EditRefused` with the place 0 where
    /// the framework after the whole history refuses it, and `Full` exactly where the history has as many edits as it
    /// may have; its front is the history's length behind the turn. After `Memory` the session answers nothing any
    /// more.
    pub fn edit<R: Wait>(
        &mut self,
        rt: &R,
        alloc: Global,
        hub: &Hub,
        edit: Edit,
    ) -> Result<Reply, Memory>
        requires { IsSeatAt hub.now self.old.seat }
        ensures seat { IsSeatAt hub.now self.new.seat × (number_of self.new.seat ≡ number_of self.old.seat) }
        ensures later { self.old.out_of_memory ≡ false → turns_of self.old.seat < turns_of self.new.seat }
        ensures longer { IsPrefix (seen_by self.old) (seen_by self.new) }
        ensures ok { IfOk result (IsEditReply false (limit_of hub.now) (start_of hub.now) (number_of self.old.seat)
            (edit ∷ []) (seen_by self.old) (seen_by self.new)) }
        ensures room { self.old.out_of_memory ≡ false
            → OnErr result (edit_count (seen_by self.new) + 1 ≤ limit_of hub.now) }
        ensures number { self.new.number ≡ self.old.number }
        ensures engine { self.new.engine ≡ self.old.engine }
        ensures followed { self.new.followed ≡ self.old.followed }
        ensures answers { self.new.answers ≡ self.old.answers }
        ensures taken { self.new.taken ≡ self.old.taken }
        ensures follows { Follows hub.now self.old → Follows hub.now self.new }
        ensures kept { OnOk result (self.new.out_of_memory ≡ false) }
        ensures out_of_memory { OnErr result (self.new.out_of_memory ≡ true) }
        ensures still_out_of_memory { self.old.out_of_memory ≡ true → IsErr result × (self.new ≡ self.old) }
    {
        let edits = [edit];
        self.commit(rt, alloc, hub, &edits, false)
    }

    /// Commits a group of edits at one turn, all or none. The reply is `Done` where all were taken, `EditRefused` with
    /// the place of the first edit that the framework after the whole history and the edits before it refuses, and
    /// `Full` exactly where the edits of the history and of the group together are more than there may be; its front is
    /// the history's length behind the turn. After `Memory` the session answers nothing any more.
    pub fn edit_group<R: Wait>(
        &mut self,
        rt: &R,
        alloc: Global,
        hub: &Hub,
        edits: Items<Edit>,
    ) -> Result<Reply, Memory>
        requires seat { IsSeatAt hub.now self.old.seat }
        requires edits { IsGroup edits }
        ensures seat { IsSeatAt hub.now self.new.seat × (number_of self.new.seat ≡ number_of self.old.seat) }
        ensures later { self.old.out_of_memory ≡ false → turns_of self.old.seat < turns_of self.new.seat }
        ensures longer { IsPrefix (seen_by self.old) (seen_by self.new) }
        ensures ok { IfOk result (IsEditReply true (limit_of hub.now) (start_of hub.now) (number_of self.old.seat) edits
            (seen_by self.old) (seen_by self.new)) }
        ensures room { self.old.out_of_memory ≡ false
            → OnErr result (edit_count (seen_by self.new) + length edits ≤ limit_of hub.now) }
        ensures number { self.new.number ≡ self.old.number }
        ensures engine { self.new.engine ≡ self.old.engine }
        ensures followed { self.new.followed ≡ self.old.followed }
        ensures answers { self.new.answers ≡ self.old.answers }
        ensures taken { self.new.taken ≡ self.old.taken }
        ensures follows { Follows hub.now self.old → Follows hub.now self.new }
        ensures kept { OnOk result (self.new.out_of_memory ≡ false) }
        ensures out_of_memory { OnErr result (self.new.out_of_memory ≡ true) }
        ensures still_out_of_memory { self.old.out_of_memory ≡ true → IsErr result × (self.new ≡ self.old) }
    {
        self.commit(rt, alloc, hub, edits.as_slice(), true)
    }

    /// Commits edits at one turn, as [`edit_group`](Session::edit_group) does where they are written as a group, and as
    /// [`edit`](Session::edit) does where one is written without. The list stays the caller's.
    pub fn commit<R: Wait>(
        &mut self,
        rt: &R,
        alloc: Global,
        hub: &Hub,
        edits: &[Edit],
        grouped: bool,
    ) -> Result<Reply, Memory>
        requires seat { IsSeatAt hub.now self.old.seat }
        requires edits { IsGroup edits.now }
        ensures seat { IsSeatAt hub.now self.new.seat × (number_of self.new.seat ≡ number_of self.old.seat) }
        ensures later { self.old.out_of_memory ≡ false → turns_of self.old.seat < turns_of self.new.seat }
        ensures longer { IsPrefix (seen_by self.old) (seen_by self.new) }
        ensures ok { IfOk result (IsEditReply grouped (limit_of hub.now) (start_of hub.now) (number_of self.old.seat)
            edits.now (seen_by self.old) (seen_by self.new)) }
        ensures room { self.old.out_of_memory ≡ false
            → OnErr result (edit_count (seen_by self.new) + length edits.now ≤ limit_of hub.now) }
        ensures number { self.new.number ≡ self.old.number }
        ensures engine { self.new.engine ≡ self.old.engine }
        ensures followed { self.new.followed ≡ self.old.followed }
        ensures answers { self.new.answers ≡ self.old.answers }
        ensures taken { self.new.taken ≡ self.old.taken }
        ensures follows { Follows hub.now self.old → Follows hub.now self.new }
        ensures kept { OnOk result (self.new.out_of_memory ≡ false) }
        ensures out_of_memory { OnErr result (self.new.out_of_memory ≡ true) }
        ensures still_out_of_memory { self.old.out_of_memory ≡ true → IsErr result × (self.new ≡ self.old) }
    {
        if self.out_of_memory {
            return Err(Memory);
        }
        match hub.commit_edits(rt, alloc, &mut self.seat, edits) {
            Ok(done) => Ok(Reply {
                front: done.front,
                body: Body::Done(done.effects),
            }),
            Err(CommitFault::Edit(place, fault, front)) => Ok(Reply {
                front,
                body: Body::EditRefused(place_of(place, grouped), fault),
            }),
            Err(CommitFault::HistoryFull(front)) => Ok(Reply {
                front,
                body: Body::Full,
            }),
            Err(CommitFault::Memory) => {
                self.out_of_memory = true;
                Err(Memory)
            }
        }
    }
}

/// The place that a reply tells of a refused edit.
fn place_of(place: u64, grouped: bool) -> u64
    ensures { result ≡ place_told grouped place }
{
    if grouped { place } else { 0 }
}
