//! A turn: waiting for the value, and passing it on.

ghost use Rattle.std.specs.Prelude.{◌≡◌, ◌%◌, ◌^◌, ◌<◌, []};
ghost use mathlib.Core.List.{IsPrefix};
ghost use Rattle.turn_lock.specs.Turns.{Continues, IsWaiting, Takes, entries_of, ticket_of};
ghost use Rattle.turn_lock.specs.Locks.{IsAt, IsSamePlace, opened_with};
ghost use Rattle.turn_lock.specs.Seats.{HasEntered, HasSameMark, IsResting, IsSeatOf};
ghost use Rattle.turn_lock.specs.Seats.{found_of, list_of, number_of, turns_of};

use crate::board::{Board, Place, Turned};
use crate::lock::TurnLock;
use crate::seat::{Held, Seat};
use crate::steps::{draw, look, pass, put_in, take_out};
use crossbeam_utils::Backoff;
use std::sync::Wait;

/// Waits until the turn of the ticket has come. It backs off between two looks, longer each time, up to a limit.
fn await_turn<V: Turned, R: Wait>(rt: &R, board: &Board<V>, place: &mut Place<V>, ticket: u64)
    requires table { IsAt board.now.table_id place.old }
    requires waits { IsWaiting place.old.me.0.phase }
    requires ticket { ticket ≡ ticket_of place.old.me.0.phase % 2 ^ 64 }
    ensures same { IsSamePlace place.old place.new }
    ensures taken { Takes V.opening V.history V.number place.old.me place.new.me }
{
    let backoff = Backoff::new();
    for _ in rt.forever() {
        if look(board, place, ticket) {
            return;
        }
        backoff.snooze();
    }
    unreachable!()
}

impl<V: Turned> TurnLock<V> {
    /// Waits for the seat's turn and takes the value. Its history continues the one that the seat saw, by entries of
    /// other seats alone.
    pub fn enter<R: Wait>(&self, rt: &R, seat: &mut Seat<V>) -> Held<V>
        requires ours { IsSeatOf V.opening self.now seat.old }
        requires resting { IsResting seat.old }
        ensures ours { IsSeatOf V.opening self.now seat.new }
        ensures same { HasSameMark seat.old seat.new }
        ensures entered { HasEntered seat.new × (found_of seat.new ≡ V.history result.value) }
        ensures opening { V.opening result.value ≡ V.opening (opened_with self.now) }
        ensures longer { IsPrefix (list_of seat.old) (V.history result.value) }
        ensures own { entries_of V.number (number_of seat.old) (V.history result.value)
            ≡ entries_of V.number (number_of seat.old) (list_of seat.old) }
    {
        let board = &self.table.shared;
        let ticket = draw(board, &mut seat.place);
        await_turn(rt, board, &mut seat.place, ticket);
        Held {
            value: take_out(board, &mut seat.place),
        }
    }

    /// Gives the value back and passes the turn on. The value's history may have become longer, by entries of the
    /// seat's number; the seat has then seen it.
    pub fn leave(&self, seat: &mut Seat<V>, held: Held<V>)
        requires ours { IsSeatOf V.opening self.now seat.old }
        requires entered { HasEntered seat.old }
        requires continued { Continues V.number (number_of seat.old) (found_of seat.old) (V.history held.value) }
        requires opening { V.opening held.value ≡ V.opening (opened_with self.now) }
        ensures ours { IsSeatOf V.opening self.now seat.new }
        ensures resting { IsResting seat.new }
        ensures number { number_of seat.new ≡ number_of seat.old }
        ensures later { turns_of seat.old < turns_of seat.new }
        ensures seen { list_of seat.new ≡ V.history held.value }
    {
        let board = &self.table.shared;
        let Held { value } = held;
        seat.seen = value.entries();
        put_in(board, &mut seat.place, value);
        pass(board, &mut seat.place);
    }
}
