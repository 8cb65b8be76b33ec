//! The steps on the table, one function for each kind: a ticket is drawn, `serving` is looked at, the value is taken
//! out of the slot and put into it, the turn passes on; a seat is made from another, takes a number, takes in another.

ghost use Rattle.std.specs.Prelude.{◌≡◌, ◌≢◌, ◌+◌, ◌%◌, ◌^◌, ◌<◌, [], ◌∷◌, Some, None};
ghost use Rattle.std.specs.Bool.{OnTrue, OnFalse};
ghost use Rattle.turn_lock.specs.Turns.{Draws, IsLeaving, IsWaiting, Passes, Takes};
ghost use Rattle.turn_lock.specs.Turns.{joined, numbered_with, seated_from, ticket_of};
ghost use Rattle.turn_lock.specs.Locks.{IsAt, IsSamePlace};
ghost use Rattle.turn_lock.specs.declared.board.Phase.TheVariants.{Idle};

use crate::board::{Board, Place, Turned};
use crate::plays::{Drawing, Joining, Looking, Numbering, Passing, Splitting};

/// Draws a ticket.
pub(crate) fn draw<V: Turned>(board: &Board<V>, place: &mut Place<V>) -> u64
    requires table { IsAt board.now.table_id place.old }
    requires idle { place.old.me.0.phase ≡ Idle }
    requires numbered { (place.old.me.0.mark.number ≢ 0) × (place.old.me.0.ended ≡ []) }
    ensures same { IsSamePlace place.old place.new }
    ensures drawn { Draws place.old.me result place.new.me }
{
    board.fetch_add::<Drawing>(place, 1, 1)
}

/// Looks whether the turn of a ticket has come. Then the value is the seat's.
pub(crate) fn look<V: Turned>(board: &Board<V>, place: &mut Place<V>, ticket: u64) -> bool
    requires table { IsAt board.now.table_id place.old }
    requires waits { IsWaiting place.old.me.0.phase }
    requires ticket { ticket ≡ ticket_of place.old.me.0.phase % 2 ^ 64 }
    ensures same { IsSamePlace place.old place.new }
    ensures come { OnTrue result (Takes V.opening V.history V.number place.old.me place.new.me) }
    ensures not_yet { OnFalse result (place.new.me ≡ place.old.me) }
{
    board.load::<Looking<V>>(place, 0) == ticket
}

/// Takes the value out of the slot.
pub(crate) fn take_out<V: Turned>(board: &Board<V>, place: &mut Place<V>) -> V
    requires table { IsAt board.now.table_id place.old }
    requires full { (value : V) × (place.old.me.1 ≡ (0, Some value) ∷ []) }
    ensures same { IsSamePlace place.old place.new }
    ensures value { place.old.me.1 ≡ (0, Some result) ∷ [] }
    ensures empty { place.new.me ≡ (place.old.me.0, (0, None) ∷ []) }
{
    let Some(value) = board.exchange(place, 0, None) else {
        unreachable!()
    };
    value
}

/// Puts the value into the slot.
pub(crate) fn put_in<V: Turned>(board: &Board<V>, place: &mut Place<V>, value: V)
    requires table { IsAt board.now.table_id place.old }
    requires empty { place.old.me.1 ≡ (0, None) ∷ [] }
    ensures same { IsSamePlace place.old place.new }
    ensures full { place.new.me ≡ (place.old.me.0, (0, Some value) ∷ []) }
{
    let before = board.exchange(place, 0, Some(value));
    let None = before else { unreachable!() };
}

/// Gives the slot back and passes the turn on.
pub(crate) fn pass<V: Turned>(board: &Board<V>, place: &mut Place<V>)
    requires table { IsAt board.now.table_id place.old }
    requires leaving { IsLeaving V.opening V.history V.number place.old.me }
    ensures same { IsSamePlace place.old place.new }
    ensures passed { Passes V.history place.old.me place.new.me }
{
    board.fetch_add::<Passing<V>>(place, 0, 1);
}

/// Makes a seat that has seen what this one has, and has no number.
pub(crate) fn split<V: Turned>(board: &Board<V>, place: &mut Place<V>) -> Place<V>
    requires table { IsAt board.now.table_id place.old }
    ensures same { IsSamePlace place.old place.new × (place.new.me ≡ place.old.me) }
    ensures table { IsAt board.now.table_id result }
    ensures seat { result.me ≡ (seated_from place.old.me.0, []) }
{
    board.split_seat::<Splitting>(place)
}

/// Takes the number after `before`, if that was the last one taken.
pub(crate) fn try_number<V: Turned>(board: &Board<V>, place: &mut Place<V>, before: u32) -> bool
    requires table { IsAt board.now.table_id place.old }
    requires free { (place.old.me.0.phase ≡ Idle) × (place.old.me.0.mark.number ≡ 0) }
    requires room { before < board.now.key.seats }
    ensures same { IsSamePlace place.old place.new }
    ensures taken { OnTrue result (place.new.me ≡ (numbered_with place.old.me.0 (before + 1), place.old.me.1)) }
    ensures missed { OnFalse result (place.new.me ≡ place.old.me) }
{
    let last = u64::from(before);
    board.compare_exchange::<Numbering>(place, 2, last, last + 1) == last
}

/// Takes in another seat.
pub(crate) fn join<V: Turned>(board: &Board<V>, place: &mut Place<V>, other: Place<V>)
    requires table { IsAt board.now.table_id place.old × IsAt board.now.table_id other }
    requires idle { (place.old.me.0.phase ≡ Idle) × (other.me.0.phase ≡ Idle) }
    requires empty { other.me.1 ≡ [] }
    ensures same { IsSamePlace place.old place.new }
    ensures both { place.new.me ≡ (joined place.old.me.0 other.me.0, place.old.me.1) }
{
    board.join_seat::<Joining>(place, other);
}
