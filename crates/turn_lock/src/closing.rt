//! How a lock is closed.

ghost use Rattle.std.specs.Prelude.{◌≡◌, ◌<◌, [], length};
ghost use Rattle.turn_lock.specs.Locks.{IsAt, table_of};
ghost use Rattle.turn_lock.specs.Seats.{AreAllSeats, Ends, IsGathering};

use crate::board::{Place, Turned};
use crate::lock::TurnLock;
use crate::seat::Seat;
use crate::steps::join;

/// One seat that took in all the others.
#[tactic(auto, using(crate::proofs::ClosingLaws::some_seat, crate::proofs::ClosingLaws::gathers_first, crate::proofs::ClosingLaws::gathers_more,))]
fn gather<V: Turned>(lock: &TurnLock<V>, seats: Vec<Seat<V>>) -> Place<V>
    requires all { AreAllSeats V.opening lock.now seats.items }
    ensures table { IsAt (table_of lock.now) result }
    ensures gathered { IsGathering V.opening lock.now seats.items [] result.me.0 }
{
    let mut left = seats;
    let Some(last) = left.pop() else {
        unreachable!()
    };
    let Seat {
        mut place,
        number: _,
        seen: _,
    } = last;
    while let Some(seat) = left.pop() {
        let Seat {
            place: other,
            number: _,
            seen: _,
        } = seat;
        join(&lock.table.shared, &mut place, other);
    }
    left.destroy_empty();
    place
}

impl<V: Turned> TurnLock<V> {
    /// Closes the lock, given all its seats in the order of their numbers, and gives the value. It takes no memory and
    /// doesn't wait.
    pub fn close(self, seats: Vec<Seat<V>>) -> V
        requires all { AreAllSeats V.opening self seats.items }
        ensures ends { Ends V.opening V.history V.number self seats.items result }
    {
        let place = gather(&self, seats);
        let TurnLock { table } = self;
        let mut closed = table.close_with(place);
        let slot = closed.take(0);
        closed.free();
        let Some(value) = slot else { unreachable!() };
        value
    }
}
