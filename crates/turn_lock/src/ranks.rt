//! What a seat tells of itself.

ghost use Rattle.std.specs.Prelude.{◌≡◌, length};
ghost use Rattle.turn_lock.specs.Seats.{number_of, list_of};

use crate::board::Turned;
use crate::seat::Seat;

impl<V: Turned> Seat<V> {
    /// The seat's number, from 1 to the number of seats.
    pub fn number(&self) -> u32
        ensures { result ≡ number_of self.now }
    {
        self.number
    }

    /// How long the history was that the seat saw last.
    pub fn seen(&self) -> u64
        ensures { result ≡ length (list_of self.now) }
    {
        self.seen
    }
}
