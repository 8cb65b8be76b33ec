//! A seat at the lock, and the value while a seat has it.

ghost use Rattle.std.specs.Prelude.{◌≡◌, ◌<◌, [], length};

use crate::board::{Place, Turned};

/// One user of a lock. It has the history that it last saw, as contracts name it, and a ticket while it waits. A lock
/// is closed with all its seats, so one that was dropped leaves it open for good.
#[derive(Drop)]
pub struct Seat<V: Turned> {
    pub(crate) place: Place<V>,
    pub(crate) number: u32,
    pub(crate) seen: u64,
    ghost numbered: { (place.me.0.mark.number ≡ number) × (0 < number) },
    ghost lone: { place.me.0.ended ≡ [] },
    ghost known: { seen ≡ length place.me.0.mark.list },
}

/// The value, out with the seat whose turn it is. Give it back by `leave`.
pub struct Held<V> {
    /// The value.
    pub value: V,
}
