//! What lies under the lock, and the table of words that threads share.
//! Word 0 is `serving`, the ticket whose turn it is; word 1 is `ticket`, the next one to be drawn; word 2 is `made`,
//! how many seats have a number. The one slot holds the value, and `None` while a seat has it.

ghost use Rattle.std.specs.Prelude.{◌≡◌, ℕ, List, length};

use atomic_table::{Seat, Shared, TableRule};
use std::collections::LinkedList;
use std::marker::PhantomData;
use std::snapshot::Snapshot;

/// A value with a history, which a turn of the lock may continue.
pub trait Turned {
    /// What no turn changes.
    type Opening;
    /// One step of the history.
    type Entry;

    ghost opening: { Self → Self.Opening };

    ghost history: { Self → List Self.Entry };

    // The number of the seat whose entry it is.
    ghost number: { Self.Entry → ℕ };

    /// How many entries the history has.
    fn entries(&self) -> u64
        ensures { result ≡ length (history self.now) };
}

/// What one number has seen: the turns up to its last one, and the history then. No value of it is made, so its
/// numbers are without a bound.
pub struct Mark<E> {
    pub number: u64,
    pub turns: u64,
    pub list: LinkedList<E>,
}

/// Where a seat stands. No value of it is made.
pub enum Phase<E> {
    Idle,
    /// It has a ticket.
    Drawn(u64),
    /// It has the value, whose history was this when it came.
    Entered(LinkedList<E>),
}

/// What a seat knows. No value of it is made.
pub struct View<O, E> {
    pub phase: Phase<E>,
    pub mark: Mark<E>,
    /// None once the seat is spent.
    pub opening: Option<O>,
    /// The marks of the seats that it took in.
    pub ended: LinkedList<Mark<E>>,
}

/// What is fixed when the lock is made.
#[derive(Drop)]
pub struct About<V> {
    pub value: Snapshot<V>,
    pub seats: u64,
}

/// The rule of the table.
pub struct Law<V> {
    of: PhantomData<V>,
}

impl<V: Turned> TableRule<Option<V>, View<V::Opening, V::Entry>, About<V>> for Law<V> {
    ghost use Rattle.turn_lock.specs.Turns.{Ruled, first_view};

    ghost holds = { λ about. Ruled V.opening V.history V.number about.seats };

    ghost first = { λ about. first_view (V.opening about.value.value) };
}

/// The table as threads share it.
pub type Board<V> = Shared<
    Option<V>,
    View<<V as Turned>::Opening, <V as Turned>::Entry>,
    About<V>,
    Law<V>,
>;

/// A seat at the table.
pub type Place<V> = Seat<Option<V>, View<<V as Turned>::Opening, <V as Turned>::Entry>>;
