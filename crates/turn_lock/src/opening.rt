//! How a lock is opened.

ghost use Rattle.std.specs.Prelude.{◌≡◌, ◌+◌, ◌^◌, ◌<◌, [], IfOk};
ghost use Rattle.turn_lock.specs.Turns.{first_view, numbered_with};
ghost use Rattle.turn_lock.specs.Locks.{IsAt, IsSamePlace, opened_with, seats_of, table_of};
ghost use Rattle.turn_lock.specs.Seats.{AreFresh, IsFresh, number_of};
ghost use Rattle.turn_lock.specs.declared.board.Phase.TheVariants.{Idle};

use crate::board::{About, Board, Place, Turned};
use crate::lock::TurnLock;
use crate::seat::Seat;
use crate::steps::{split, try_number};
use atomic_table::Table;
use crossbeam_utils::Backoff;
use lists::Memory;
use std::alloc::Global;
use std::snapshot::Snapshot;
use std::sync::Wait;

/// A lock, and a seat without a number from which the others are made.
fn lock_of<V: Turned + Drop>(
    alloc: Global,
    value: V,
    n: u32,
) -> Result<(TurnLock<V>, Place<V>), Memory>
    requires some { 0 < n }
    requires empty { V.history value ≡ [] }
    ensures value { IfOk result (λ made. opened_with made.0 ≡ value) }
    ensures seats { IfOk result (λ made. seats_of made.0 ≡ n) }
    ensures root { IfOk result
        (λ made. IsAt (table_of made.0) made.1 × (made.1.me ≡ (first_view (V.opening value), []))) }
{
    let about = About {
        value: Snapshot::of(&value),
        seats: u64::from(n),
    };
    let mut slots = Vec::new(alloc);
    slots.push(Some(value))?;
    let Ok((table, root)) = Table::new(alloc, &[0, 0, 0], slots, &about) else {
        return Err(Memory);
    };
    Ok((TurnLock { table }, root))
}

/// Takes the number after `before`, once that is the last one taken.
fn take_number<V: Turned, R: Wait>(rt: &R, board: &Board<V>, place: &mut Place<V>, before: u32)
    requires table { IsAt board.now.table_id place.old }
    requires free { (place.old.me.0.phase ≡ Idle) × (place.old.me.0.mark.number ≡ 0) }
    requires room { before < board.now.key.seats }
    ensures same { IsSamePlace place.old place.new }
    ensures taken { place.new.me ≡ (numbered_with place.old.me.0 (before + 1), place.old.me.1) }
{
    let backoff = Backoff::new();
    for _ in rt.forever() {
        if try_number(board, place, before) {
            return;
        }
        backoff.snooze();
    }
    unreachable!()
}

/// The seat with the number after `before`.
fn new_seat<V: Turned, R: Wait>(
    rt: &R,
    lock: &TurnLock<V>,
    root: &mut Place<V>,
    before: u32,
) -> Seat<V>
    requires table { IsAt (table_of lock.now) root.old }
    requires root { root.old.me ≡ (first_view (V.opening (opened_with lock.now)), []) }
    requires room { before < seats_of lock.now }
    requires small { before + 1 < 2 ^ 32 }
    ensures same { IsSamePlace root.old root.new × (root.new.me ≡ root.old.me) }
    ensures fresh { IsFresh V.opening lock.now result }
    ensures number { number_of result ≡ before + 1 }
{
    let board = &lock.table.shared;
    let mut place = split(board, root);
    take_number(rt, board, &mut place, before);
    Seat {
        place,
        number: before + 1,
        seen: 0,
    }
}

impl<V: Turned + Drop> TurnLock<V> {
    /// Opens a lock round a value whose history is empty, with the seats 1 to n. `Err` comes only for want of memory;
    /// then the value is dropped.
    #[tactic(auto, using(crate::proofs::ClosingLaws::none_fresh))]
    pub fn open<R: Wait>(
        rt: &R,
        alloc: Global,
        value: V,
        n: u32,
    ) -> Result<(TurnLock<V>, Vec<Seat<V>>), Memory>
        requires some { 0 < n }
        requires empty { V.history value ≡ [] }
        ensures value { IfOk result (λ opened. opened_with opened.0 ≡ value) }
        ensures count { IfOk result (λ opened. seats_of opened.0 ≡ n) }
        ensures seats { IfOk result (λ opened. AreFresh V.opening opened.0 n opened.1.items) }
    {
        let (lock, mut root) = lock_of(alloc, value, n)?;
        let mut seats = Vec::new(alloc);
        for before in 0..n {
            seats.push(new_seat(rt, &lock, &mut root, before))?;
        }
        Ok((lock, seats))
    }
}
