//! Seats take turns at a lock.

ghost use Rattle.std.specs.Prelude.{◌≡◌, ◌<◌, ◌∷◌, ◌++◌, [], All, OnOk, OnErr, map};
ghost use Rattle.std.specs.Thread.{IsSync};
ghost use Rattle.turn_lock.specs.Seats.{MayEnter, number_of};

use lists::Memory;
use std::alloc::Global;
use std::sync::Wait;
use std::test::Fail;
use std::thread::{Threads, join_mut};
use turn_lock::{Seat, TurnLock, Turned};

/// What a seat wrote.
#[derive(Drop, PartialEq, Eq)]
struct Note {
    seat: u32,
    word: u32,
}

/// The notes under a title.
#[derive(Drop)]
struct Notes {
    title: u32,
    notes: Vec<Note>,
}

impl Turned for Notes {
    type Opening = u32;

    type Entry = Note;

    ghost opening = { λ n. n.title };

    ghost history = { λ n. n.notes.items };

    ghost number = { λ note. note.seat };

    fn entries(&self) -> u64 {
        self.notes.len() as u64
    }
}

impl Notes {
    /// Adds a note. After `Err` the notes are as before.
    fn write(&mut self, seat: u32, word: u32) -> Result<(), Memory>
        ensures title { self.new.title ≡ self.old.title }
        ensures ok { OnOk result (self.new.notes.items ≡ self.old.notes.items ++ record { seat = seat; word = word } ∷ []) }
        ensures err { OnErr result (self.new.notes.items ≡ self.old.notes.items) }
    {
        self.notes.push(Note { seat, word })?;
        Ok(())
    }
}

/// One turn, at which the seat writes a word.
fn write_once<R: Wait>(rt: &R, lock: &TurnLock<Notes>, seat: &mut Seat<Notes>, word: u32) -> bool
    requires { MayEnter (λ n. n.title) lock.now seat.old }
    ensures { MayEnter (λ n. n.title) lock.now seat.new × (number_of seat.new ≡ number_of seat.old) }
{
    let mut held = lock.enter(rt, seat);
    let written = held.value.write(seat.number(), word);
    lock.leave(seat, held);
    written.is_ok()
}

/// Each seat writes its number a hundred times, in a thread of its own; whether all was written.
fn write_all<R: Threads + Wait + Sync>(
    rt: &R,
    lock: &TurnLock<Notes>,
    seats: &mut [Seat<Notes>],
) -> bool
    requires { All (MayEnter (λ n. n.title) lock.now) seats.old }
    ensures { All (MayEnter (λ n. n.title) lock.now) seats.new × (map number_of seats.new ≡ map number_of seats.old) }
{
    let Some((first, rest)) = seats.split_first_mut() else {
        return true;
    };
    let (one, others) = join_mut(
        rt,
        &mut ||
            requires { MayEnter (λ n. n.title) lock.now first.now }
            ensures { MayEnter (λ n. n.title) lock.entry.now first.exit.now
                × (number_of first.exit.now ≡ number_of first.entry.now) }
        { write_often(rt, lock, first) },
        &mut ||
            requires sync { IsSync R.row }
            requires seats { All (MayEnter (λ n. n.title) lock.now) rest.now }
            ensures { All (MayEnter (λ n. n.title) lock.entry.now) rest.exit.now
                × (map number_of rest.exit.now ≡ map number_of rest.entry.now) }
        { write_all(rt, lock, rest) },
    );
    one && others
}

/// How often a seat wrote its number.
fn notes_of(notes: &[Note], seat: u32) -> usize {
    notes
        .iter()
        .filter(|note| note.seat == seat && note.word == seat)
        .count()
}

/// The notes that the seats 1 to n write, each in a thread of its own.
fn notes_made<R: Threads + Wait + Sync>(rt: &R, alloc: Global, n: u32) -> Result<Notes, Fail>
    requires { 0 < n }
{
    let empty = Notes {
        title: 7,
        notes: Vec::new(alloc),
    };
    let (lock, mut seats) = TurnLock::open(rt, alloc, empty, n)?;
    let done = write_all(rt, &lock, seats.as_mut_slice());
    let notes = lock.close(seats);
    if done {
        return Ok(notes);
    }
    Err("not all was written")?
}

#[test]
fn one_seat_or_two(rt: HostRuntime) -> Result<(), Fail> {
    let alone = notes_made(&rt, rt.alloc(), 1)?;
    assert!(rt; notes_of(&alone.notes, 1) == 100);
    let both = notes_made(&rt, rt.alloc(), 2)?;
    assert!(rt; both.title == 7);
    assert!(rt; both.notes.len() == 200);
    assert!(rt; notes_of(&both.notes, 1) == 100);
    assert!(rt; notes_of(&both.notes, 2) == 100);
    Ok(())
}

/// Writes the seat's number a hundred times, a turn for each; whether all was written.
fn write_often<R: Wait>(rt: &R, lock: &TurnLock<Notes>, seat: &mut Seat<Notes>) -> bool
    requires { MayEnter (λ n. n.title) lock.now seat.old }
    ensures { MayEnter (λ n. n.title) lock.now seat.new × (number_of seat.new ≡ number_of seat.old) }
{
    let mut written = true;
    for _ in 0..100u32 {
        let word = seat.number();
        written = write_once(rt, lock, seat, word) && written;
    }
    written
}
