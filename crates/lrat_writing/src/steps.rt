//! Writing the lines of derived steps.

ghost use Rattle.std.specs.Prelude.{◌≡◌, ◌<◌, ◌≤◌, ◌*◌, ◌++◌, ◌∷◌, [], length, drop, map, OnOk};
ghost use Rattle.std.specs.List.{flat_map, range_with_len};
ghost use Rattle.lrat_text.specs.Checking.{step_line};
ghost use Rattle.lrat_writing.specs.declared.clauses.TheConstants.{AT_ONCE, NUMBER_BYTES};
ghost use Rattle.lrat_writing.specs.Texts.{step_text};
ghost use Rattle.lrat_writing.specs.Pieces.{number_piece};
ghost use Rattle.lrat_writing.specs.Walks.{id_in, shifted_clause};

use crate::clauses::{AT_ONCE, NUMBER_BYTES, push_literals, push_number, write_number};
use lists::Memory;
use plain_lits::{PackedLit, StepId};

/// The id of the step of a number, or 0 where none is written.
pub(crate) fn id_of(ids: &[u64], number: usize) -> u64
    ensures { result ≡ id_in ids.now number }
{
    let index = number.saturating_sub(1);
    if index < ids.len() {
        return ids[index];
    }
    0
}

// Writes the ids of steps at the end of a piece, with a blank behind each, and gives where they begin.
fn write_hints(piece: &mut [u8], ids: &[u64], hints: &[StepId]) -> usize
    requires { length hints.now * NUMBER_BYTES ≤ length piece.old }
    ensures written { drop result piece.new ≡ flat_map (λ h. number_piece (id_in ids.now h)) hints.now }
    ensures within { result ≤ length piece.old }
{
    let mut start = piece.len();
    let mut left = hints.len();
    while left > 0 {
        left -= 1;
        start = write_number(piece, id_of(ids, hints[left].number() as usize), start);
    }
    start
}

// Adds the ids of a few steps, with a blank behind each.
fn push_few_hints(text: &mut Vec<u8>, ids: &[u64], hints: &[StepId]) -> Result<(), Memory>
    requires { length hints.now ≤ AT_ONCE }
    ensures { OnOk result (text.new.items
        ≡ text.old.items ++ flat_map (λ h. number_piece (id_in ids.now h)) hints.now) }
{
    let mut piece = [b' '; AT_ONCE * NUMBER_BYTES];
    let start = write_hints(&mut piece, ids, hints);
    text.extend_from_slice(&piece[start..])?;
    Ok(())
}

// Adds the ids of steps, with a blank behind each.
fn push_hints(text: &mut Vec<u8>, ids: &[u64], hints: &[StepId]) -> Result<(), Memory>
    ensures { OnOk result (text.new.items
        ≡ text.old.items ++ flat_map (λ h. number_piece (id_in ids.now h)) hints.now) }
{
    let mut from = 0;
    while from < hints.len() {
        let to = from + AT_ONCE.min(hints.len() - from);
        push_few_hints(text, ids, &hints[from..to])?;
        from = to;
    }
    Ok(())
}

/// Adds the line of a clause that follows by hints.
pub(crate) fn push_line(
    text: &mut Vec<u8>,
    id: u64,
    clause: &[PackedLit],
    ids: &[u64],
    hints: &[StepId],
) -> Result<(), Memory>
    ensures { OnOk result (text.new.items ≡ text.old.items
        ++ step_text (step_line id (shifted_clause clause.now) (map (id_in ids.now) hints.now))) }
{
    push_number(text, id)?;
    push_literals(text, clause)?;
    text.extend_from_slice(b"0 ")?;
    push_hints(text, ids, hints)?;
    text.extend_from_slice(b"0\n")?;
    Ok(())
}

// Adds so many numbers from one on, with a blank behind each.
fn push_row(text: &mut Vec<u8>, first: u64, len: usize) -> Result<(), Memory>
    requires first { first < 9223372036854775808 }
    requires few { len < 9223372036854775808 }
    ensures { OnOk result (text.new.items ≡ text.old.items ++ flat_map number_piece (range_with_len first len)) }
{
    for index in 0..len {
        push_number(text, first + index as u64)?;
    }
    Ok(())
}

/// Adds the line without literals, whose hints are numbers in a row and one more.
pub(crate) fn push_final(
    text: &mut Vec<u8>,
    id: u64,
    first: u64,
    len: usize,
    last: u64,
) -> Result<(), Memory>
    requires first { first < 9223372036854775808 }
    requires few { len < 9223372036854775808 }
    ensures { OnOk result (text.new.items
        ≡ text.old.items ++ step_text (step_line id [] (range_with_len first len ++ last ∷ []))) }
{
    push_number(text, id)?;
    text.extend_from_slice(b"0 ")?;
    push_row(text, first, len)?;
    push_number(text, last)?;
    text.extend_from_slice(b"0\n")?;
    Ok(())
}
