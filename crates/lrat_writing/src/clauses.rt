//! Writing the clauses of a log.

ghost use Rattle.std.specs.Prelude.{◌≡◌, ◌<◌, ◌≤◌, ◌+◌, ◌*◌, ◌++◌, length, drop, OnOk};
ghost use Rattle.std.specs.List.{flat_map};
ghost use Rattle.lrat_writing.specs.declared.clauses.TheConstants.{AT_ONCE, LITERAL_BYTES, NUMBER_BYTES};
ghost use Rattle.lrat_writing.specs.Pieces.{literal_piece, number_piece, clause_piece, unit_piece, kind_count};
ghost use Rattle.lrat_writing.specs.Walks.{cnf_clauses, given_clauses};

use hinted_log::{Log, StepKind};
use itoa::write_digits;
use lists::Memory;
use plain_lits::{Lit, PackedLit, StepId};

/// How many numbers are added to a text at once.
pub(crate) const AT_ONCE: usize = 16;

/// The bytes that a number of 64 bits takes at most: its digits, and a blank.
pub(crate) const NUMBER_BYTES: usize = 21;

/// The bytes that a literal takes at most: a number's, and its sign.
const LITERAL_BYTES: usize = 22;

/// Writes a number and a blank, which end at a place, and gives where they begin. `write!` takes three times as long,
/// and most of a text is numbers: these are written from the last to the first, and added many at once.
pub(crate) fn write_number(piece: &mut [u8], number: u64, end: usize) -> usize
    requires room { NUMBER_BYTES ≤ end }
    requires within { end ≤ length piece.old }
    ensures written { drop result piece.new ≡ number_piece number ++ drop end piece.old }
    ensures few { end ≤ result + NUMBER_BYTES }
    ensures before { result ≤ end }
{
    let blank = end - 1;
    piece[blank] = b' ';
    write_digits(number, piece, blank)
}

// Writes a literal and a blank, which end at a place, and gives where they begin. Variables of a log begin at 0, those
// of a text at 1.
fn write_literal(piece: &mut [u8], lit: Lit, end: usize) -> usize
    requires var { lit.var < 2147483648 }
    requires room { LITERAL_BYTES ≤ end }
    requires within { end ≤ length piece.old }
    ensures written { drop result piece.new ≡ literal_piece lit ++ drop end piece.old }
    ensures few { end ≤ result + LITERAL_BYTES }
    ensures before { result ≤ end }
{
    let start = write_number(piece, lit.var as u64 + 1, end);
    if lit.positive {
        return start;
    }
    let sign = start - 1;
    piece[sign] = b'-';
    sign
}

// Writes the literals of a clause at the end of a piece, with a blank behind each, and gives where they begin.
fn write_literals(piece: &mut [u8], clause: &[PackedLit]) -> usize
    requires { length clause.now * LITERAL_BYTES ≤ length piece.old }
    ensures written { drop result piece.new ≡ flat_map literal_piece clause.now }
    ensures within { result ≤ length piece.old }
{
    let mut start = piece.len();
    let mut left = clause.len();
    while left > 0 {
        left -= 1;
        start = write_literal(piece, clause[left].lit(), start);
    }
    start
}

/// Adds a number and a blank.
pub(crate) fn push_number(text: &mut Vec<u8>, number: u64) -> Result<(), Memory>
    ensures { OnOk result (text.new.items ≡ text.old.items ++ number_piece number) }
{
    let mut piece = [b' '; NUMBER_BYTES];
    let start = write_number(&mut piece, number, NUMBER_BYTES);
    text.extend_from_slice(&piece[start..])?;
    Ok(())
}

// Adds a literal and a blank.
fn push_literal(text: &mut Vec<u8>, lit: Lit) -> Result<(), Memory>
    requires { lit.var < 2147483648 }
    ensures { OnOk result (text.new.items ≡ text.old.items ++ literal_piece lit) }
{
    let mut piece = [b' '; LITERAL_BYTES];
    let start = write_literal(&mut piece, lit, LITERAL_BYTES);
    text.extend_from_slice(&piece[start..])?;
    Ok(())
}

// Adds a few literals, with a blank behind each.
fn push_few_literals(text: &mut Vec<u8>, clause: &[PackedLit]) -> Result<(), Memory>
    requires { length clause.now ≤ AT_ONCE }
    ensures { OnOk result (text.new.items ≡ text.old.items ++ flat_map literal_piece clause.now) }
{
    let mut piece = [b' '; AT_ONCE * LITERAL_BYTES];
    let start = write_literals(&mut piece, clause);
    text.extend_from_slice(&piece[start..])?;
    Ok(())
}

/// Adds the literals of a clause, with a blank behind each.
pub(crate) fn push_literals(text: &mut Vec<u8>, clause: &[PackedLit]) -> Result<(), Memory>
    ensures { OnOk result (text.new.items ≡ text.old.items ++ flat_map literal_piece clause.now) }
{
    let mut from = 0;
    while from < clause.len() {
        let to = from + AT_ONCE.min(clause.len() - from);
        push_few_literals(text, &clause[from..to])?;
        from = to;
    }
    Ok(())
}

/// Adds the line of a clause.
pub(crate) fn push_clause(text: &mut Vec<u8>, clause: &[PackedLit]) -> Result<(), Memory>
    ensures { OnOk result (text.new.items ≡ text.old.items ++ clause_piece clause.now) }
{
    push_literals(text, clause)?;
    text.extend_from_slice(b"0\n")?;
    Ok(())
}

/// Adds a line for the negation of each literal of a clause.
pub(crate) fn push_units(text: &mut Vec<u8>, clause: &[PackedLit]) -> Result<(), Memory>
    ensures { OnOk result (text.new.items ≡ text.old.items ++ flat_map unit_piece clause.now) }
{
    for packed in clause {
        push_literal(text, !packed.lit())?;
        text.extend_from_slice(b"0\n")?;
    }
    Ok(())
}

// How many clauses a step of a kind gives.
fn kind_count(kind: StepKind) -> usize
    ensures count { result ≡ kind_count kind }
    ensures few { result ≤ 1 }
{
    match kind {
        StepKind::Axiom => 1,
        StepKind::Side => 1,
        StepKind::Derived => 0,
    }
}

// How many steps of a log are given.
fn given_count(log: &Log) -> usize
    ensures count { result ≡ length (given_clauses log.now.steps) }
    ensures few { result ≤ length log.now.steps }
{
    let mut count = 0;
    for index in 0..log.len() {
        count += kind_count(log.kind(StepId::new(index as u32 + 1)));
    }
    count
}

/// How many clauses the CNF has that stands for a log.
pub(crate) fn clause_count(log: &Log) -> usize
    requires { 0 < length log.now.steps }
    ensures count { result ≡ length (cnf_clauses log.now.steps) }
    ensures few { result < 9223372036854775808 }
{
    let last = log.clause(StepId::new(log.len() as u32));
    given_count(log) + last.len()
}
