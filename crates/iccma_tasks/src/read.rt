//! Reading the text of an answer.

ghost use Rattle.std.specs.Prelude.{◌≡◌, ◌↔◌, ◌⊎◌, ℕ, false, ◌∷◌, codes, map, IfOk, IfErr, IfSome};
ghost use Rattle.std.specs.Prelude.{IfNone, IsTrue};
ghost use Rattle.std.specs.List.Sorted.{IsStrictlyIncreasing};
ghost use Rattle.iccma_tasks.specs.AnswerText.{ReadsAs, IsFaultOf, filled_fields, IsToldOf, SpellsArgument};
ghost use Rattle.iccma_tasks.specs.AnswerText.{AreArguments, AreRisingArguments, LineStands};
ghost use Rattle.iccma_tasks.specs.AnswerText.{is_w_line, is_word_line};
ghost use Rattle.num_text.specs.Cuts.{field_texts};
ghost use Rattle.num_text.specs.Lines.{are_skipped};
ghost use Rattle.iccma_tasks.specs.AnswerSteps.{FaultsAt, NumbersStand, Continues, GoesOn};
ghost use Rattle.iccma_tasks.specs.AnswerSteps.{is_open_behind, takes_set};

use crate::answer::Answer;
use crate::fault::{AnswerCause, AnswerFault};
use lists::Items;
use num_text::{Fields, Line, decimal, fields, is_skipped, lines};
use semantics::is_argument;
use set_lists::NumSet;
use std::alloc::Global;

// The number of an argument that the bytes spell.
fn argument(bytes: &[u8]) -> Option<u32>
    ensures number { IfSome result (SpellsArgument bytes.now) }
    ensures none { IfNone result ((n : ℕ) → ¬ SpellsArgument bytes.now n) }
{
    let number = decimal(bytes)?;
    if !is_argument(number) {
        return None;
    }
    Some(number)
}

// Whether each number is below the next.
fn rises(numbers: &[u32]) -> bool
    ensures { IsTrue result ↔ IsStrictlyIncreasing numbers.now }
{
    for index in 1..numbers.len() {
        if numbers[index] <= numbers[index - 1] {
            return false;
        }
    }
    true
}

// The numbers that the fields spell.
fn arguments(alloc: Global, line: usize, fields: Fields<'_>) -> Result<Vec<u32>, AnswerFault>
    ensures numbers { IfOk result (λ numbers. AreArguments (map (λ f. f.text) fields.entry) numbers.items) }
    ensures fault { IfErr result (FaultsAt line (NumbersStand (map (λ f. f.text) fields.entry))) }
{
    let mut numbers = Vec::new(alloc);
    for field in fields {
        let Some(number) = argument(field.text) else {
            return Err(AnswerFault::At {
                line,
                cause: AnswerCause::BadNumber,
            });
        };
        numbers.push(number)?;
    }
    Ok(numbers)
}

/// The set whose rising numbers from 1 to `semantics::MAX_ARGUMENT` the fields spell, as those after the `w` of a
/// set's line.
///
/// `At` tells the line of this number: `BadNumber` where some field is no such number, else `NotRising` where the numbers
/// don't rise.
pub fn set_of(alloc: Global, line: usize, fields: Fields<'_>) -> Result<NumSet, AnswerFault>
    ensures set { IfOk result (AreRisingArguments (map (λ f. f.text) fields.entry)) }
    ensures fault { IfErr result (FaultsAt line (NumbersStand (map (λ f. f.text) fields.entry))) }
{
    let numbers = arguments(alloc, line, fields)?;
    if !rises(numbers.as_slice()) {
        return Err(AnswerFault::At {
            line,
            cause: AnswerCause::NotRising,
        });
    }
    Ok(NumSet::from_rising(alloc, numbers.as_slice())?)
}

// The fault of a line that has no open form.
fn bad_line(line: usize) -> AnswerFault
    ensures { result ≡ AnswerFault.At line AnswerCause.BadLine }
{
    AnswerFault::At {
        line,
        cause: AnswerCause::BadLine,
    }
}

// The answer of a word that stands alone.
fn word_alone(first: &[u8], mut rest: Fields<'_>) -> Option<Answer>
    ensures answer { IfSome result (Continues None (first.now ∷ map (λ f. f.text) rest.entry)) }
    ensures none { IfNone result (is_word_line (first.now ∷ map (λ f. f.text) rest.entry) ≡ false) }
    ensures some { IfSome result (λ _. is_w_line (first.now ∷ map (λ f. f.text) rest.entry) ≡ false) }
{
    if rest.next().is_some() {
        return None;
    }
    if first == b"YES".as_slice() {
        return Some(Answer::Yes(None));
    }
    if first == b"NO".as_slice() {
        return Some(Answer::No(None));
    }
    None
}

// The answer that goes on by the line of a set.
fn with_set(
    alloc: Global,
    line: usize,
    before: Option<Answer>,
    fields: Fields<'_>,
) -> Result<Answer, AnswerFault>
    ensures answer { IfOk result (Continues before (codes "w" ∷ map (λ f. f.text) fields.entry)) }
    ensures fault { IfErr result (FaultsAt line
        (LineStands (takes_set before) (codes "w" ∷ map (λ f. f.text) fields.entry))) }
{
    match before {
        None => {
            let mut sets = Items::new(alloc);
            sets.push(set_of(alloc, line, fields)?)?;
            Ok(Answer::Sets(sets))
        }
        Some(Answer::Sets(mut sets)) => {
            sets.push(set_of(alloc, line, fields)?)?;
            Ok(Answer::Sets(sets))
        }
        Some(Answer::Yes(None)) => Ok(Answer::Yes(Some(set_of(alloc, line, fields)?))),
        Some(Answer::No(None)) => Ok(Answer::No(Some(set_of(alloc, line, fields)?))),
        Some(Answer::Yes(Some(_)) | Answer::No(Some(_))) => Err(bad_line(line)),
    }
}

// The answer that goes on by a line with this first field and these further ones.
fn with_line(
    alloc: Global,
    line: usize,
    before: Option<Answer>,
    first: &[u8],
    rest: Fields<'_>,
) -> Result<Answer, AnswerFault>
    ensures answer { IfOk result (Continues before (first.now ∷ map (λ f. f.text) rest.entry)) }
    ensures fault { IfErr result (FaultsAt line (λ cause. LineStands
        (is_open_behind before (first.now ∷ map (λ f. f.text) rest.entry))
        (first.now ∷ map (λ f. f.text) rest.entry) cause)) }
{
    if first == b"w".as_slice() {
        return with_set(alloc, line, before, rest);
    }
    if before.is_some() {
        return Err(bad_line(line));
    }
    word_alone(first, rest).ok_or(bad_line(line))
}

// The answer, or nothing, that goes on by any line. A skipped one leaves it as it is.
fn with_any_line(
    alloc: Global,
    before: Option<Answer>,
    line: &Line<'_>,
) -> Result<Option<Answer>, AnswerFault>
    ensures answer { IfOk result (GoesOn before (field_texts line.now.text.now)) }
    ensures fault { IfErr result (FaultsAt line.now.number (λ cause.
        (are_skipped (field_texts line.now.text.now) ≡ false)
        × LineStands (is_open_behind before (field_texts line.now.text.now))
        (field_texts line.now.text.now) cause)) }
{
    let mut rest = fields(line);
    let Some(first) = rest.next() else {
        return Ok(before);
    };
    if is_skipped(line) {
        return Ok(before);
    }
    Ok(Some(with_line(alloc, line.number, before, first.text, rest)?))
}

// The answer that the lines of the bytes read as.
fn read_lines(alloc: Global, bytes: &[u8]) -> Result<Answer, AnswerFault>
    ensures answer { IfOk result (ReadsAs (filled_fields bytes.now)) }
    ensures fault { IfErr result (IsToldOf bytes.now) }
{
    let mut count = 0;
    let mut answer = None;
    for line in lines(bytes) {
        count = line.number;
        answer = match with_any_line(alloc, answer, &line) {
            Ok(after) => after,
            Err(fault) => return Err(fault),
        };
    }
    let Some(answer) = answer else {
        return Err(AnswerFault::At {
            line: count + 1,
            cause: AnswerCause::Empty,
        });
    };
    Ok(answer)
}

/// Reads the text of an answer. A line that has no field, or whose first field begins with `#`, is
/// skipped wherever it stands. The others are `YES` or `NO` alone, or followed by one line `w NUMBERS`; or
/// they are one line `w NUMBERS` or more. Numbers are from 1 to
/// `semantics::MAX_ARGUMENT` and rise within their line.
///
/// Of the faults the one of the first line that has one is told, and of several at that line the first in
/// the order of `AnswerCause`.
pub fn read_answer(alloc: Global, bytes: &[u8]) -> Result<Answer, AnswerFault>
    ensures answer { IfOk result (ReadsAs (filled_fields bytes.now)) }
    ensures read { (answer : Answer) → ReadsAs (filled_fields bytes.now) answer
        → (result ≡ Ok answer) ⊎ (result ≡ Err AnswerFault.Memory) }
    ensures fault { IfErr result (IsToldOf bytes.now) }
    ensures told { (line : ℕ) (cause : AnswerCause) → IsFaultOf bytes.now line cause
        → (result ≡ Err (AnswerFault.At line cause)) ⊎ (result ≡ Err AnswerFault.Memory) }
{
    read_lines(alloc, bytes)
}
