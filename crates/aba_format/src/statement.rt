//! What a single line says.

ghost use Rattle.std.specs.Prelude.{◌≡◌, ◌↔◌, ◌∷◌, [], ◌⊎◌, ℕ, ◌≤◌, ◌<◌, IfOk, IfErr, OnOk, IsTrue, List, map, codes, All};
ghost use Rattle.std.specs.List.{AllZip};
ghost use Rattle.num_text.specs.Cuts.{FieldText, field_texts};
ghost use Rattle.num_text.specs.Number.{IsNumber};
ghost use Rattle.num_text.specs.Numerals.{IsReadNumber};
ghost use Rattle.semantics.specs.AbaFrameworks.{IsAtom};
ghost use Rattle.af_format.specs.Causes.{IsFirstCause};
ghost use Rattle.aba_format.specs.AbaText.{SaysLine, SpellsAtom};
ghost use Rattle.aba_format.specs.Faults.{StandsOnFields};
ghost use Rattle.aba_format.specs.Reading.{IfCause, IsBadBody, texts_of, said_by};

use crate::stop::LineStop;
use af_format::LineCause;
use num_text::{Fields, Line, NumberField, fields};

/// What a line says; the body of a rule stands apart.
#[derive(Clone, Copy, PartialEq, Eq)]
pub(crate) enum Statement {
    /// An assumption.
    Assumption(u32),
    /// An atom and a contrary of it.
    Contrary(u32, u32),
    /// A rule with this head.
    Rule(u32),
}

/// What the line says. The body of a rule is put into `body`, which is left with anything where the line is no rule's.
pub(crate) fn statement_of(
    line: &Line<'_>,
    count: u32,
    body: &mut Vec<u32>,
) -> Result<Statement, LineStop>
    ensures ok { IfOk result (λ statement. SaysLine count line.now.text.now (said_by statement body.new.items)) }
    ensures err { IfErr result (λ stop. IfCause stop
        (IsFirstCause (StandsOnFields count (field_texts line.now.text.now)))) }
{
    let mut parts = fields(line);
    let word = parts.next().ok_or(LineCause::BadLine)?;
    match word.text {
        b"p" => Err(LineStop::Cause(LineCause::SecondHeader)),
        b"a" => Ok(Statement::Assumption(assumption_of(parts, count)?)),
        b"c" => {
            let (x, y) = contrary_of(parts, count)?;
            Ok(Statement::Contrary(x, y))
        }
        b"r" => Ok(Statement::Rule(rule_of(parts, count, body)?)),
        _ => Err(LineStop::Cause(LineCause::BadLine)),
    }
}

// The atom that the fields behind an `a` spell.
fn assumption_of(parts: Fields<'_>, count: u32) -> Result<u32, LineCause>
    ensures ok { IfOk result (λ x. AllZip (SpellsAtom count) (texts_of parts.entry) (x ∷ [])) }
    ensures err { IfErr result (IsFirstCause (StandsOnFields count (codes "a" ∷ texts_of parts.entry))) }
{
    let field = one_field(parts, count)?;
    let Some(x) = field.number else {
        return Err(LineCause::BadNumber);
    };
    if !is_atom(x, count) {
        return Err(LineCause::OutOfRange);
    }
    Ok(x)
}

// The one field behind an `a`.
fn one_field<'a>(mut parts: Fields<'a>, count: u32) -> Result<NumberField<'a>, LineCause>
    ensures ok { IfOk result (λ field. texts_of parts.entry ≡ field.text.now ∷ []) }
    ensures number { IfOk result (λ field. IsReadNumber field.text.now field.number) }
    ensures err { IfErr result (IsFirstCause (StandsOnFields count (codes "a" ∷ texts_of parts.entry))) }
{
    let field = parts.next_number().ok_or(LineCause::BadLine)?;
    if parts.next().is_some() {
        return Err(LineCause::BadLine);
    }
    Ok(field)
}

// The atom and the contrary that the fields behind a `c` spell.
fn contrary_of(parts: Fields<'_>, count: u32) -> Result<(u32, u32), LineCause>
    ensures ok { IfOk result (λ p. AllZip (SpellsAtom count) (texts_of parts.entry) (p.0 ∷ p.1 ∷ [])) }
    ensures err { IfErr result (IsFirstCause (StandsOnFields count (codes "c" ∷ texts_of parts.entry))) }
{
    let (first, second) = two_fields(parts, count)?;
    let Some(x) = first.number else {
        return Err(LineCause::BadNumber);
    };
    let Some(y) = second.number else {
        return Err(LineCause::BadNumber);
    };
    if !is_atom(x, count) || !is_atom(y, count) {
        return Err(LineCause::OutOfRange);
    }
    Ok((x, y))
}

// The two fields behind a `c`.
fn two_fields<'a>(
    mut parts: Fields<'a>,
    count: u32,
) -> Result<(NumberField<'a>, NumberField<'a>), LineCause>
    ensures ok { IfOk result (λ p. texts_of parts.entry ≡ p.0.text.now ∷ p.1.text.now ∷ []) }
    ensures first { IfOk result (λ p. IsReadNumber p.0.text.now p.0.number) }
    ensures second { IfOk result (λ p. IsReadNumber p.1.text.now p.1.number) }
    ensures err { IfErr result (IsFirstCause (StandsOnFields count (codes "c" ∷ texts_of parts.entry))) }
{
    let first = parts.next_number().ok_or(LineCause::BadLine)?;
    let second = parts.next_number().ok_or(LineCause::BadLine)?;
    if parts.next().is_some() {
        return Err(LineCause::BadLine);
    }
    Ok((first, second))
}

// The head that the first of the fields behind an `r` spells; the atoms of the body are put into `body`.
fn rule_of(mut parts: Fields<'_>, count: u32, body: &mut Vec<u32>) -> Result<u32, LineStop>
    ensures ok { IfOk result (λ head. AllZip (SpellsAtom count) (texts_of parts.entry) (head ∷ body.new.items)) }
    ensures err { IfErr result (λ stop. IfCause stop
        (IsFirstCause (StandsOnFields count (codes "r" ∷ texts_of parts.entry)))) }
{
    let Some(head) = parts.next_number() else {
        return Err(LineStop::Cause(LineCause::BadLine));
    };
    read_numbers(parts, body)?;
    let Some(number) = head.number else {
        return Err(LineStop::Cause(LineCause::BadNumber));
    };
    if !has_atoms(number, body.as_slice(), count) {
        return Err(LineStop::Cause(LineCause::OutOfRange));
    }
    Ok(number)
}

// Whether head and body of a rule are from 1 to n.
fn has_atoms(head: u32, body: &[u32], count: u32) -> bool
    ensures { IsTrue result ↔ (IsAtom count head × All (IsAtom count) body.now) }
{
    is_atom(head, count) && are_atoms(body, count)
}

// Puts the numbers that the fields spell into `numbers`.
fn read_numbers(mut parts: Fields<'_>, numbers: &mut Vec<u32>) -> Result<(), LineStop>
    ensures ok { OnOk result (AllZip IsNumber (texts_of parts.entry) numbers.new.items) }
    ensures err { IfErr result (λ stop. IfCause stop (IsBadBody (texts_of parts.entry))) }
{
    numbers.clear();
    while let Some(field) = parts.next_number() {
        let Some(number) = field.number else {
            return Err(LineStop::Cause(LineCause::BadNumber));
        };
        numbers.push(number)?;
    }
    Ok(())
}

// Whether all numbers are from 1 to n.
fn are_atoms(numbers: &[u32], count: u32) -> bool
    ensures { IsTrue result ↔ All (IsAtom count) numbers.now }
{
    numbers.iter().all(|number| is_atom(*number, count))
}

// Whether the number is from 1 to n.
fn is_atom(number: u32, count: u32) -> bool
    ensures { IsTrue result ↔ IsAtom count number }
{
    1 <= number && number <= count
}
