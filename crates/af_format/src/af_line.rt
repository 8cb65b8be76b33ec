//! What a line behind the header says.

ghost use Rattle.std.specs.Prelude.{◌≡◌, ℕ, ◌≤◌, ◌<◌, ◌∷◌, [], List, IfOk, IfErr, IfSome, IfNone, codes, ◌⊎◌};
ghost use Rattle.std.specs.Bool.{OnTrue, OnFalse};
ghost use Rattle.num_text.specs.Cuts.{field_texts};
ghost use Rattle.num_text.specs.Numerals.{IsReadNumber};
ghost use Rattle.af_format.specs.AfText.{SpellsArgument, IsAttackLine};
ghost use Rattle.af_format.specs.Causes.{IsFirstCause};
ghost use Rattle.af_format.specs.Faults.{StandsOnAttack};

use crate::fault::LineCause;
use num_text::{Line, NumberField, fields};

/// The most attack lines that a framework's text may have.
pub const MAX_ATTACK_LINES: usize = 10_000_000;

/// The attack that a line tells, where so many attack lines stand before it.
#[inline(always)]
pub(crate) fn attack_of(line: &Line<'_>, count: u32, index: usize) -> Result<(u32, u32), LineCause>
    ensures ok { IfOk result (IsAttackLine count line.now.text.now) }
    ensures few { IfOk result (λ _. index < MAX_ATTACK_LINES) }
    ensures err { IfErr result (IsFirstCause (StandsOnAttack count index (field_texts line.now.text.now))) }
{
    let (first, second) = two_fields(line, count, index)?;
    let Some(attacker) = first.number else {
        return Err(LineCause::BadNumber);
    };
    let Some(target) = second.number else {
        return Err(LineCause::BadNumber);
    };
    if !is_argument(attacker, count) || !is_argument(target, count) {
        return Err(LineCause::OutOfRange);
    }
    if index >= MAX_ATTACK_LINES {
        return Err(LineCause::TooManyLines);
    }
    Ok((attacker, target))
}

// Whether the number is from 1 to n.
fn is_argument(number: u32, count: u32) -> bool
    ensures inside { OnTrue result ((1 ≤ number) × (number ≤ count)) }
    ensures outside { OnFalse result ((number < 1) ⊎ (count < number)) }
{
    1 <= number && number <= count
}

// The two fields of an attack line, with the numbers that they spell.
#[inline(always)]
fn two_fields<'a>(
    line: &Line<'a>,
    count: u32,
    index: usize,
) -> Result<(NumberField<'a>, NumberField<'a>), LineCause>
    ensures ok { IfOk result (λ p. field_texts line.now.text.now ≡ p.0.text.now ∷ p.1.text.now ∷ []) }
    ensures first { IfOk result (λ p. IsReadNumber p.0.text.now p.0.number) }
    ensures second { IfOk result (λ p. IsReadNumber p.1.text.now p.1.number) }
    ensures not_p { IfOk result (λ p. ¬ (p.0.text.now ≡ codes "p")) }
    ensures err { IfErr result (IsFirstCause (StandsOnAttack count index (field_texts line.now.text.now))) }
{
    let mut parts = fields(line);
    let first = parts.next_number().ok_or(LineCause::BadLine)?;
    if first.text == "p".as_bytes() {
        return Err(LineCause::SecondHeader);
    }
    let second = parts.next_number().ok_or(LineCause::BadLine)?;
    if parts.next().is_some() {
        return Err(LineCause::BadLine);
    }
    Ok((first, second))
}
