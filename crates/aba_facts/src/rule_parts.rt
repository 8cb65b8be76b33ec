//! What a rule of some number has.

ghost use Rattle.std.specs.Prelude.{◌≡◌, ◌↔◌, Contains, IfNone, IfSome, IsTrue};
ghost use Rattle.semantics.specs.AbaFrameworks.{IsNumberedAba};
ghost use Rattle.semantics.specs.Rules.{Rule as ARule};
ghost use Rattle.meaning_atoms.specs.AbaReadings.{HasBodyAtom, HasBodyGap, HasHead};
ghost use Rattle.aba_facts.specs.Cuts.{IsRuleAt};

use crate::cuts::{has_second, is_clear, numbers_below};
use aba_notions::AbaPlain;

/// Whether the rule of a number is there and heads an atom.
pub(crate) fn has_head(plain: &AbaPlain, number: u32, head: u32) -> bool
    ensures { IsTrue result ↔ HasHead plain.now number head }
{
    match index_of(plain, number) {
        Some(index) => plain.rule_heads()[index as usize] == head,
        None => false,
    }
}

/// Whether the rule of a number is there and has an atom in its body.
pub(crate) fn has_body_atom(plain: &AbaPlain, number: u32, atom: u32) -> bool
    ensures { IsTrue result ↔ HasBodyAtom plain.now number atom }
{
    match index_of(plain, number) {
        Some(index) => has_second(plain.body_of(index), atom),
        None => false,
    }
}

/// Whether the rule of a number is there and no atom of its body has a number from `begin` to just before `end`.
pub(crate) fn has_body_gap(plain: &AbaPlain, number: u32, begin: u32, end: u32) -> bool
    ensures { IsTrue result ↔ HasBodyGap plain.now number begin end }
{
    match index_of(plain, number) {
        Some(index) => is_clear(plain.body_of(index), begin, end),
        None => false,
    }
}

/// The index of the rule of a number.
fn index_of(plain: &AbaPlain, number: u32) -> Option<u32>
    ensures some { IfSome result (λ index. IsRuleAt plain.now index number) }
    ensures none { IfNone result ((r : ARule) → Contains plain.now.rules r → r.number ≡ number → ⊥) }
    ensures form { IsNumberedAba plain.now }
{
    let numbers = plain.rule_numbers();
    let index = numbers_below(numbers, number);
    if index >= numbers.len() {
        return None;
    }
    if numbers[index] != number {
        return None;
    }
    Some(index as u32)
}
