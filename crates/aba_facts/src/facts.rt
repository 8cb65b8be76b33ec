//! The values that an assumption-based framework alone fixes.

ghost use Rattle.std.specs.Prelude.{◌↔◌, IfNone, IfSome, IsTrue};
ghost use Rattle.meaning_atoms.specs.AbaReadings.{HasNoContrary, HasNoHead};
ghost use Rattle.meaning_atoms.specs.Worlds.{IsAbaFact};
ghost use Rattle.semantics.specs.Frameworks.{aba};
ghost use Rattle.af_axioms.specs.Facts.{IsFactValue};

use crate::cuts::{first_from, is_clear, numbers_below};
use crate::rule_parts::{has_body_atom, has_body_gap, has_head};
use aba_notions::AbaPlain;
use meaning_atoms::Atom;

/// Whether an atom is true, where the framework alone fixes it: `Asm`, `Con`, `ConGap`, `Head`, `HGap`, `Body` and `BGap`.
/// None at each other atom, a side clause's number among them. It takes no memory, and time logarithmic in the framework.
pub fn fact(plain: &AbaPlain, atom: &Atom) -> Option<bool>
    ensures some { IfSome result (IsFactValue (aba plain.now) atom.now) }
    ensures none { IfNone result (¬ IsAbaFact atom.now) }
{
    match *atom {
        Atom::Asm(a) => Some(plain.assumptions().contains(a)),
        Atom::Con(a, c) => Some(plain.has_contrary(a, c)),
        Atom::ConGap(a, i, j) => Some(has_no_contrary(plain, a, i, j)),
        Atom::Head(r, h) => Some(has_head(plain, r, h)),
        Atom::HGap(h, i, j) => Some(has_no_head(plain, h, i, j)),
        Atom::Body(r, x) => Some(has_body_atom(plain, r, x)),
        Atom::BGap(r, i, j) => Some(has_body_gap(plain, r, i, j)),
        _ => None,
    }
}

/// Whether an atom is an assumption that has no contrary from `begin` to just before `end`.
fn has_no_contrary(plain: &AbaPlain, atom: u32, begin: u32, end: u32) -> bool
    ensures { IsTrue result ↔ HasNoContrary plain.now atom begin end }
{
    if !plain.assumptions().contains(atom) {
        return false;
    }
    is_clear(plain.contraries_of(atom), begin, end)
}

/// Whether no rule that heads an atom has a number from `begin` to just before `end`.
fn has_no_head(plain: &AbaPlain, head: u32, begin: u32, end: u32) -> bool
    ensures { IsTrue result ↔ HasNoHead plain.now head begin end }
{
    let numbers = plain.rule_numbers();
    let first = numbers_below(numbers, begin);
    match first_from(plain.headed_by(head), first as u32) {
        Some(index) => end <= numbers[index as usize],
        None => true,
    }
}
