//! What searches have in common: the front, which is assumed on a level of its own and is kept from one to the next.

ghost use Rattle.std.specs.Prelude.{◌≡◌, ◌≤◌, length, take, Contains};
ghost use Rattle.std.specs.Bool.{OnTrue, OnFalse};
ghost use Rattle.plain_lits.specs.declared.lit.Lit.{Lit};
ghost use Rattle.plain_lits.specs.Literals.{negation};

use plain_lits::{Lit, Value};
use unit_propagate::Propagator;

/// How many literals two lists begin with alike.
pub(crate) fn common_len(first: &[Lit], second: &[Lit]) -> usize
    ensures first { result ≤ length first.now }
    ensures second { result ≤ length second.now }
    ensures same { take result first.now ≡ take result second.now }
{
    for index in 0..first.len() {
        if index >= second.len() {
            return index;
        }
        if first[index] != second[index] {
            return index;
        }
    }
    first.len()
}

/// Whether a list begins with all literals of a front.
pub(crate) fn begins_with(lits: &[Lit], front: &[Lit]) -> bool
    ensures { OnTrue result ((l : Lit) → Contains front.now l → Contains lits.now l) }
{
    common_len(front, lits) == front.len()
}

/// How many assumptions the front of a search should have: those with which the last front began too, if these are
/// nearly all, and else all, so that the next search finds how many it has in common.
pub(crate) fn size_of_front(front: &[Lit], assumptions: &[Lit]) -> usize
    ensures { result ≤ length assumptions.now }
{
    let common = common_len(front, assumptions);
    if common < assumptions.len() - assumptions.len() / 8 {
        return assumptions.len();
    }
    common
}

/// Whether a literal is false.
pub(crate) fn has_false(search: &Propagator, lits: &[Lit]) -> bool
    ensures { OnFalse result ((l : Lit) → Contains lits.now l → Contains search.now.lits (negation l) → ⊥) }
{
    for lit in lits {
        match search.value(*lit) {
            Value::False => return true,
            _ => {}
        }
    }
    false
}
