//! Why an edit is refused: of the refusals of its row, the first that stands.

ghost use Rattle.std.specs.Prelude.{◌≡◌, ◌∷◌, map};
ghost use Rattle.edit_rules.specs.Numbers.{has_number};
ghost use Rattle.edit_rules.specs.Pairs.{has_pair};
ghost use Rattle.edit_rules.specs.Refusals.{done_unless};
ghost use Rattle.edit_rules.specs.AbaEdits.{beyond, heads_of, numbers_of};
ghost use Rattle.edit_rules.specs.AbaEdits.{assumption_added, assumption_dropped, pair_refusals};
ghost use Rattle.edit_rules.specs.AbaEdits.{contrary_added, contrary_dropped, rule_added, rule_dropped};

use crate::EditFault;
use aba_notions::AbaPlain;
use semantics::MAX_RULE;

/// Whether a number lies outside its range.
fn is_beyond(low: u32, high: u32, number: u32) -> bool
    ensures { result ≡ (beyond low high number).stands }
{
    !(low <= number && number <= high)
}

/// Whether an atom is an assumption.
fn is_assumption(plain: &AbaPlain, atom: u32) -> bool
    ensures { result ≡ has_number plain.now.assumptions atom }
{
    plain.assumptions().contains(atom)
}

/// Whether the second atom is a contrary of the first.
fn is_contrary(plain: &AbaPlain, atom: u32, contrary: u32) -> bool
    ensures { result ≡ has_pair plain.now.contraries (atom, contrary) }
{
    plain.has_contrary(atom, contrary)
}

/// Whether an atom heads a rule.
fn is_head(plain: &AbaPlain, atom: u32) -> bool
    ensures { result ≡ has_number (heads_of plain.now.rules) atom }
{
    !plain.headed_by(atom).is_empty()
}

/// Whether a rule has the number.
fn is_rule(plain: &AbaPlain, number: u32) -> bool
    ensures { result ≡ has_number (numbers_of plain.now.rules) number }
{
    plain.rule_numbers().binary_search(&number).is_ok()
}

/// Refuses to make an atom an assumption with this contrary.
pub(crate) fn check_assumption(
    plain: &AbaPlain,
    assumption: u32,
    contrary: u32,
) -> Result<(), EditFault>
    ensures { result ≡ done_unless (assumption_added plain.now assumption contrary).refusals tt }
{
    if is_beyond(1, plain.atoms(), assumption) {
        return Err(EditFault::OutOfRange(assumption));
    }
    if is_beyond(0, plain.atoms(), contrary) {
        return Err(EditFault::OutOfRange(contrary));
    }
    if is_assumption(plain, assumption) {
        return Err(EditFault::AssumptionIsThere);
    }
    if is_head(plain, assumption) {
        return Err(EditFault::NotFlat(assumption));
    }
    Ok(())
}

/// Refuses to make an assumption one no longer.
pub(crate) fn check_drop(plain: &AbaPlain, assumption: u32) -> Result<(), EditFault>
    ensures { result ≡ done_unless (assumption_dropped plain.now assumption).refusals tt }
{
    if is_beyond(1, plain.atoms(), assumption) {
        return Err(EditFault::OutOfRange(assumption));
    }
    if !is_assumption(plain, assumption) {
        return Err(EditFault::UnknownAssumption(assumption));
    }
    Ok(())
}

/// Refuses an assumption that is none, and numbers of which one is no atom. The contrary's may begin lower.
pub(crate) fn check_pair(
    plain: &AbaPlain,
    low: u32,
    assumption: u32,
    contrary: u32,
) -> Result<(), EditFault>
    ensures { result ≡ done_unless (pair_refusals low plain.now assumption contrary) tt }
{
    if is_beyond(1, plain.atoms(), assumption) {
        return Err(EditFault::OutOfRange(assumption));
    }
    if is_beyond(low, plain.atoms(), contrary) {
        return Err(EditFault::OutOfRange(contrary));
    }
    if !is_assumption(plain, assumption) {
        return Err(EditFault::UnknownAssumption(assumption));
    }
    Ok(())
}

/// Refuses to give an assumption this contrary more.
pub(crate) fn check_contrary_add(
    plain: &AbaPlain,
    assumption: u32,
    contrary: u32,
) -> Result<(), EditFault>
    ensures { result ≡ done_unless (contrary_added plain.now assumption contrary).refusals tt }
{
    check_pair(plain, 1, assumption, contrary)?;
    if is_contrary(plain, assumption, contrary) {
        return Err(EditFault::ContraryIsThere);
    }
    Ok(())
}

/// Refuses to take this contrary of an assumption away.
pub(crate) fn check_contrary_drop(
    plain: &AbaPlain,
    assumption: u32,
    contrary: u32,
) -> Result<(), EditFault>
    ensures { result ≡ done_unless (contrary_dropped plain.now assumption contrary).refusals tt }
{
    check_pair(plain, 1, assumption, contrary)?;
    if !is_contrary(plain, assumption, contrary) {
        return Err(EditFault::NoSuchContrary);
    }
    Ok(())
}

/// Refuses the first of the numbers that is no atom.
fn check_atoms(atoms: u32, numbers: &[u32]) -> Result<(), EditFault>
    ensures { result ≡ done_unless (map (beyond 1 atoms) numbers.now) tt }
{
    for number in numbers {
        if is_beyond(1, atoms, *number) {
            return Err(EditFault::OutOfRange(*number));
        }
    }
    Ok(())
}

/// Refuses the first of a rule's numbers that is no atom: its head, then the numbers of its body as they are given.
fn check_numbers(atoms: u32, head: u32, body: &[u32]) -> Result<(), EditFault>
    ensures { result ≡ done_unless (map (beyond 1 atoms) (head ∷ body.now)) tt }
{
    if is_beyond(1, atoms, head) {
        return Err(EditFault::OutOfRange(head));
    }
    check_atoms(atoms, body)
}

/// Refuses to add a rule.
pub(crate) fn check_rule(plain: &AbaPlain, head: u32, body: &[u32]) -> Result<(), EditFault>
    ensures { result ≡ done_unless (rule_added plain.now head body.now).refusals tt }
{
    check_numbers(plain.atoms(), head, body)?;
    if is_assumption(plain, head) {
        return Err(EditFault::NotFlat(head));
    }
    if MAX_RULE < plain.next() {
        return Err(EditFault::OutOfRange(MAX_RULE + 1));
    }
    Ok(())
}

/// Refuses to take away the rule of a number.
pub(crate) fn check_rule_drop(plain: &AbaPlain, number: u32) -> Result<(), EditFault>
    ensures { result ≡ done_unless (rule_dropped plain.now number).refusals tt }
{
    if is_beyond(1, MAX_RULE, number) {
        return Err(EditFault::OutOfRange(number));
    }
    if !is_rule(plain, number) {
        return Err(EditFault::NoSuchRule(number));
    }
    Ok(())
}
