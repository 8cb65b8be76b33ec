//! Where a number stands among those of the rules that head an atom, and an atom among the contraries of another.

ghost use Rattle.std.specs.Prelude.{◌≡◌, ◌<◌, ◌≤◌, ◌↔◌, IfNone, IfSome, length, slice_index};
ghost use Rattle.meaning_atoms.specs.AbaReadings.{HasContrary};
ghost use Rattle.edit_rules.specs.AbaEdits.{contraries_of};
ghost use Rattle.oracle_face.specs.AbaNeeded.{Heads};
ghost use Rattle.aba_encoding.specs.Listing.{heading};
ghost use Rattle.semantics.specs.AbaFrameworks.{IsNumberedAba};
ghost use Rattle.aba_encoding.specs.Places.{HasNoneAfter, IsCutAt, IsNextAfter, IsPlaceBefore};

use aba_notions::AbaPlain;

/// How many of the rules that head an atom have a number below this one.
fn rules_below(plain: &AbaPlain, atom: u32, number: u32) -> usize
    ensures bound { result ≤ length (heading plain.now atom) }
    ensures cut { IsCutAt number (heading plain.now atom) result }
{
    let index = plain
        .rule_numbers()
        .partition_point(|other| *other < number);
    let headed = plain.headed_by(atom);
    headed.partition_point(|pair| (pair.1 as usize) < index)
}

/// The number of the rule that heads an atom and has so many such rules before it.
fn number_at(plain: &AbaPlain, atom: u32, index: usize) -> u32
    requires { index < length (heading plain.now atom) }
    ensures { result ≡ slice_index (heading plain.now atom) index }
{
    plain.rule_numbers()[plain.headed_by(atom)[index].1 as usize]
}

/// The place from which the walk along the rules that head an atom comes to a number.
pub(crate) fn place_before(plain: &AbaPlain, atom: u32, number: u32) -> u32
    requires { 1 ≤ number }
    ensures { IsPlaceBefore (Heads plain.now atom) number result }
{
    let _next = plain.next();
    let before = rules_below(plain, atom, number);
    if before == 0 {
        return 1;
    }
    number_at(plain, atom, before - 1) + 1
}

/// The first number past this one of a rule that heads an atom.
pub(crate) fn next_after(plain: &AbaPlain, atom: u32, number: u32) -> Option<u32>
    requires { number < 1000001 }
    ensures some { IfSome result (IsNextAfter (Heads plain.now atom) number) }
    ensures none { IfNone result (HasNoneAfter (Heads plain.now atom) number) }
{
    let _next = plain.next();
    let first = rules_below(plain, atom, number + 1);
    if first == plain.headed_by(atom).len() {
        return None;
    }
    Some(number_at(plain, atom, first))
}

/// How many contraries of an atom are below this one.
fn contraries_below(plain: &AbaPlain, atom: u32, contrary: u32) -> usize
    ensures bound { result ≤ length (contraries_of plain.now.contraries atom) }
    ensures cut { IsCutAt contrary (contraries_of plain.now.contraries atom) result }
{
    plain
        .contraries_of(atom)
        .partition_point(|pair| pair.1 < contrary)
}

/// The contrary of an atom that has so many contraries before it.
fn contrary_at(plain: &AbaPlain, atom: u32, index: usize) -> u32
    requires { index < length (contraries_of plain.now.contraries atom) }
    ensures { result ≡ slice_index (contraries_of plain.now.contraries atom) index }
{
    plain.contraries_of(atom)[index].1
}

/// The place from which the walk along the contraries of an atom comes to a number.
pub(crate) fn place_before_contrary(plain: &AbaPlain, atom: u32, number: u32) -> u32
    requires { 1 ≤ number }
    ensures { IsPlaceBefore (HasContrary plain.now atom) number result }
{
    let _next = plain.next();
    let before = contraries_below(plain, atom, number);
    if before == 0 {
        return 1;
    }
    contrary_at(plain, atom, before - 1) + 1
}

/// The first contrary of an atom past a number.
pub(crate) fn contrary_after(plain: &AbaPlain, atom: u32, number: u32) -> Option<u32>
    requires { number < 1000001 }
    ensures some { IfSome result (IsNextAfter (HasContrary plain.now atom) number) }
    ensures none { IfNone result (HasNoneAfter (HasContrary plain.now atom) number) }
{
    let _next = plain.next();
    let first = contraries_below(plain, atom, number + 1);
    if first == plain.contraries_of(atom).len() {
        return None;
    }
    Some(contrary_at(plain, atom, first))
}
