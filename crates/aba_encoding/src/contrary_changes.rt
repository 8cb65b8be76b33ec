//! The axioms that an edit of an assumption's contraries calls for.

ghost use Rattle.std.specs.Prelude.{◌≡◌, ◌≢◌, ◌↔◌, ◌<◌, ◌≤◌, ◌+◌, ◌-◌, Contains, IsTrue, OnOk, length, slice_index};
ghost use Rattle.oracle_face.specs.Walks.{IsWalkEnd, IsWalkStep};
ghost use Rattle.aba_encoding.specs.Listing.{Gains, only_if};
ghost use Rattle.aba_encoding.specs.Brought.{AreAtoms, GainsBrought};
ghost use Rattle.aba_encoding.specs.Brought.{by_contrary_added, by_contrary_gone, by_contrary_past, by_contrary_set};

use crate::needed_axioms::push_all;
use crate::places::{contrary_after, place_before_contrary};
use aba_notions::AbaPlain;
use lists::Memory;
use meaning_atoms::AbaAxiom::{B9Con, B12, B13, B18, B19};
use meaning_atoms::Closure::{Own, Rest};
use meaning_atoms::{AbaAxiom, AxiomName};
use std::alloc::Global;

/// Adds the axioms of the only contrary of an assumption, or of none where it is 0, with those of the walk along it,
/// but for those that the contraries which the assumption had before called for.
pub(crate) fn push_set(
    alloc: Global,
    names: &mut Vec<AxiomName>,
    assumption: u32,
    contrary: u32,
    gone: &[u32],
) -> Result<(), Memory>
    requires atoms { AreAtoms gone.now }
    requires high { contrary < 1000001 }
    ensures { OnOk result (GainsBrought (by_contrary_set assumption contrary gone.now)
        names.old.items names.new.items) }
{
    let (a, c) = (assumption, contrary);
    push_if(
        alloc,
        names,
        is_new_contrary(c, gone),
        &[B9Con(a, c), B12(a, c), B13(a, c)],
    )?;
    push_if(
        alloc,
        names,
        is_new_step(c, gone),
        &[B18(Own, a, 1, c), B18(Rest, a, 1, c)],
    )?;
    push_if(
        alloc,
        names,
        is_new_end(c, gone),
        &[B19(Own, a, c + 1), B19(Rest, a, c + 1)],
    )?;
    Ok(())
}

/// Adds axioms if a condition holds.
fn push_if(
    alloc: Global,
    names: &mut Vec<AxiomName>,
    condition: bool,
    added: &[AbaAxiom],
) -> Result<(), Memory>
    ensures { OnOk result (Gains (only_if condition added.now) names.old.items names.new.items) }
{
    if condition {
        return push_all(alloc, names, added);
    }
    Ok(())
}

/// Whether a contrary, where it is none if it is 0, is not among those before.
fn is_new_contrary(contrary: u32, gone: &[u32]) -> bool
    requires { AreAtoms gone.now }
    ensures { IsTrue result ↔ ((contrary ≢ 0) × ¬ Contains gone.now contrary) }
{
    if contrary == 0 {
        return false;
    }
    !has_number(gone, contrary)
}

/// Whether the walk along a contrary, where it is none if it is 0, begins otherwise than that along those before.
fn is_new_step(contrary: u32, gone: &[u32]) -> bool
    requires { AreAtoms gone.now }
    ensures { IsTrue result ↔ ((contrary ≢ 0) × ¬ IsWalkStep (Contains gone.now) 1 contrary) }
{
    if contrary == 0 {
        return false;
    }
    first_of(gone) != contrary
}

/// Whether the walk along a contrary, where it is none if it is 0, ends elsewhere than that along those before.
fn is_new_end(contrary: u32, gone: &[u32]) -> bool
    requires { AreAtoms gone.now }
    ensures { IsTrue result ↔ ¬ IsWalkEnd (Contains gone.now) (contrary + 1) }
{
    last_of(gone) != contrary
}

/// Adds the axioms of a contrary that came, of the step to it, and of the step past it or of the end.
pub(crate) fn push_added(
    alloc: Global,
    plain: &AbaPlain,
    names: &mut Vec<AxiomName>,
    assumption: u32,
    contrary: u32,
) -> Result<(), Memory>
    requires low { 1 ≤ contrary }
    requires high { contrary < 1000001 }
    ensures { OnOk result (GainsBrought (by_contrary_added plain.now assumption contrary)
        names.old.items names.new.items) }
{
    let _next = plain.next();
    let (a, c) = (assumption, contrary);
    let start = place_before_contrary(plain, a, c);
    push_all(
        alloc,
        names,
        &[
            B9Con(a, c),
            B12(a, c),
            B13(a, c),
            B18(Own, a, start, c),
            B18(Rest, a, start, c),
        ],
    )?;
    push_past(alloc, plain, names, a, c, c + 1)
}

/// Adds the axioms of the step past a contrary that went, or of the end.
pub(crate) fn push_gone(
    alloc: Global,
    plain: &AbaPlain,
    names: &mut Vec<AxiomName>,
    assumption: u32,
    contrary: u32,
) -> Result<(), Memory>
    requires low { 1 ≤ contrary }
    requires high { contrary < 1000001 }
    ensures { OnOk result (GainsBrought (by_contrary_gone plain.now assumption contrary)
        names.old.items names.new.items) }
{
    let _next = plain.next();
    let start = place_before_contrary(plain, assumption, contrary);
    push_past(alloc, plain, names, assumption, contrary, start)
}

/// Adds the axioms of the step from a place to the first contrary past a number, on the walk along the contraries of an
/// assumption, or of the walk's end where none is past it.
fn push_past(
    alloc: Global,
    plain: &AbaPlain,
    names: &mut Vec<AxiomName>,
    assumption: u32,
    contrary: u32,
    place: u32,
) -> Result<(), Memory>
    requires { contrary < 1000001 }
    ensures { OnOk result (GainsBrought (by_contrary_past plain.now assumption contrary (λ i. i ≡ place))
        names.old.items names.new.items) }
{
    let _next = plain.next();
    let a = assumption;
    match contrary_after(plain, a, contrary) {
        Some(next) => push_all(
            alloc,
            names,
            &[B18(Own, a, place, next), B18(Rest, a, place, next)],
        ),
        None => push_all(alloc, names, &[B19(Own, a, place), B19(Rest, a, place)]),
    }
}

/// Whether rising numbers have this one.
fn has_number(numbers: &[u32], number: u32) -> bool
    requires { AreAtoms numbers.now }
    ensures { IsTrue result ↔ Contains numbers.now number }
{
    numbers.binary_search(&number).is_ok()
}

/// The first of some numbers, and 0 where there is none.
fn first_of(numbers: &[u32]) -> u32
    ensures { result ≡ slice_index numbers.now 0 }
{
    if numbers.is_empty() {
        return 0;
    }
    numbers[0]
}

/// The last of some numbers, and 0 where there is none.
fn last_of(numbers: &[u32]) -> u32
    ensures { result ≡ slice_index numbers.now (length numbers.now - 1) }
{
    if numbers.is_empty() {
        return 0;
    }
    numbers[numbers.len() - 1]
}
