//! A slow program that decides each notion from its words, by going through all sets of assumptions. Faster programs
//! are measured by it. With n assumptions it takes memory for 2 to the power n sets.

ghost use Rattle.std.specs.Prelude.{◌≡◌, ◌↔◌, ℕ, List, Contains, IfOk, IsTrue};
ghost use Rattle.lists.specs.Members.{IsWithin};
ghost use Rattle.semantics.specs.AbaFrameworks.{collective_of};
ghost use Rattle.semantics.specs.Collectives.{Defends, IsAdmissible, IsComplete, IsConflictFree, IsGrounded, IsIdeal, IsInAllPreferred, IsPreferred, IsStable};
ghost use Rattle.aba_laws.specs.declared.theories.Theory.{Theory};
ghost use Rattle.aba_laws.specs.Deciding.{AbaOf, Answers, HasAllTheories, HasContrary, HasNoLarger, HitsMember, HoldsInAll, IsHitBy, IsInComplete, IsInPreferred, IsOfNotion, IsTheory};

use crate::aba_lists::{AbaLists, contains, is_within};
use crate::theories::{Theory, theories, theory_of};
use lists::Memory;
use std::alloc::Global;

/// A notion of the argumentation semantics, which a set of assumptions meets or not.
#[derive(Clone, Copy, Drop)]
pub enum Notion {
    /// Assumptions, of which the set attacks none.
    ConflictFree,
    /// Conflict-free, and defends each member.
    Admissible,
    /// Admissible, and holds each assumption that it defends.
    Complete,
    /// The least complete set.
    Grounded,
    /// Admissible, and within no larger admissible set.
    Preferred,
    /// Conflict-free, and attacks each assumption outside it.
    Stable,
    /// Admissible, and part of every preferred set.
    InAllPreferred,
    /// The largest admissible set that is part of every preferred set.
    Ideal,
}

/// Whether the set meets the notion in the framework. `Memory` says that an allocation was refused.
pub fn decide(
    alloc: Global,
    framework: &AbaLists,
    set: &[u32],
    notion: Notion,
) -> Result<bool, Memory>
    ensures { IfOk result (λ meets. IsTrue meets ↔ IsOfNotion notion (AbaOf framework.now) set.now) }
{
    let all = theories(alloc, framework)?;
    let theory = theory_of(alloc, framework.rules, set)?;
    Ok(decide_among(framework, all.as_slice(), &theory, notion))
}

/// Whether a theory's set meets the notion.
fn decide_among(f: &AbaLists, all: &[Theory], s: &Theory, notion: Notion) -> bool
    requires all { HasAllTheories (AbaOf f.now) all.now }
    requires theory { IsTheory (AbaOf f.now) s.now }
    ensures { IsTrue result ↔ IsOfNotion notion (AbaOf f.now) s.now.set }
{
    match notion {
        Notion::ConflictFree => is_conflict_free(f, s),
        Notion::Admissible => is_admissible(f, all, s),
        Notion::Complete => is_complete(f, all, s),
        Notion::Grounded => is_grounded(f, all, s),
        Notion::Preferred => is_preferred(f, all, s),
        Notion::Stable => is_stable(f, s),
        Notion::InAllPreferred => is_in_all_preferred(f, all, s),
        Notion::Ideal => is_ideal(f, all, s),
    }
}

fn is_conflict_free(f: &AbaLists, s: &Theory) -> bool
    requires { IsTheory (AbaOf f.now) s.now }
    ensures { IsTrue result ↔ IsConflictFree (collective_of (AbaOf f.now)) s.now.set }
{
    is_within(s.set.as_slice(), f.assumptions) && !hits_member(f, s, s.set.as_slice())
}

fn is_admissible(f: &AbaLists, all: &[Theory], s: &Theory) -> bool
    requires all { HasAllTheories (AbaOf f.now) all.now }
    requires theory { IsTheory (AbaOf f.now) s.now }
    ensures { IsTrue result ↔ IsAdmissible (collective_of (AbaOf f.now)) s.now.set }
{
    is_conflict_free(f, s) && defends_members(f, all, s)
}

fn is_complete(f: &AbaLists, all: &[Theory], s: &Theory) -> bool
    requires all { HasAllTheories (AbaOf f.now) all.now }
    requires theory { IsTheory (AbaOf f.now) s.now }
    ensures { IsTrue result ↔ IsComplete (collective_of (AbaOf f.now)) s.now.set }
{
    is_admissible(f, all, s) && holds_defended(f, all, s)
}

fn is_grounded(f: &AbaLists, all: &[Theory], s: &Theory) -> bool
    requires all { HasAllTheories (AbaOf f.now) all.now }
    requires theory { IsTheory (AbaOf f.now) s.now }
    ensures { IsTrue result ↔ IsGrounded (collective_of (AbaOf f.now)) s.now.set }
{
    is_complete(f, all, s) && is_least(f, all, s)
}

fn is_preferred(f: &AbaLists, all: &[Theory], s: &Theory) -> bool
    requires all { HasAllTheories (AbaOf f.now) all.now }
    requires theory { IsTheory (AbaOf f.now) s.now }
    ensures { IsTrue result ↔ IsPreferred (collective_of (AbaOf f.now)) s.now.set }
{
    is_admissible(f, all, s) && is_maximal(f, all, s)
}

fn is_stable(f: &AbaLists, s: &Theory) -> bool
    requires { IsTheory (AbaOf f.now) s.now }
    ensures { IsTrue result ↔ IsStable (collective_of (AbaOf f.now)) s.now.set }
{
    is_conflict_free(f, s) && hits_others(f, s)
}

fn is_in_all_preferred(f: &AbaLists, all: &[Theory], s: &Theory) -> bool
    requires all { HasAllTheories (AbaOf f.now) all.now }
    requires theory { IsTheory (AbaOf f.now) s.now }
    ensures { IsTrue result ↔ IsInAllPreferred (collective_of (AbaOf f.now)) s.now.set }
{
    is_admissible(f, all, s) && is_in_each_preferred(f, all, s)
}

fn is_ideal(f: &AbaLists, all: &[Theory], s: &Theory) -> bool
    requires all { HasAllTheories (AbaOf f.now) all.now }
    requires theory { IsTheory (AbaOf f.now) s.now }
    ensures { IsTrue result ↔ IsIdeal (collective_of (AbaOf f.now)) s.now.set }
{
    is_in_all_preferred(f, all, s) && is_largest_in_all(f, all, s)
}

/// Whether the pair gives the number a contrary that the theory derives.
fn is_hit_by(s: &Theory, number: u32, contrary: (u32, u32)) -> bool
    ensures { IsTrue result ↔ IsHitBy s.now.derived number contrary }
{
    contrary.0 == number && contains(s.derived.as_slice(), contrary.1)
}

/// Whether the theory derives a contrary of a number.
fn hits(f: &AbaLists, s: &Theory, number: u32) -> bool
    ensures { IsTrue result ↔ HasContrary (AbaOf f.now) s.now.derived number }
{
    f.contraries
        .iter()
        .any(|contrary| is_hit_by(s, number, *contrary))
}

/// Whether the theory derives a contrary of some member.
fn hits_member(f: &AbaLists, s: &Theory, set: &[u32]) -> bool
    ensures { IsTrue result ↔ HitsMember (AbaOf f.now) s.now.derived set.now }
{
    set.iter().any(|member| hits(f, s, *member))
}

/// Whether the theory derives a contrary of a member of the other set, if that is one of assumptions and derives a
/// contrary of the number.
fn answers(f: &AbaLists, s: &Theory, number: u32, other: &Theory) -> bool
    ensures { IsTrue result ↔ Answers (AbaOf f.now) s.now.derived number other.now }
{
    if !is_within(other.set.as_slice(), f.assumptions) {
        return true;
    }
    if !hits(f, other, number) {
        return true;
    }
    hits_member(f, s, other.set.as_slice())
}

/// Whether the set attacks each set of assumptions that attacks the number.
fn defends(f: &AbaLists, all: &[Theory], s: &Theory, number: u32) -> bool
    requires all { HasAllTheories (AbaOf f.now) all.now }
    requires theory { IsTheory (AbaOf f.now) s.now }
    ensures { IsTrue result ↔ Defends (collective_of (AbaOf f.now)) s.now.set number }
{
    all.iter().all(|other| answers(f, s, number, other))
}

/// Whether the set defends each member.
fn defends_members(f: &AbaLists, all: &[Theory], s: &Theory) -> bool
    requires all { HasAllTheories (AbaOf f.now) all.now }
    requires theory { IsTheory (AbaOf f.now) s.now }
    ensures { IsTrue result ↔ ((a : ℕ) → Contains s.now.set a → Defends (collective_of (AbaOf f.now)) s.now.set a) }
{
    s.set
        .as_slice()
        .iter()
        .all(|member| defends(f, all, s, *member))
}

/// Whether an assumption is a member, if the set defends it.
fn holds_if_defended(f: &AbaLists, all: &[Theory], s: &Theory, number: u32) -> bool
    requires all { HasAllTheories (AbaOf f.now) all.now }
    requires theory { IsTheory (AbaOf f.now) s.now }
    ensures { IsTrue result ↔ (Defends (collective_of (AbaOf f.now)) s.now.set number → Contains s.now.set number) }
{
    contains(s.set.as_slice(), number) || !defends(f, all, s, number)
}

/// Whether the set holds each assumption that it defends.
fn holds_defended(f: &AbaLists, all: &[Theory], s: &Theory) -> bool
    requires all { HasAllTheories (AbaOf f.now) all.now }
    requires theory { IsTheory (AbaOf f.now) s.now }
    ensures { IsTrue result ↔ ((a : ℕ) → Contains f.now.assumptions.now a
        → Defends (collective_of (AbaOf f.now)) s.now.set a → Contains s.now.set a) }
{
    f.assumptions
        .iter()
        .all(|number| holds_if_defended(f, all, s, *number))
}

/// Whether the theory derives a contrary of a number, if that is no member.
fn hits_if_outside(f: &AbaLists, s: &Theory, number: u32) -> bool
    ensures { IsTrue result ↔ (¬ Contains s.now.set number → HasContrary (AbaOf f.now) s.now.derived number) }
{
    contains(s.set.as_slice(), number) || hits(f, s, number)
}

/// Whether the theory derives a contrary of each assumption that is no member.
fn hits_others(f: &AbaLists, s: &Theory) -> bool
    ensures { IsTrue result ↔ ((a : ℕ) → Contains f.now.assumptions.now a → ¬ Contains s.now.set a
        → HasContrary (AbaOf f.now) s.now.derived a) }
{
    f.assumptions
        .iter()
        .all(|number| hits_if_outside(f, s, *number))
}

/// Whether a theory's set lies in another's.
fn lies_in(s: &Theory, other: &Theory) -> bool
    ensures { IsTrue result ↔ IsWithin s.now.set other.now.set }
{
    is_within(s.set.as_slice(), other.set.as_slice())
}

/// Whether the set lies in each complete one of the sets.
fn is_least(f: &AbaLists, all: &[Theory], s: &Theory) -> bool
    requires { HasAllTheories (AbaOf f.now) all.now }
    ensures { IsTrue result ↔ ((t : Theory) → Contains all.now t
        → IsInComplete (collective_of (AbaOf f.now)) s.now.set t.set) }
{
    for other in all {
        if !is_in_complete(f, all, s, other) {
            return false;
        }
    }
    true
}

fn is_in_complete(f: &AbaLists, all: &[Theory], s: &Theory, other: &Theory) -> bool
    requires all { HasAllTheories (AbaOf f.now) all.now }
    requires theory { IsTheory (AbaOf f.now) other.now }
    ensures { IsTrue result ↔ IsInComplete (collective_of (AbaOf f.now)) s.now.set other.now.set }
{
    !is_complete(f, all, other) || lies_in(s, other)
}

/// Whether each admissible one of the sets that holds this set is no larger.
fn is_maximal(f: &AbaLists, all: &[Theory], s: &Theory) -> bool
    requires { HasAllTheories (AbaOf f.now) all.now }
    ensures { IsTrue result ↔ ((t : Theory) → Contains all.now t
        → HasNoLarger (collective_of (AbaOf f.now)) s.now.set t.set) }
{
    for other in all {
        if !has_no_larger(f, all, s, other) {
            return false;
        }
    }
    true
}

fn has_no_larger(f: &AbaLists, all: &[Theory], s: &Theory, other: &Theory) -> bool
    requires all { HasAllTheories (AbaOf f.now) all.now }
    requires theory { IsTheory (AbaOf f.now) other.now }
    ensures { IsTrue result ↔ HasNoLarger (collective_of (AbaOf f.now)) s.now.set other.now.set }
{
    if !is_admissible(f, all, other) {
        return true;
    }
    if !lies_in(s, other) {
        return true;
    }
    lies_in(other, s)
}

/// Whether the set lies in each preferred one of the sets.
fn is_in_each_preferred(f: &AbaLists, all: &[Theory], s: &Theory) -> bool
    requires { HasAllTheories (AbaOf f.now) all.now }
    ensures { IsTrue result ↔ ((t : Theory) → Contains all.now t
        → IsInPreferred (collective_of (AbaOf f.now)) s.now.set t.set) }
{
    for other in all {
        if !is_in_preferred(f, all, s, other) {
            return false;
        }
    }
    true
}

fn is_in_preferred(f: &AbaLists, all: &[Theory], s: &Theory, other: &Theory) -> bool
    requires all { HasAllTheories (AbaOf f.now) all.now }
    requires theory { IsTheory (AbaOf f.now) other.now }
    ensures { IsTrue result ↔ IsInPreferred (collective_of (AbaOf f.now)) s.now.set other.now.set }
{
    !is_preferred(f, all, other) || lies_in(s, other)
}

/// Whether each of the sets that is part of every preferred one lies in this set.
fn is_largest_in_all(f: &AbaLists, all: &[Theory], s: &Theory) -> bool
    requires { HasAllTheories (AbaOf f.now) all.now }
    ensures { IsTrue result ↔ ((t : Theory) → Contains all.now t
        → HoldsInAll (collective_of (AbaOf f.now)) s.now.set t.set) }
{
    for other in all {
        if !holds_in_all(f, all, s, other) {
            return false;
        }
    }
    true
}

fn holds_in_all(f: &AbaLists, all: &[Theory], s: &Theory, other: &Theory) -> bool
    requires all { HasAllTheories (AbaOf f.now) all.now }
    requires theory { IsTheory (AbaOf f.now) other.now }
    ensures { IsTrue result ↔ HoldsInAll (collective_of (AbaOf f.now)) s.now.set other.now.set }
{
    !is_in_all_preferred(f, all, other) || lies_in(other, s)
}
