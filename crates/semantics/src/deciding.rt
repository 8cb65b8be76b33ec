//! A slow program that decides each notion from its words, by going through all sets of live arguments. Faster
//! programs are measured by it. With n live arguments it takes memory for 2 to the power n sets, and for the
//! ideal set the time of 8 to the power n tests of one set.

ghost use Rattle.std.specs.Prelude.{◌↔◌, ℕ, List, Contains, IsTrue, IfOk};
ghost use Rattle.semantics.specs.Framework.{IsGrounded, IsPreferred, IsOfMode, IsWidest, IsInAllPreferred, IsIdeal};
ghost use Rattle.semantics.specs.Compared.{HasNoLarger, HasNoWider, HoldsInAll, IsInComplete, IsInPreferred};
ghost use Rattle.semantics.specs.Notions.{AfOf, IsOfNotion};
ghost use Rattle.semantics.specs.Sets.{HasAllSets};

use crate::af_lists::{AfLists, is_within};
use crate::mode::Mode;
use crate::sets::sets_of;
use lists::{Items, Memory};
use std::alloc::Global;

/// A notion of the argumentation semantics, which a set of arguments meets or not.
#[derive(Clone, Copy, Drop)]
pub enum Notion {
    /// Live arguments, of which none attacks another or itself.
    ConflictFree,
    /// Conflict-free, and defends each member.
    Admissible,
    /// Admissible, and holds each live argument that it defends.
    Complete,
    /// The least complete set.
    Grounded,
    /// Admissible, and within no larger admissible set.
    Preferred,
    /// Conflict-free, and attacks each live argument outside it.
    Stable,
    /// Admissible, and no admissible set has a larger range.
    SemiStable,
    /// Conflict-free, and no conflict-free set has a larger range.
    Stage,
    /// Admissible, and part of every preferred set.
    InAllPreferred,
    /// The largest admissible set that is part of every preferred set.
    Ideal,
}

/// Whether the set meets the notion in the framework. `Memory` says that an allocation was refused.
pub fn decide(
    alloc: Global,
    framework: &AfLists,
    set: &[u32],
    notion: Notion,
) -> Result<bool, Memory>
    ensures { IfOk result (λ meets. IsTrue meets ↔ IsOfNotion notion (AfOf framework.now) set.now) }
{
    let sets = sets_of(alloc, framework.live)?;
    let sets = sets.as_slice();
    let meets = match notion {
        Notion::ConflictFree => framework.is_conflict_free(set),
        Notion::Admissible => framework.is_admissible(set),
        Notion::Complete => framework.is_complete(set),
        Notion::Grounded => is_grounded(framework, sets, set),
        Notion::Preferred => is_preferred(framework, sets, set),
        Notion::Stable => framework.is_stable(set),
        Notion::SemiStable => is_widest(framework, Mode::Ad, sets, set),
        Notion::Stage => is_widest(framework, Mode::Cf, sets, set),
        Notion::InAllPreferred => is_in_all_preferred(framework, sets, set),
        Notion::Ideal => is_ideal(framework, sets, set),
    };
    Ok(meets)
}

fn is_grounded(f: &AfLists, sets: &[Items<u32>], set: &[u32]) -> bool
    requires { HasAllSets f.now.live.now sets.now }
    ensures { IsTrue result ↔ IsGrounded (AfOf f.now) set.now }
{
    f.is_complete(set) && is_least(f, sets, set)
}

fn is_preferred(f: &AfLists, sets: &[Items<u32>], set: &[u32]) -> bool
    requires { HasAllSets f.now.live.now sets.now }
    ensures { IsTrue result ↔ IsPreferred (AfOf f.now) set.now }
{
    f.is_admissible(set) && is_maximal(f, sets, set)
}

fn is_widest(f: &AfLists, mode: Mode, sets: &[Items<u32>], set: &[u32]) -> bool
    requires { HasAllSets f.now.live.now sets.now }
    ensures { IsTrue result ↔ IsWidest mode (AfOf f.now) set.now }
{
    is_of_mode(f, mode, set) && is_nowhere_wider(f, mode, sets, set)
}

fn is_of_mode(f: &AfLists, mode: Mode, set: &[u32]) -> bool
    ensures { IsTrue result ↔ IsOfMode mode (AfOf f.now) set.now }
{
    match mode {
        Mode::Cf => f.is_conflict_free(set),
        Mode::Ad => f.is_admissible(set),
    }
}

fn is_in_all_preferred(f: &AfLists, sets: &[Items<u32>], set: &[u32]) -> bool
    requires { HasAllSets f.now.live.now sets.now }
    ensures { IsTrue result ↔ IsInAllPreferred (AfOf f.now) set.now }
{
    f.is_admissible(set) && is_in_each_preferred(f, sets, set)
}

fn is_ideal(f: &AfLists, sets: &[Items<u32>], set: &[u32]) -> bool
    requires { HasAllSets f.now.live.now sets.now }
    ensures { IsTrue result ↔ IsIdeal (AfOf f.now) set.now }
{
    is_in_all_preferred(f, sets, set) && is_largest_in_all(f, sets, set)
}

/// Whether the set lies in each complete one of the sets.
fn is_least(f: &AfLists, sets: &[Items<u32>], set: &[u32]) -> bool
    ensures { IsTrue result ↔ ((t : List ℕ) → Contains sets.now t → IsInComplete (AfOf f.now) set.now t) }
{
    sets.iter()
        .all(|other| is_in_complete(f, set, other.as_slice()))
}

fn is_in_complete(f: &AfLists, set: &[u32], other: &[u32]) -> bool
    ensures { IsTrue result ↔ IsInComplete (AfOf f.now) set.now other.now }
{
    !f.is_complete(other) || is_within(set, other)
}

/// Whether each admissible one of the sets that holds this set is no larger.
fn is_maximal(f: &AfLists, sets: &[Items<u32>], set: &[u32]) -> bool
    ensures { IsTrue result ↔ ((t : List ℕ) → Contains sets.now t → HasNoLarger (AfOf f.now) set.now t) }
{
    sets.iter()
        .all(|other| has_no_larger(f, set, other.as_slice()))
}

fn has_no_larger(f: &AfLists, set: &[u32], other: &[u32]) -> bool
    ensures { IsTrue result ↔ HasNoLarger (AfOf f.now) set.now other.now }
{
    if !f.is_admissible(other) {
        return true;
    }
    if !is_within(set, other) {
        return true;
    }
    is_within(other, set)
}

/// Whether each of the sets that is of the mode, and whose range holds this set's, has no larger range.
fn is_nowhere_wider(f: &AfLists, mode: Mode, sets: &[Items<u32>], set: &[u32]) -> bool
    ensures { IsTrue result ↔ ((t : List ℕ) → Contains sets.now t → HasNoWider mode (AfOf f.now) set.now t) }
{
    sets.iter()
        .all(|other| has_no_wider(f, mode, set, other.as_slice()))
}

fn has_no_wider(f: &AfLists, mode: Mode, set: &[u32], other: &[u32]) -> bool
    ensures { IsTrue result ↔ HasNoWider mode (AfOf f.now) set.now other.now }
{
    if !is_of_mode(f, mode, other) {
        return true;
    }
    if !f.is_range_within(set, other) {
        return true;
    }
    f.is_range_within(other, set)
}

/// Whether the set lies in each preferred one of the sets.
fn is_in_each_preferred(f: &AfLists, sets: &[Items<u32>], set: &[u32]) -> bool
    requires { HasAllSets f.now.live.now sets.now }
    ensures { IsTrue result ↔ ((t : List ℕ) → Contains sets.now t → IsInPreferred (AfOf f.now) set.now t) }
{
    sets.iter()
        .all(|other| is_in_preferred(f, sets, set, other.as_slice()))
}

fn is_in_preferred(f: &AfLists, sets: &[Items<u32>], set: &[u32], other: &[u32]) -> bool
    requires { HasAllSets f.now.live.now sets.now }
    ensures { IsTrue result ↔ IsInPreferred (AfOf f.now) set.now other.now }
{
    !is_preferred(f, sets, other) || is_within(set, other)
}

/// Whether each of the sets that is part of every preferred one lies in this set.
fn is_largest_in_all(f: &AfLists, sets: &[Items<u32>], set: &[u32]) -> bool
    requires { HasAllSets f.now.live.now sets.now }
    ensures { IsTrue result ↔ ((t : List ℕ) → Contains sets.now t → HoldsInAll (AfOf f.now) set.now t) }
{
    sets.iter()
        .all(|other| holds_in_all(f, sets, set, other.as_slice()))
}

fn holds_in_all(f: &AfLists, sets: &[Items<u32>], set: &[u32], other: &[u32]) -> bool
    requires { HasAllSets f.now.live.now sets.now }
    ensures { IsTrue result ↔ HoldsInAll (AfOf f.now) set.now other.now }
{
    !is_in_all_preferred(f, sets, other) || is_within(other, set)
}
