//! The ranges of listed sets.

ghost use Rattle.std.specs.Prelude.{◌≡◌, ◌↔◌, length, map, Contains, IfOk, IsTrue, OnOk};
ghost use Rattle.lists.specs.Members.{IsWithin};
ghost use Rattle.iccma_tasks.specs.semantics.specs.Frameworks.{af};
ghost use Rattle.certificate_claims.specs.Acceptance.{NoRangeWithin};
ghost use Rattle.certificate_claims.specs.Ranges.{AddsIfFirst, AddsIfRanged, AreLive, AreWithRange, IsFirstRanged};
ghost use Rattle.certificate_claims.specs.SetLiterals.{range_of};

use crate::order::none_within;
use dung_notions::AfPlain;
use lists::{Items, Memory};
use set_lists::NumSet;
use std::alloc::Global;

/// Those of listed sets that are first with their ranges, in order, and these ranges.
#[derive(Drop)]
pub struct FirstRanged {
    pub sets: Items<NumSet>,
    pub ranges: Items<NumSet>,
}

/// Those of the sets that are first with their ranges. Each range is compared with the different ones before it.
/// `Memory` says that an allocation was refused.
pub fn first_ranged(alloc: Global, plain: &AfPlain, sets: &[NumSet]) -> Result<FirstRanged, Memory>
    requires { AreLive plain.now sets.now }
    ensures { IfOk result (IsFirstRanged (af plain.now) sets.now) }
{
    let mut found = FirstRanged {
        sets: Items::new(alloc),
        ranges: Items::new(alloc),
    };
    for set in sets {
        add_if_first(alloc, plain, &mut found, set)?;
    }
    Ok(found)
}

/// Adds a set, and its range, unless the range is there.
fn add_if_first(
    alloc: Global,
    plain: &AfPlain,
    found: &mut FirstRanged,
    set: &NumSet,
) -> Result<(), Memory>
    requires { IsWithin set.now plain.now.live }
    ensures { OnOk result (AddsIfFirst (af plain.now) set.now found.old found.new) }
{
    let range = range_list(alloc, plain, set)?;
    if has_list(found.ranges.as_slice(), &range) {
        return Ok(());
    }
    found.sets.push(set.copy(alloc)?)?;
    found.ranges.push(range)?;
    Ok(())
}

/// The range of a set of live arguments.
fn range_list(alloc: Global, plain: &AfPlain, set: &NumSet) -> Result<NumSet, Memory>
    requires { IsWithin set.now plain.now.live }
    ensures { IfOk result (λ range. range ≡ range_of (af plain.now) set.now) }
{
    let _live = plain.live();
    plain.range_of(alloc, set)
}

/// Whether a set is one of the sets.
fn has_list(sets: &[NumSet], set: &NumSet) -> bool
    ensures { IsTrue result ↔ Contains sets.now set.now }
{
    sets.iter().any(|other| is_same(other, set))
}

/// Whether two sets have the same list.
fn is_same(set: &NumSet, other: &NumSet) -> bool
    ensures { IsTrue result ↔ (set.now ≡ other.now) }
{
    set.as_slice() == other.as_slice()
}

/// Whether no set's range lies in another, different one. `Memory` says that an allocation was refused.
pub fn no_range_within(alloc: Global, plain: &AfPlain, sets: &[NumSet]) -> Result<bool, Memory>
    requires { AreLive plain.now sets.now }
    ensures { IfOk result (λ apart. IsTrue apart ↔ NoRangeWithin (af plain.now) sets.now) }
{
    let _live = plain.live();
    let found = first_ranged(alloc, plain, sets)?;
    Ok(none_within(found.ranges.as_slice()))
}

/// The ranges of sets, in order. `Memory` says that an allocation was refused.
pub fn ranges_of(alloc: Global, plain: &AfPlain, sets: &[NumSet]) -> Result<Items<NumSet>, Memory>
    requires { AreLive plain.now sets.now }
    ensures { IfOk result (λ ranges. ranges ≡ map (range_of (af plain.now)) sets.now) }
{
    let mut ranges = Items::new(alloc);
    for set in sets {
        let range = range_list(alloc, plain, set)?;
        ranges.push(range)?;
    }
    Ok(ranges)
}

/// Those of the sets that have a range; `ranges` are the sets' ranges. `Memory` says that an allocation was refused.
pub fn with_range(
    alloc: Global,
    sets: &[NumSet],
    ranges: &[NumSet],
    range: &NumSet,
) -> Result<Items<NumSet>, Memory>
    requires { length ranges.now ≡ length sets.now }
    ensures { IfOk result (AreWithRange sets.now ranges.now range.now) }
{
    let mut found = Items::new(alloc);
    for index in 0..sets.len() {
        add_if_ranged(alloc, &mut found, range, &ranges[index], &sets[index])?;
    }
    Ok(found)
}

/// Adds a set if its own range is this one.
fn add_if_ranged(
    alloc: Global,
    found: &mut Items<NumSet>,
    range: &NumSet,
    own: &NumSet,
    set: &NumSet,
) -> Result<(), Memory>
    ensures { OnOk result (AddsIfRanged range.now own.now set.now found.old found.new) }
{
    let same = is_same(own, range);
    if !same {
        return Ok(());
    }
    found.push(set.copy(alloc)?)?;
    Ok(())
}
