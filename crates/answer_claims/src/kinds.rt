//! What sets are made of and their ranges, by the framework's kind.

ghost use Rattle.std.specs.Prelude.{◌≡◌, ◌↔◌, map, Contains, IfOk, IsTrue};
ghost use Rattle.semantics.specs.AbaFrameworks.{Aba};
ghost use Rattle.semantics.specs.Frameworks.{aba, af};
ghost use Rattle.certificate_claims.specs.Ranges.{IsFirstRanged};
ghost use Rattle.certificate_claims.specs.SetLiterals.{members, range_of};
ghost use Rattle.edit_rules.specs.Kinds.{framework_of};
ghost use Rattle.answer_claims.specs.SetFacts.{AreSetsOf, IsRangeOf};

use certificate_claims::{FirstRanged, first_ranged, ranges_of};
use dung_notions::AfPlain;
use edit_rules::Framework;
use lists::{Items, Memory};
use set_lists::NumSet;
use std::alloc::Global;

/// The numbers that sets are made of.
pub(crate) fn members_of(framework: &Framework) -> &[u32]
    ensures { result.now ≡ members (framework_of framework.now) }
{
    match framework {
        Framework::Af(plain) => plain.live(),
        Framework::Aba(plain) => plain.assumptions().as_slice(),
    }
}

/// Whether sets may have the number as a member.
pub(crate) fn is_member(framework: &Framework, number: u32) -> bool
    ensures { IsTrue result ↔ Contains (members (framework_of framework.now)) number }
{
    match framework {
        Framework::Af(plain) => plain.is_live(number),
        Framework::Aba(plain) => plain.assumptions().contains(number),
    }
}

/// A set's range; no claim on an assumption-based framework speaks of ranges, and there it is the set itself.
/// `Memory` says that an allocation was refused.
pub fn range_of(alloc: Global, framework: &Framework, set: &NumSet) -> Result<NumSet, Memory>
    ensures { IfOk result (IsRangeOf (framework_of framework.now) set.now) }
{
    match framework {
        Framework::Af(plain) => af_range(alloc, plain, set),
        Framework::Aba(_) => own_range(alloc, set),
    }
}

/// A set's range in an abstract framework.
fn af_range(alloc: Global, plain: &AfPlain, set: &NumSet) -> Result<NumSet, Memory>
    ensures { IfOk result (IsRangeOf (af plain.now) set.now) }
{
    let range = plain.range_of(alloc, set)?;
    Ok(range)
}

/// A set's range in an assumption-based framework.
fn own_range(alloc: Global, set: &NumSet) -> Result<NumSet, Memory>
    ensures { IfOk result (λ range. (f : Aba) → IsRangeOf (aba f) set.now range) }
{
    let range = set.copy(alloc)?;
    Ok(range)
}

/// Those of the sets that are first with their ranges, and these ranges.
pub(crate) fn first_with_ranges(
    alloc: Global,
    framework: &Framework,
    sets: &[NumSet],
) -> Result<FirstRanged, Memory>
    requires { AreSetsOf (framework_of framework.now) sets.now }
    ensures { IfOk result (IsFirstRanged (framework_of framework.now) sets.now) }
{
    match framework {
        Framework::Af(plain) => af_first(alloc, plain, sets),
        Framework::Aba(_) => unreachable!(),
    }
}

/// The same in an abstract framework.
fn af_first(alloc: Global, plain: &AfPlain, sets: &[NumSet]) -> Result<FirstRanged, Memory>
    requires { AreSetsOf (af plain.now) sets.now }
    ensures { IfOk result (IsFirstRanged (af plain.now) sets.now) }
{
    first_ranged(alloc, plain, sets)
}

/// The ranges of sets, in order.
pub(crate) fn all_ranges(
    alloc: Global,
    framework: &Framework,
    sets: &[NumSet],
) -> Result<Items<NumSet>, Memory>
    requires { AreSetsOf (framework_of framework.now) sets.now }
    ensures { IfOk result (λ ranges. ranges ≡ map (range_of (framework_of framework.now)) sets.now) }
{
    match framework {
        Framework::Af(plain) => af_ranges(alloc, plain, sets),
        Framework::Aba(_) => unreachable!(),
    }
}

/// The same in an abstract framework.
fn af_ranges(alloc: Global, plain: &AfPlain, sets: &[NumSet]) -> Result<Items<NumSet>, Memory>
    requires { AreSetsOf (af plain.now) sets.now }
    ensures { IfOk result (λ ranges. ranges ≡ map (range_of (af plain.now)) sets.now) }
{
    ranges_of(alloc, plain, sets)
}
