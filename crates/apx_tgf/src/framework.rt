//! The framework of numbered attacks.

ghost use Rattle.std.specs.Prelude.{◌≡◌, ℕ, ◌≤◌, Contains, IfOk};
ghost use Rattle.std.specs.List.{range_with_len};
ghost use Rattle.semantics.specs.declared.argument.TheConstants.{MAX_ARGUMENT};
ghost use Rattle.af_format.specs.AfText.{IsFrameworkOf};

use dung_notions::AfPlain;
use lists::{Items, Memory};
use semantics::MAX_ARGUMENT;
use set_lists::NumSet;
use std::alloc::Global;

/// The framework of the arguments 1 to n and the attacks.
pub(crate) fn framework_of(
    alloc: Global,
    count: u32,
    attacks: Items<(u32, u32)>,
) -> Result<AfPlain, Memory>
    requires few { count ≤ MAX_ARGUMENT }
    requires ends { (b a : ℕ) → Contains attacks (b, a)
        → Contains (range_with_len 1 count) b × Contains (range_with_len 1 count) a }
    ensures { IfOk result (IsFrameworkOf count attacks) }
{
    let live = arguments(alloc, count)?;
    AfPlain::new(alloc, live, attacks.into_vec())
}

// The arguments 1 to n.
fn arguments(alloc: Global, count: u32) -> Result<NumSet, Memory>
    requires { count ≤ MAX_ARGUMENT }
    ensures { IfOk result (λ s. s ≡ range_with_len 1 count) }
{
    let numbers: Vec<u32> = (1..count + 1).collect(alloc)?;
    NumSet::from_rising(alloc, &numbers)
}
