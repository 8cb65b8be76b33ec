//! Lists of numbers that an edit changes.

ghost use Rattle.std.specs.Prelude.{◌≡◌, ◌==◌, IfOk, filter, not};
ghost use Rattle.std.specs.List.Sorted.{IsStrictlyIncreasing};

use lists::Memory;
use set_lists::NumSet;
use std::alloc::Global;

/// The numbers of a rising list but for one.
pub fn numbers_but(alloc: Global, numbers: &[u32], gone: u32) -> Result<NumSet, Memory>
    requires { IsStrictlyIncreasing numbers.now }
    ensures { IfOk result (λ kept. kept ≡ filter (λ a. not (a == gone)) numbers.now) }
{
    let kept = others_of(alloc, numbers, gone)?;
    NumSet::from_rising(alloc, kept.as_slice())
}

/// The numbers but for one, in their order.
fn others_of(alloc: Global, numbers: &[u32], gone: u32) -> Result<Vec<u32>, Memory>
    ensures { IfOk result (λ kept. kept.items ≡ filter (λ a. not (a == gone)) numbers.now) }
{
    Ok(
        numbers
            .iter()
            .copied()
            .filter(|number| *number != gone)
            .collect(alloc)?,
    )
}
