//! A block with a pair more or less, in place: nothing is sorted, and no table is made anew.

ghost use Rattle.std.specs.Prelude.{◌≡◌, ℕ, ◌+◌, ◌-◌, ◌<◌, ◌≤◌, ◌^◌, length, slice_index, OnErr, OnOk};
ghost use Rattle.attack_index.specs.Changes.{AreLoweredFrom, AreRaisedFrom, GainsPair, LosesPair};
ghost use Rattle.attack_index.specs.Offsets.{HasOffsets};

use lists::Memory;

/// Adds one to each number from an index on.
fn raise_from(numbers: &mut [usize], from: usize)
    requires { (k : ℕ) → from ≤ k → k < length numbers.old → slice_index numbers.old k + 1 < 2 ^ 64 }
    ensures { AreRaisedFrom from numbers.old numbers.new }
{
    for index in from..numbers.len() {
        let had = numbers[index];
        numbers[index] = had + 1;
    }
}

/// Takes one off each number from an index on.
fn lower_from(numbers: &mut [usize], from: usize)
    requires { (k : ℕ) → from ≤ k → k < length numbers.old → 0 < slice_index numbers.old k }
    ensures { AreLoweredFrom from numbers.old numbers.new }
{
    for index in from..numbers.len() {
        let had = numbers[index];
        numbers[index] = had - 1;
    }
}

/// Puts a pair whose first number the table of offsets reaches among the pairs, unless it is there.
pub(crate) fn put_in(
    pairs: &mut Vec<(u32, u32)>,
    offsets: &mut [usize],
    base: usize,
    pair: (u32, u32),
) -> Result<(), Memory>
    requires table { HasOffsets base pairs.old.items offsets.old }
    requires first { (base ≤ pair.0) × (pair.0 < base + (length offsets.old - 1)) }
    ensures table { HasOffsets base pairs.new.items offsets.new }
    ensures long { length offsets.new ≡ length offsets.old }
    ensures gains { OnOk result (GainsPair pair pairs.old.items pairs.new.items) }
    ensures err { OnErr result (pairs.new.items ≡ pairs.old.items) }
{
    let Err(index) = pairs.binary_search(&pair) else {
        return Ok(());
    };
    pairs.insert(index, pair)?;
    let _count = pairs.len();
    raise_from(offsets, pair.0 as usize - base + 1);
    Ok(())
}

/// Takes a pair out of the pairs, where it is there.
pub(crate) fn take_out(
    pairs: &mut Vec<(u32, u32)>,
    offsets: &mut [usize],
    base: usize,
    pair: (u32, u32),
)
    requires { HasOffsets base pairs.old.items offsets.old }
    ensures table { HasOffsets base pairs.new.items offsets.new }
    ensures long { length offsets.new ≡ length offsets.old }
    ensures loses { LosesPair pair pairs.old.items pairs.new.items }
{
    let Ok(index) = pairs.binary_search(&pair) else {
        return;
    };
    pairs.remove(index);
    lower_from(offsets, pair.0 as usize - base + 1);
}
