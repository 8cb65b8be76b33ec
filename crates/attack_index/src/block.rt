//! Pairs whose first numbers lie close together, with a table of offsets.

ghost use Rattle.std.specs.Prelude.{◌≡◌, ◌↔◌, ℕ, ◌+◌, ◌-◌, ◌<◌, ◌≤◌, ◌^◌, ◌==◌};
ghost use Rattle.std.specs.Prelude.{Contains, IfOk, IsTrue, OnErr, OnOk, filter, length, slice_index};
ghost use Rattle.attack_index.specs.Blocks.{BlockGains, BlockLoses};
ghost use Rattle.attack_index.specs.PairOrder.{PairsRise};
ghost use Rattle.attack_index.specs.Offsets.{AreFrom, AreOffsets, HasOffsets, IsBlock, IsEndOf};

use crate::changes::{put_in, take_out};
use lists::Memory;
use std::alloc::Global;
use std::marker::Model;

/// Pairs by rising first and then second number, each once, whose first numbers lie among those that count from `base`.
/// `offsets` has, for each of these and for the one behind them, the index of the first pair that begins with it or
/// with a larger one.
#[derive(Drop)]
pub(crate) struct Block {
    base: usize,
    pairs: Vec<(u32, u32)>,
    offsets: Vec<usize>,
}

impl Model for Block {
    ghost use Rattle.attack_index.specs.Offsets.{BlockPairs, HasOffsets, block_of};

    ghost Value = { BlockPairs };

    ghost view = { λ b. block_of b.base b.pairs.items b.offsets.items };

    ghost invariant = { λ b. HasOffsets b.base b.pairs.items b.offsets.items };
}

impl Block {
    /// The block of rising pairs whose first numbers are among the `width` ones from `base` on.
    pub(crate) fn of_rising(
        alloc: Global,
        pairs: Vec<(u32, u32)>,
        base: usize,
        width: usize,
    ) -> Result<Block, Memory>
        requires rise { PairsRise pairs.items }
        requires fits { base + width ≤ 2 ^ 32 }
        requires firsts { AreFrom base width pairs.items }
        ensures { IfOk result (λ b. b ≡ record { base = base; width = width; pairs = pairs.items }) }
    {
        let offsets = offsets_of(alloc, &pairs, base, width)?;
        Ok(Block {
            base,
            pairs,
            offsets,
        })
    }

    /// The same block again.
    pub(crate) fn copy(&self, alloc: Global) -> Result<Block, Memory>
        ensures { IfOk result (λ b. b ≡ self.now) }
    {
        let pairs = Vec::from_slice(alloc, self.pairs.as_slice())?;
        let offsets = Vec::from_slice(alloc, self.offsets.as_slice())?;
        Ok(Block {
            base: self.base,
            pairs,
            offsets,
        })
    }

    /// Adds a pair whose first number is among the block's, unless it is there. After `Err` the block is as before.
    pub(crate) fn insert(&mut self, first: u32, second: u32) -> Result<(), Memory>
        requires { (self.old.base ≤ first) × (first < self.old.base + self.old.width) }
        ensures gains { OnOk result (BlockGains (first, second) self.old self.new) }
        ensures err { OnErr result (self.new ≡ self.old) }
    {
        put_in(
            &mut self.pairs,
            self.offsets.as_mut_slice(),
            self.base,
            (first, second),
        )
    }

    /// Takes a pair away, where it is there.
    pub(crate) fn remove(&mut self, first: u32, second: u32)
        ensures { BlockLoses (first, second) self.old self.new }
    {
        take_out(
            &mut self.pairs,
            self.offsets.as_mut_slice(),
            self.base,
            (first, second),
        );
    }

    /// How many first numbers the block is for.
    pub(crate) fn width(&self) -> usize
        ensures { result ≡ self.now.width }
    {
        self.offsets.len() - 1
    }

    /// The pairs, by rising first and then second number.
    pub(crate) fn pairs(&self) -> &[(u32, u32)]
        ensures { result.now ≡ self.now.pairs }
    {
        self.pairs.as_slice()
    }

    /// The pairs that begin with a number, by rising second number.
    pub(crate) fn of(&self, number: u32) -> &[(u32, u32)]
        ensures { result.now ≡ filter (λ p. p.0 == number) self.now.pairs }
    {
        pairs_from(
            self.pairs.as_slice(),
            self.offsets.as_slice(),
            self.base,
            number,
        )
    }
}

/// The pairs that begin with a number.
fn pairs_from<'a>(
    pairs: &'a [(u32, u32)],
    offsets: &[usize],
    base: usize,
    number: u32,
) -> &'a [(u32, u32)]
    requires { HasOffsets base pairs.now offsets.now }
    ensures { result.now ≡ filter (λ p. p.0 == number) pairs.now }
{
    let number = number as usize;
    if number < base {
        return &[];
    }
    let at = number - base;
    if at + 1 >= offsets.len() {
        return &[];
    }
    let begin = offsets[at];
    let end = offsets[at + 1];
    &pairs[begin..end]
}

/// For each of the `width` numbers from `base` on, at the index after its own, where the pairs that begin with it end,
/// or 0 where none does.
fn ends(
    alloc: Global,
    pairs: &[(u32, u32)],
    base: usize,
    width: usize,
) -> Result<Vec<usize>, Memory>
    requires fits { base + width ≤ 2 ^ 32 }
    requires firsts { AreFrom base width pairs.now }
    ensures long { IfOk result (λ ends. length ends.items ≡ width + 1) }
    ensures zero { IfOk result (λ ends. slice_index ends.items 0 ≡ 0) }
    ensures ends { IfOk result (λ ends. (k : ℕ) → k < width
        → IsEndOf (base + k) pairs.now (length pairs.now) (slice_index ends.items (k + 1))) }
{
    let mut ends = vec![in alloc; 0usize; width + 1]?;
    for (index, pair) in pairs.iter().enumerate() {
        ends[pair.0 as usize - base + 1] = index + 1;
    }
    Ok(ends)
}

/// The offsets of the `width` numbers from `base` on and of the one behind them: a number with no pair has that of the
/// next.
fn offsets_of(
    alloc: Global,
    pairs: &[(u32, u32)],
    base: usize,
    width: usize,
) -> Result<Vec<usize>, Memory>
    requires rise { PairsRise pairs.now }
    requires fits { base + width ≤ 2 ^ 32 }
    requires firsts { AreFrom base width pairs.now }
    ensures offsets { IfOk result (λ offsets. AreOffsets base pairs.now offsets.items) }
    ensures long { IfOk result (λ offsets. length offsets.items ≡ width + 1) }
{
    let mut offsets = ends(alloc, pairs, base, width)?;
    let mut most = 0;
    for number in 0..width {
        most = most.max(offsets.as_slice()[number + 1]);
        offsets[number + 1] = most;
    }
    Ok(offsets)
}

/// Whether a pair of these numbers stands among rising pairs.
pub(crate) fn has_pair(pairs: &[(u32, u32)], first: u32, second: u32) -> bool
    requires { PairsRise pairs.now }
    ensures { IsTrue result ↔ Contains pairs.now (first, second) }
{
    pairs.binary_search(&(first, second)).is_ok()
}
