//! Pairs that are found from either end, in flat storage and in blocks.

ghost use Rattle.std.specs.Prelude.{◌≡◌, IfOk};

use attack_index::{AttackBlocks, AttackIndex};
use lists::Memory;
use std::alloc::Global;
use std::test::Fail;

/// Whether the pairs by their first number are found.
fn has_firsts(index: &AttackIndex) -> bool {
    index.of(2) == [(2, 1), (2, 7)].as_slice()
        && index.of(8).is_empty()
        && index.has(7, 1)
        && !index.has(1, 7)
}

#[test]
fn pairs_by_their_first_number(rt: HostRuntime) -> Result<(), Fail> {
    let alloc = rt.alloc();
    let mut spare = Vec::new(alloc);
    let given = [(7u32, 1u32), (2, 1), (2, 7), (7, 1)].to_vec(alloc)?;
    let index = AttackIndex::new(alloc, given, &mut spare, 8)?;
    assert!(rt; index.pairs() == [(2, 1), (2, 7), (7, 1)].as_slice());
    assert!(rt; has_firsts(&index));
    let back = index.reversed(alloc, &mut spare)?;
    assert!(rt; back.pairs() == [(1, 2), (1, 7), (7, 2)].as_slice());
    Ok(())
}

/// An index of the pairs, and of the same the other way round.
fn both_ways(alloc: Global) -> Result<(AttackBlocks, AttackBlocks), Memory> {
    let given = [(7u32, 1u32), (2, 1), (2, 7), (7, 1)].to_vec(alloc)?;
    AttackBlocks::both_ways(alloc, given, 8)
}

/// Whether an index has these pairs, and each by its first number.
fn holds(alloc: Global, index: &AttackBlocks, pairs: &[(u32, u32)]) -> Result<bool, Memory> {
    Ok(
        index.to_vec(alloc)?.as_slice() == pairs
            && index.len() == pairs.len()
            && pairs.iter().all(|pair| index.has(pair.0, pair.1)),
    )
}

/// Whether so many pairs have each number as their first.
fn has_counts(alloc: Global, index: &AttackBlocks) -> Result<bool, Memory> {
    Ok(index.counts(alloc)?.as_slice() == [0, 0, 2, 0, 0, 0, 0, 1].as_slice())
}

#[test]
fn pairs_in_blocks(rt: HostRuntime) -> Result<(), Fail> {
    let alloc = rt.alloc();
    let (index, back) = both_ways(alloc)?;
    assert!(rt; holds(alloc, &index, &[(2, 1), (2, 7), (7, 1)])?);
    assert!(rt; holds(alloc, &back, &[(1, 2), (1, 7), (7, 2)])?);
    assert!(rt; index.of(2) == [(2, 1), (2, 7)].as_slice() && index.of(8).is_empty());
    assert!(rt; !index.has(1, 7) && has_counts(alloc, &index)?);
    Ok(())
}

/// An index of pairs that lie in the first block, at both ends of the second, and in the fourth; the third has none.
fn apart(alloc: Global) -> Result<AttackBlocks, Memory>
    ensures { IfOk result (λ i. i.bound ≡ 3101) }
{
    let given = [(3100u32, 5u32), (1024, 2047), (2047, 1), (5, 3100)].to_vec(alloc)?;
    let (index, _) = AttackBlocks::both_ways(alloc, given, 3101)?;
    Ok(index)
}

/// Puts in pairs at the border, one of which is there, and takes out one pair; two others aren't there.
fn change_border(index: &mut AttackBlocks) -> Result<(), Memory>
    requires { index.old.bound ≡ 3101 }
    ensures { index.new.bound ≡ 3101 }
{
    index.insert(1023, 7)?;
    index.insert(2048, 7)?;
    index.insert(1024, 2047)?;
    index.remove(2047, 1);
    index.remove(2047, 2);
    index.remove(9000, 1);
    Ok(())
}

/// Takes out the first pair of the second block, and puts in one at its end.
fn change_ends(index: &mut AttackBlocks) -> Result<(), Memory>
    requires { index.old.bound ≡ 3101 }
{
    index.remove(1024, 2047);
    index.insert(2047, 9)
}

const BEFORE: &[(u32, u32)] = &[(5, 3100), (1024, 2047), (2047, 1), (3100, 5)];

const BETWEEN: &[(u32, u32)] = &[(5, 3100), (1023, 7), (1024, 2047), (2048, 7), (3100, 5)];

const BEHIND: &[(u32, u32)] = &[(5, 3100), (1023, 7), (2047, 9), (2048, 7), (3100, 5)];

/// Pairs come and go on both sides of the border between two blocks.
#[test]
fn pairs_at_a_border(rt: HostRuntime) -> Result<(), Fail> {
    let mut index = apart(rt.alloc())?;
    assert!(rt; holds(rt.alloc(), &index, BEFORE)?);
    change_border(&mut index)?;
    assert!(rt; holds(rt.alloc(), &index, BETWEEN)?);
    assert!(rt; index.of(1023) == [(1023, 7)].as_slice() && index.of(2047).is_empty());
    change_ends(&mut index)?;
    assert!(rt; holds(rt.alloc(), &index, BEHIND)?);
    Ok(())
}
