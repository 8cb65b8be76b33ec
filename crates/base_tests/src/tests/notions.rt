//! Attacks from either end, and ranges.

use dung_notions::AfPlain;
use lists::Memory;
use set_lists::NumSet;
use std::alloc::Global;
use std::test::Fail;

/// Whether the ends of a framework's attacks are found: 2 attacks 1 and 7, and 7 attacks 1.
fn has_both_ends(plain: &AfPlain) -> bool {
    plain.targets_of(2) == [(2, 1), (2, 7)].as_slice()
        && plain.targets_of(8).is_empty()
        && plain.attackers_of(1) == [(1, 2), (1, 7)].as_slice()
        && plain.attackers_of(2).is_empty()
}

/// Whether single attacks and arguments of that framework are found.
fn has_single_ones(plain: &AfPlain) -> bool {
    plain.has_attack(7, 1) && !plain.has_attack(1, 7) && plain.is_live(7) && !plain.is_live(3)
}

#[test]
fn attacks_from_either_end(rt: HostRuntime) -> Result<(), Fail> {
    let live = [1, 2, 7, 0, 1_000_001];
    let attacks = [(7, 1), (2, 1), (2, 7), (3, 1), (7, 1)];
    let plain = AfPlain::of_lists(rt.alloc(), &live, &attacks)?;
    assert!(rt; plain.attacks(rt.alloc())?.as_slice() == [(2, 1), (2, 7), (7, 1)].as_slice());
    assert!(rt; has_both_ends(&plain) && has_single_ones(&plain));
    Ok(())
}

/// Whether this set has this range.
fn has_range(alloc: Global, plain: &AfPlain, set: &[u32], range: &[u32]) -> Result<bool, Memory> {
    let set = NumSet::from_slice(alloc, set)?;
    Ok(plain.range_of(alloc, &set)?.as_slice() == range)
}

/// Sets, and their ranges.
const RANGES: &[(&[u32], &[u32])] = &[
    (&[], &[]),
    (&[2], &[1, 2, 3]),
    (&[4, 1], &[1, 2, 4]),
    (&[3], &[3]),
    (&[5, 2], &[1, 2, 3, 5]),
];

#[test]
fn ranges(rt: HostRuntime) -> Result<(), Fail> {
    let alloc = rt.alloc();
    let plain = AfPlain::of_lists(alloc, &[1, 2, 3, 4], &[(1, 2), (2, 1), (2, 3), (3, 3)])?;
    for &(set, range) in RANGES {
        assert!(rt; has_range(alloc, &plain, set, range)?);
    }
    Ok(())
}
