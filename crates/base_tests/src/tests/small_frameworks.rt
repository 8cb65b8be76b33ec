//! The grounded set and the four tests of a set against a slow program that decides each notion from its words,
//! on every framework of three arguments; and whether a framework is solid.

use dung_notions::AfPlain;
use lists::Memory;
use semantics::{AfLists, Notion, decide};
use set_lists::NumSet;
use std::alloc::Global;
use std::test::Fail;

/// The arguments of each framework.
const LIVE: &[u32] = &[1, 2, 3];

/// The numbers from 1 to 4 whose bit is set, 1 being the lowest. The last of them is no argument.
fn set_of(alloc: Global, bits: u32) -> Result<NumSet, Memory> {
    let mut members = Vec::new(alloc);
    for number in 1..5u32 {
        if bits >> (number - 1) & 1 == 1 {
            members.push(number)?;
        }
    }
    NumSet::from_slice(alloc, &members)
}

/// The attacks between three arguments whose bit is set.
fn attacks_of(alloc: Global, bits: u32) -> Result<Vec<(u32, u32)>, Memory> {
    let mut attacks = Vec::new(alloc);
    for index in 0..9u32 {
        if bits >> index & 1 == 1 {
            attacks.push((index / 3 + 1, index % 3 + 1))?;
        }
    }
    Ok(attacks)
}

/// Whether the four tests say of a set what the slow program says.
fn agree(
    alloc: Global,
    plain: &AfPlain,
    lists: &AfLists<'_>,
    set: &NumSet,
) -> Result<bool, Memory> {
    let found = [
        (Notion::ConflictFree, plain.is_conflict_free(set)),
        (Notion::Admissible, plain.is_admissible(set)),
        (Notion::Complete, plain.is_complete(set)),
        (Notion::Stable, plain.is_stable(set)),
    ];
    for (notion, meets) in found {
        if decide(alloc, lists, set.as_slice(), notion)? != meets {
            return Ok(false);
        }
    }
    Ok(true)
}

/// Whether they say the same of each set.
fn agree_on_sets(alloc: Global, plain: &AfPlain, lists: &AfLists<'_>) -> Result<bool, Memory> {
    for bits in 0..16 {
        if !agree(alloc, plain, lists, &set_of(alloc, bits)?)? {
            return Ok(false);
        }
    }
    Ok(true)
}

/// Whether the grounded set that is found is one, with an order of all its members.
fn finds_grounded(alloc: Global, plain: &AfPlain, lists: &AfLists<'_>) -> Result<bool, Memory> {
    let grounded = plain.grounded(alloc)?;
    Ok(
        grounded.order.len() == grounded.set.len()
            && decide(alloc, lists, grounded.set.as_slice(), Notion::Grounded)?,
    )
}

/// Whether both is so of the framework of these attacks.
fn holds(alloc: Global, attacks: &[(u32, u32)]) -> Result<bool, Memory> {
    let plain = AfPlain::of_lists(alloc, LIVE, attacks)?;
    let lists = AfLists {
        live: LIVE,
        attacks,
    };
    Ok(finds_grounded(alloc, &plain, &lists)? && agree_on_sets(alloc, &plain, &lists)?)
}

#[test]
fn every_framework_of_three_arguments(rt: HostRuntime) -> Result<(), Fail> {
    for bits in 0..512 {
        let attacks = attacks_of(rt.alloc(), bits)?;
        assert!(rt; holds(rt.alloc(), &attacks)?, "of {bits}");
    }
    Ok(())
}

/// Arguments, and whether they are those from 1 to their number.
const SOLID: &[(&[u32], bool)] = &[
    (&[], true),
    (&[1], true),
    (&[3, 1, 2], true),
    (&[2], false),
    (&[1, 3], false),
    (&[2, 3, 4], false),
];

#[test]
fn solid_frameworks(rt: HostRuntime) -> Result<(), Fail> {
    for &(live, solid) in SOLID {
        assert!(rt; AfPlain::of_lists(rt.alloc(), live, &[])?.is_solid() == solid);
    }
    Ok(())
}
