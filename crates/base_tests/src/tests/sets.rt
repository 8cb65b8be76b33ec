//! Sets and what is made of them. A made set goes into `gives` at once: values that live on make each later call dearer.

use lists::Memory;
use set_lists::NumSet;
use std::alloc::Global;
use std::cmp::Ordering;
use std::test::Fail;

/// Whether a call gave the set of these members, rising.
fn gives(found: Result<NumSet, Memory>, members: &[u32]) -> Result<bool, Memory> {
    Ok(found?.as_slice() == members)
}

#[test]
fn sets_from_numbers(rt: HostRuntime) -> Result<(), Fail> {
    let alloc = rt.alloc();
    assert!(rt; gives(NumSet::from_slice(alloc, &[3, 1, 3]), &[1, 3])?);
    assert!(rt; gives(NumSet::from_rising(alloc, &[1, 3]), &[1, 3])?);
    assert!(rt; NumSet::new(alloc).is_empty());
    Ok(())
}

#[test]
fn members_of_a_set(rt: HostRuntime) -> Result<(), Fail> {
    let odd = NumSet::from_slice(rt.alloc(), &[3, 1, 3])?;
    assert!(rt; odd.len() == 2 && !odd.is_empty());
    assert!(rt; odd.get(1) == Some(3) && odd.get(2).is_none());
    assert!(rt; odd.contains(3) && !odd.contains(2));
    assert!(rt; gives(odd.copy(rt.alloc()), &[1, 3])?);
    Ok(())
}

/// Whether two sets have this union, and this set is what the first has alone.
fn combine(alloc: Global, sets: [&[u32]; 2], union: &[u32], minus: &[u32]) -> Result<bool, Memory> {
    let left = NumSet::from_slice(alloc, sets[0])?;
    let right = NumSet::from_slice(alloc, sets[1])?;
    Ok(gives(left.union(alloc, &right), union)? && gives(left.minus(alloc, &right), minus)?)
}

/// Whether the first set is within the second, and how the two compare.
fn compare(alloc: Global, left: &[u32], right: &[u32]) -> Result<(bool, Ordering), Memory> {
    let left = NumSet::from_slice(alloc, left)?;
    let right = NumSet::from_slice(alloc, right)?;
    Ok((left.within(&right), left.cmp(&right)))
}

#[test]
fn sets_combined(rt: HostRuntime) -> Result<(), Fail> {
    assert!(rt; combine(rt.alloc(), [&[3, 1], &[1, 2]], &[1, 2, 3], &[3])?);
    Ok(())
}

#[test]
fn sets_that_grow(rt: HostRuntime) -> Result<(), Fail> {
    let mut grown = NumSet::from_slice(rt.alloc(), &[3, 1])?;
    grown.insert(2)?;
    grown.insert(2)?;
    assert!(rt; grown.as_slice() == [1, 2, 3].as_slice());
    Ok(())
}

/// Two sets, whether the first is within the second, and how they compare.
const COMPARED: &[(&[u32], &[u32], bool, Ordering)] = &[
    (&[1], &[1, 2], true, Ordering::Less),
    (&[1, 2], &[2], false, Ordering::Less),
    (&[2], &[1], false, Ordering::Greater),
    (&[1, 3], &[3, 1], true, Ordering::Equal),
    (&[3, 1], &[1, 2], false, Ordering::Greater),
    (&[3, 1], &[1, 2, 3], true, Ordering::Greater),
];

#[test]
fn sets_compared(rt: HostRuntime) -> Result<(), Fail> {
    for &(left, right, within, order) in COMPARED {
        assert!(rt; compare(rt.alloc(), left, right)? == (within, order));
    }
    Ok(())
}
