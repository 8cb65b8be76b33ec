//! Lists and bytes, and equality of lists through its bound.

use lists::{Bytes, Items, Memory};
use std::alloc::AllocError;
use std::test::Fail;

#[test]
fn numbers_in_order(rt: HostRuntime) -> Result<(), Fail> {
    let mut numbers = Items::new(rt.alloc());
    assert!(rt; numbers.is_empty());
    numbers.push(3u32)?;
    numbers.push(1)?;
    assert!(rt; !numbers.is_empty() && numbers.len() == 2);
    assert!(rt; numbers.as_slice() == [3, 1].as_slice());
    assert!(rt; numbers.into_vec().as_slice() == [3, 1].as_slice());
    Ok(())
}

#[test]
fn lists_that_are_equal(rt: HostRuntime) -> Result<(), Fail> {
    let numbers = Items::from_vec([3, 1].to_vec(rt.alloc())?);
    let same = Items::from_vec([3, 1].to_vec(rt.alloc())?);
    let other = Items::from_vec([1, 3].to_vec(rt.alloc())?);
    assert!(rt; numbers == same && numbers != other);
    Ok(())
}

#[test]
fn pairs_in_order(rt: HostRuntime) -> Result<(), Fail> {
    let mut pairs = Items::new(rt.alloc());
    pairs.push((1u8, true))?;
    pairs.push((2, false))?;
    assert!(rt; pairs.as_slice() == [(1, true), (2, false)].as_slice());
    let again = Items::from_vec([(1u8, true), (2, false)].to_vec(rt.alloc())?);
    assert!(rt; pairs == again);
    Ok(())
}

#[test]
fn bytes_in_order(rt: HostRuntime) -> Result<(), Fail> {
    let mut text = Bytes::new(rt.alloc());
    assert!(rt; text.is_empty());
    text.extend(b"w 1")?;
    text.extend(b" 3\n")?;
    assert!(rt; text.len() == 6 && text.as_slice() == b"w 1 3\n".as_slice());
    let again = Bytes::from_vec(b"w 1 3\n".to_vec(rt.alloc())?);
    assert!(rt; text.as_slice() == again.as_slice());
    Ok(())
}

#[test]
fn refused_allocations(rt: HostRuntime) {
    assert!(rt; Memory::from(AllocError) == Memory);
}
