//! Which variable is decided next: contracts say nothing of this advice.

use crate::tests::named::lit;
use decision_order::DecisionOrder;
use lists::Memory;
use std::alloc::Global;
use std::test::Fail;

/// Of four variables the last isn't worth deciding; 1 is first true.
fn three_named(alloc: Global) -> Result<DecisionOrder, Memory> {
    let mut order = DecisionOrder::new(alloc);
    order.make_room(4)?;
    order.declare(lit(0, false));
    order.declare(lit(1, true));
    order.declare(lit(2, false));
    Ok(order)
}

/// 1 stood in a later conflict than 2, and 0 in none.
#[test]
fn most_active_first(rt: HostRuntime) -> Result<(), Fail> {
    let mut order = three_named(rt.alloc())?;
    order.bump(2);
    order.decay();
    order.bump(1);
    order.bump(3);
    assert!(rt; order.pop() == Some(lit(1, true)));
    assert!(rt; order.pop() == Some(lit(2, false)));
    assert!(rt; order.pop() == Some(lit(0, false)));
    assert!(rt; order.pop().is_none());
    Ok(())
}

/// What is raised comes before what waits, the last one first; 3 isn't worth deciding all the same.
#[test]
fn raised_first(rt: HostRuntime) -> Result<(), Fail> {
    let mut order = three_named(rt.alloc())?;
    order.bump(1);
    order.raise_to_top(0);
    order.raise_to_top(2);
    order.raise_to_top(3);
    assert!(rt; order.pop() == Some(lit(2, false)));
    assert!(rt; order.pop() == Some(lit(0, false)));
    assert!(rt; order.pop() == Some(lit(1, true)));
    assert!(rt; order.pop().is_none());
    Ok(())
}

/// A released variable comes again, with the value that it had.
#[test]
fn phases(rt: HostRuntime) -> Result<(), Fail> {
    let mut order = three_named(rt.alloc())?;
    order.bump(1);
    assert!(rt; order.pop() == Some(lit(1, true)));
    order.release(lit(1, false));
    order.release(lit(3, true));
    assert!(rt; order.pop() == Some(lit(1, false)));
    assert!(rt; order.phase(3) && !order.phase(4));
    order.reset_phases();
    assert!(rt; order.phase(1) && !order.phase(3));
    Ok(())
}
