//! The machine of the core takes an event that is a step, and refuses any other.

use core_events::{Event, Machine, Origin, StepStop};
use dung_notions::AfPlain;
use edit_rules::{Edit, Framework};
use lists::{Items, Memory};
use meaning_atoms::{AfAxiom, Atom, AtomLit, AxiomName, list, no, yes};
use plain_lits::StepId;
use std::alloc::Global;
use std::test::Fail;

/// Session 1 learns that 1 is live, by the step of a number.
fn learns_live(alloc: Global, number: u32) -> Result<Event, Memory> {
    let live = AtomLit {
        atom: Atom::Live(1),
        positive: true,
    };
    let clause = Vec::from_slice(alloc, &[live])?;
    let hints = Vec::from_slice(alloc, &[StepId::new(number)])?;
    Ok(Event::Learn {
        session: 1,
        clause: Items::from_vec(clause),
        origin: Origin::Hints(Items::from_vec(hints)),
        closing: false,
    })
}

/// A machine over two frameworks: session 1 is on the first, session 2 on the second.
fn over(alloc: Global, first: AfPlain, second: AfPlain) -> Result<Machine, Memory> {
    let frameworks = vec![in alloc; Framework::Af(first), Framework::Af(second)]?;
    Machine::open(alloc, Items::from_vec(frameworks), &[1, 2], 10, 100)
}

/// The machine for 1 and 2, which attack each other, and 3, which 2 attacks; and for 1, which 2 attacks.
fn opened(alloc: Global) -> Option<Machine> {
    let first = AfPlain::of_lists(alloc, &[1, 2, 3], &[(1, 2), (2, 1), (2, 3)]).ok()?;
    let second = AfPlain::of_lists(alloc, &[1, 2], &[(2, 1)]).ok()?;
    over(alloc, first, second).ok()
}

/// A session learns that a member is in the range, for the argument 3.
fn learns_range(alloc: Global, session: u32) -> Result<Event, Memory> {
    Ok(Event::Learn {
        session,
        clause: list(alloc, [no(Atom::Member(3)), yes(Atom::Range(3))])?,
        origin: Origin::Axiom(AxiomName::Af(AfAxiom::A12(3))),
        closing: false,
    })
}

/// Session 1 hands its first step to the pool.
fn shares_first() -> Event {
    Event::Share {
        session: 1,
        step: StepId::new(1),
        index: 0,
    }
}

/// A session takes what the pool has first.
fn takes_first(session: u32) -> Event {
    Event::Import { session, index: 0 }
}

/// What comes of an event on a machine that is just opened.
fn comes(alloc: Global, event: &Event) -> Option<Result<(), StepStop>> {
    let mut machine = opened(alloc)?;
    Some(machine.step(alloc, event))
}

/// An attack is added; the drop of one that isn't there is a turn too, which adds nothing; no edit is no group; no log
/// has a step yet that a hint could name.
#[test]
fn takes_steps_alone(rt: HostRuntime) -> Result<(), Fail> {
    let alloc = rt.alloc();
    let learns = learns_live(alloc, 1)?;
    let adds = Items::from_vec(vec![in alloc; Edit::AttackAdd(3, 1)]?);
    let drops = Items::from_vec(vec![in alloc; Edit::AttackDrop(3, 1)]?);
    assert!(rt; comes(alloc, &Event::Commit(1, adds)) == Some(Ok(())));
    assert!(rt; comes(alloc, &Event::Commit(1, drops)) == Some(Ok(())));
    assert!(rt;
        comes(alloc, &Event::Commit(1, Items::new(alloc))) == Some(Err(StepStop::NotAStep))
    );
    assert!(rt; comes(alloc, &learns) == Some(Err(StepStop::NotAStep)));
    Ok(())
}

/// A clause that session 1 learned and shared on the first framework is taken in by session 2 on the second, which has
/// no argument 3 and where session 2 couldn't learn it.
#[test]
fn shares_over_frameworks(rt: HostRuntime) -> Result<(), Fail> {
    let alloc = rt.alloc();
    assert!(rt; comes(alloc, &learns_range(alloc, 2)?) == Some(Err(StepStop::NotAStep)));
    let Some(mut machine) = opened(alloc) else {
        return Ok(());
    };
    assert!(rt; machine.step(alloc, &takes_first(2)) == Err(StepStop::NotAStep));
    assert!(rt; machine.step(alloc, &learns_range(alloc, 1)?) == Ok(()));
    assert!(rt; machine.step(alloc, &shares_first()) == Ok(()));
    assert!(rt; machine.step(alloc, &takes_first(2)) == Ok(()));
    Ok(())
}

/// A session that is on no framework has no step.
#[test]
fn refuses_sessions_without_framework(rt: HostRuntime) -> Result<(), Fail> {
    let alloc = rt.alloc();
    assert!(rt; comes(alloc, &Event::Refresh(0)) == Some(Err(StepStop::NotAStep)));
    assert!(rt; comes(alloc, &Event::Refresh(2)) == Some(Ok(())));
    assert!(rt; comes(alloc, &Event::Refresh(3)) == Some(Err(StepStop::NotAStep)));
    Ok(())
}
