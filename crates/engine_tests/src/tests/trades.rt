//! What an engine takes from a trade during a query.

use crate::tests::engines::af_engine;
use certificate_making::ReadLog;
use iccma_tasks::{Query, Task};
use lists::{Items, Memory};
use meaning_atoms::{AfAxiom, AxiomName};
use oracle_core::Engine;
use oracle_face::{ClauseTrade, Entry, EntryName, NoTrade};
use plain_lits::{Budget, StepId};
use std::alloc::Global;
use std::test::Fail;

/// A trade that gives one axiom of another session, once, and doesn't tell that it does.
#[derive(Drop)]
struct OneAxiom {
    alloc: Global,
    rule: Option<AxiomName>,
    given: Items<Entry>,
}

impl ClauseTrade for OneAxiom {
    ghost use Rattle.std.specs.Prelude.{false, None};

    ghost keeps = { λ _. false };

    ghost left = { λ _. None };

    ghost gave = { λ t. t.given };

    ghost follows = { λ _ _. Unit {0} };

    fn offer(&mut self, _entry: Entry) -> Result<bool, Entry> {
        Ok(false)
    }

    fn take(&mut self) -> Result<Option<Entry>, Memory> {
        let Some(rule) = self.rule.take() else {
            return Ok(None);
        };
        if !rule.is_name() {
            return Ok(None);
        }
        let name = EntryName {
            session: 2,
            step: StepId::new(7),
        };
        let entry = Entry::of_axiom(self.alloc, rule, name)?;
        self.given.push(entry.copy(self.alloc)?)?;
        Ok(Some(entry))
    }

    ghost stays = { λ _. tt };

    ghost joins = { λ _ _ _ _ _. tt };
}

/// Whether a query for a stable set is answered with this trade.
fn answers<T: ClauseTrade>(alloc: Global, engine: &mut Engine, trade: &mut T) -> Option<bool> {
    let query = Query::new(Task::read(b"SE-ST").ok()?, None)?;
    let mut budget = Budget::new(1_000_000);
    let end = engine.answer(alloc, &query, &mut budget, 10, trade);
    Some(end.is_ok())
}

/// How many steps of the log there are after that query.
fn steps_after<T: ClauseTrade>(alloc: Global, trade: &mut T) -> Option<usize> {
    let mut engine = af_engine(alloc, &[1, 2, 3], &[(1, 2), (2, 3), (3, 1)], 1_000_000)?;
    let answered = answers(alloc, &mut engine, trade);
    if answered == Some(true) {
        return Some(engine.len());
    }
    None
}

/// 9 is no argument of the ring, so its axiom isn't needed: it comes by the trade alone.
#[test]
fn takes_an_axiom(rt: HostRuntime) -> Result<(), Fail> {
    let alloc = rt.alloc();
    let mut trade = OneAxiom {
        alloc,
        rule: Some(AxiomName::Af(AfAxiom::A13(9))),
        given: Items::new(alloc),
    };
    let with = steps_after(alloc, &mut trade);
    let without = steps_after(alloc, &mut NoTrade);
    assert!(rt; trade.rule.is_none());
    assert!(rt; without.is_some() && with == without.map(|count| count.saturating_add(1)));
    Ok(())
}

/// 2 is an argument of the ring, so the log has its axiom already.
#[test]
fn takes_no_axiom_twice(rt: HostRuntime) -> Result<(), Fail> {
    let alloc = rt.alloc();
    let mut trade = OneAxiom {
        alloc,
        rule: Some(AxiomName::Af(AfAxiom::A13(2))),
        given: Items::new(alloc),
    };
    let with = steps_after(alloc, &mut trade);
    let without = steps_after(alloc, &mut NoTrade);
    assert!(rt; trade.rule.is_none());
    assert!(rt; with.is_some() && with == without);
    Ok(())
}
