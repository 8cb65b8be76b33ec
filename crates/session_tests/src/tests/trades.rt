//! What is shared while a query stands is taken before the query's next search.

use clause_pool::{Pool, PoolTrade};
use dung_notions::AfPlain;
use edit_rules::Framework;
use iccma_tasks::{Query, Task};
use lists::Memory;
use meaning_atoms::{AfAxiom, AxiomName};
use oracle_core::Engine;
use oracle_face::{ClauseTrade, Entry, EntryName};
use plain_lits::{Budget, StepId};
use std::alloc::Global;
use std::mem::forget;
use std::sync::Wait;
use std::test::Fail;

/// A trade over a pool that counts how often it is asked for an entry. Before it gives what stands there at the second
/// time, which is behind a search, session 1 shares an axiom.
#[derive(Drop)]
struct Meanwhile<'a, R: Wait> {
    rt: &'a R,
    alloc: Global,
    pool: &'a Pool,
    over: PoolTrade<'a, R>,
    asked: u32,
    /// Whether that axiom was given at that time.
    given: bool,
}

/// The name of session 1's entry.
fn shared_name() -> EntryName {
    EntryName {
        session: 1,
        step: StepId::new(7),
    }
}

/// Session 1 shares an axiom of an argument that the framework of the query lacks.
fn share<R: Wait>(rt: &R, alloc: Global, pool: &Pool) -> Result<(), Memory> {
    let entry = Entry::of_axiom(alloc, AxiomName::Af(AfAxiom::A13(9)), shared_name())?;
    match pool.share(rt, entry) {
        Ok(_token) => Ok(()),
        Err(_entry) => Err(Memory),
    }
}

/// Whether session 1's entry was given.
fn is_shared(taken: &Option<Entry>) -> bool {
    match taken {
        Some(entry) => entry.name == shared_name(),
        None => false,
    }
}

impl<'a, R: Wait> ClauseTrade for Meanwhile<'a, R> {
    ghost use Rattle.std.specs.Prelude.{◌≡◌, map, true, None};
    ghost use Rattle.std.proofs.Common.{◌∙◌, refl};
    ghost use Rattle.clause_pool.specs.Pools.{entry_of};

    ghost keeps = { λ _. true };

    ghost left = { λ _. None };

    ghost gave = { λ t. map entry_of t.over.taken };

    ghost follows = { λ before after. after.over.pool.now ≡ before.over.pool.now };

    fn offer(&mut self, entry: Entry) -> Result<bool, Entry> {
        self.over.offer(entry)
    }

    fn take(&mut self) -> Result<Option<Entry>, Memory> {
        self.asked = self.asked.saturating_add(1);
        if self.asked == 2 {
            share(self.rt, self.alloc, self.pool)?;
            let taken = self.over.take()?;
            self.given = is_shared(&taken);
            return Ok(taken);
        }
        self.over.take()
    }

    ghost stays = { λ _. refl };

    ghost joins = { λ before between after first second. second ∙ first };
}

/// Session 2 asks for a preferred set of two arguments that attack each other, which takes two searches at least.
fn ask<T: ClauseTrade>(alloc: Global, trade: &mut T) -> Result<bool, Fail> {
    let query = Query::new(Task::read(b"SE-PR")?, None).ok_or("query")?;
    let plain = AfPlain::of_lists(alloc, &[1, 2], &[(1, 2), (2, 1)])?;
    let mut engine = Engine::new(alloc, 2, Framework::Af(plain), 1_000_000)?;
    let mut budget = Budget::new(1_000);
    let end = engine.answer(alloc, &query, &mut budget, 10, trade);
    forget(engine);
    Ok(end.is_ok())
}

/// Whether the axiom that session 1 shares between two searches of session 2 is given before the second.
fn is_given_meanwhile<R: Wait>(rt: &R, alloc: Global, pool: &Pool) -> Result<bool, Fail> {
    let mut trade = Meanwhile {
        rt,
        alloc,
        pool,
        over: PoolTrade::new(rt, alloc, pool, 0),
        asked: 0,
        given: false,
    };
    let answered = ask(alloc, &mut trade)?;
    Ok(answered && trade.given)
}

#[test]
fn shared_between_searches(rt: HostRuntime) -> Result<(), Fail> {
    let pool = Pool::open(rt.alloc())?;
    assert!(rt; is_given_meanwhile(&rt, rt.alloc(), &pool)?);
    Ok(())
}
