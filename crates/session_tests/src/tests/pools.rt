//! Entries come and go through a pool and through the trades.

use clause_pool::{Pool, PoolTrade};
use lists::Memory;
use meaning_atoms::{AfAxiom, AxiomName};
use oracle_face::{ClauseTrade, Entry, EntryName, NoTrade};
use plain_lits::StepId;
use std::alloc::Global;
use std::sync::Wait;
use std::test::Fail;

/// Whether an entry that is shared is fetched as it was.
fn is_fetched<R: Wait>(rt: &R, alloc: Global, pool: &Pool) -> Result<bool, Memory> {
    let name = EntryName {
        session: 1,
        step: StepId::new(3),
    };
    let entry = Entry::of_axiom(alloc, AxiomName::Af(AfAxiom::A6(1, 1)), name)?;
    let copy = entry.copy(alloc)?;
    match pool.share(rt, entry) {
        Ok(token) => Ok(*pool.fetch(&token) == copy),
        Err(_entry) => Ok(false),
    }
}

/// Whether all of a pool is one entry.
fn has_one(alloc: Global, pool: &Pool) -> Result<bool, Memory> {
    let import = pool.import(alloc, 0)?;
    Ok(import.next == 1 && import.entries.len() == 1)
}

#[test]
fn shared_and_found(rt: HostRuntime) -> Result<(), Fail> {
    let pool = Pool::open(rt.alloc())?;
    assert!(rt; is_fetched(&rt, rt.alloc(), &pool)?);
    assert!(rt; has_one(rt.alloc(), &pool)?);
    Ok(())
}

/// Whether a trade over a pool without entries has none, takes one, gives it, and goes on behind it. No trade keeps it.
fn gives_what_it_took<R: Wait>(
    alloc: Global,
    trade: &mut PoolTrade<'_, R>,
) -> Result<bool, Memory> {
    let name = EntryName {
        session: 2,
        step: StepId::new(1),
    };
    let empty = trade.take()?.is_none();
    let entry = Entry::of_axiom(alloc, AxiomName::Af(AfAxiom::A1(7)), name)?;
    let offered = trade.offer(entry).ok() == Some(true) && trade.next() == 0;
    let Some(taken) = trade.take()? else {
        return Ok(false);
    };
    let named = taken.name == name && trade.next() == 1;
    let refused = NoTrade.offer(taken).ok() == Some(false);
    Ok(empty && offered && named && refused)
}

/// The same of a pool.
fn trades<R: Wait>(rt: &R, alloc: Global, pool: &Pool) -> Result<bool, Memory> {
    let mut trade = PoolTrade::new(rt, alloc, pool, 0);
    gives_what_it_took(alloc, &mut trade)
}

#[test]
fn traded(rt: HostRuntime) -> Result<(), Fail> {
    let pool = Pool::open(rt.alloc())?;
    assert!(rt; trades(&rt, rt.alloc(), &pool)?);
    assert!(rt; NoTrade.take()?.is_none());
    Ok(())
}
