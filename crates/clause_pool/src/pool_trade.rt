//! A trade over a pool, for a caller that has no runtime at hand.

ghost use Rattle.std.specs.Prelude.{◌≡◌, ◌+◌, ℕ, [], ◌∷◌, ◌++◌, map, true, None, IfOk, IfErr, IfSome, OnErr, OnOk};
ghost use Rattle.oracle_face.specs.Entries.{IsShareable};
ghost use Rattle.oracle_face.specs.Trades.{GivesMore};
ghost use Rattle.clause_pool.specs.Pools.{AreInRow, AreTokensOf, HoldsMore, IsTokenOf, entry_of, index_of};

use crate::pool::Pool;
use crate::pooled::Token;
use lists::{Items, Memory};
use oracle_face::{ClauseTrade, Entry};
use std::alloc::Global;
use std::sync::Wait;

/// Hands entries to a pool, and takes those that stand in it from an index on, as they come. It doesn't tell what it has
/// left to give, since other threads add to the pool. It keeps a token of the pool for each entry that it gave: by these
/// it tells what it gave.
#[derive(Drop)]
pub struct PoolTrade<'a, R: Wait> {
    rt: &'a R,
    alloc: Global,
    pool: &'a Pool,
    /// The index of the next entry to give.
    next: u64,
    /// The tokens of the entries that it gave.
    taken: Items<Token>,
}

impl<'a, R: Wait> PoolTrade<'a, R> {
    /// A trade that gives the pool's entries from an index on, and has given none yet.
    pub fn new(rt: &'a R, alloc: Global, pool: &'a Pool, from: u64) -> PoolTrade<'a, R>
        ensures next { result.next ≡ from }
        ensures pool { result.pool.now ≡ pool.now }
        ensures taken { result.taken ≡ [] }
    {
        PoolTrade {
            rt,
            alloc,
            pool,
            next: from,
            taken: Items::new(alloc),
        }
    }

    /// The index of the next entry to give.
    pub fn next(&self) -> u64
        ensures { result ≡ self.now.next }
    {
        self.next
    }

    /// The tokens of the entries that it gave, first to last.
    pub fn into_taken(self) -> Items<Token>
        ensures { result ≡ self.entry.taken }
    {
        self.taken
    }
}

/// Adds a token of the pool behind others.
fn keep(pool: &Pool, tokens: &mut Items<Token>, token: Token) -> Result<(), Memory>
    requires { IsTokenOf pool.now token }
    ensures ok { OnOk result (tokens.new ≡ tokens.old ++ token ∷ []) }
    ensures err { OnErr result (tokens.new ≡ tokens.old) }
    ensures shown { AreTokensOf pool.now tokens.old → AreTokensOf pool.now tokens.new }
    ensures row { OnOk result ((first : ℕ) → AreInRow first tokens.old (index_of token)
        → AreInRow first tokens.new (index_of token + 1)) }
{
    tokens.push(token)?;
    Ok(())
}

impl<'a, R: Wait> ClauseTrade for PoolTrade<'a, R> {
    ghost use Rattle.std.specs.Prelude.{map, true, None};
    ghost use Rattle.std.proofs.Common.{◌∙◌, refl, subst, sym};
    ghost use Rattle.clause_pool.specs.Pools.{AreTokensOf, HoldsMore, entry_of};

    ghost keeps = { λ _. true };

    ghost left = { λ _. None };

    ghost gave = { λ t. map entry_of t.taken };

    ghost follows = { λ before after. HoldsMore before.pool.now before.taken before.next after.pool.now after.taken
        after.next };

    fn offer(&mut self, entry: Entry) -> Result<bool, Entry>
        requires { IsShareable entry }
        ensures kept { IfOk result (λ kept. kept ≡ true) }
        ensures back { IfErr result (λ back. back ≡ entry) }
        ensures next { self.new.next ≡ self.old.next }
        ensures taken { self.new.taken ≡ self.old.taken }
        ensures follows { HoldsMore self.old.pool.now self.old.taken self.old.next self.new.pool.now self.new.taken
            self.new.next }
    {
        let _token = self.pool.share(self.rt, entry)?;
        Ok(true)
    }

    /// Gives the entry at the next index. None comes only where none is found there, and stays for the next call.
    fn take(&mut self) -> Result<Option<Entry>, Memory>
        ensures shareable { IfOk result (λ taken. IfSome taken IsShareable) }
        ensures nothing { IfOk result (λ taken. taken ≡ None → self.new.next ≡ self.old.next) }
        ensures given { IfOk result (λ taken. IfSome taken (λ _. self.new.next ≡ self.old.next + 1)) }
        ensures err { OnErr result (self.new.next ≡ self.old.next) }
        ensures gave { GivesMore (map entry_of self.old.taken) result (map entry_of self.new.taken) }
        ensures follows { HoldsMore self.old.pool.now self.old.taken self.old.next self.new.pool.now self.new.taken
            self.new.next }
    {
        let Some(after) = self.next.checked_add(1) else {
            return Ok(None);
        };
        let Some(token) = self.pool.token_at(self.next) else {
            return Ok(None);
        };
        let entry = self.pool.fetch(&token).copy(self.alloc)?;
        keep(self.pool, &mut self.taken, token)?;
        self.next = after;
        Ok(Some(entry))
    }

    ghost stays = { λ _. record { same = refl; own = λ are. are; row = λ first are. are } };

    ghost joins = { λ before between after first second. record {
      same = second.same ∙ first.same;
      own = λ are. subst (λ pool. AreTokensOf pool after.taken) first.same
          (second.own (subst (λ pool. AreTokensOf pool between.taken) (sym first.same) (first.own are)));
      row = λ from are. second.row from (first.row from are);
    } };
}
