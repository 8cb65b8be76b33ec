//! How clauses come and go during a query.

ghost use Rattle.std.specs.Prelude.{◌≡◌, IfOk, IfErr, IfSome};
ghost use Rattle.oracle_face.specs.Entries.{IsShareable};
ghost use Rattle.oracle_face.specs.Trades.{GivesFirst, GivesMore};

use crate::entry::Entry;
use lists::Memory;

/// What a query hands clauses to, and takes them from. A trade means the list of what it gave, and the list that it has
/// left to give, where it tells it: a trade with other threads doesn't.
pub trait ClauseTrade {
    ghost use Rattle.std.specs.Prelude.{Bool, List, Option};
    ghost use Rattle.oracle_face.specs.declared.entry.Entry.{Entry};

    /// Whether the trade keeps the entries that it is offered.
    ghost keeps: { Self → Bool };
    /// The entries that it has left to give, first to last, where it tells them.
    ghost left: { Self → Option (List Entry) };
    /// The entries that it gave so far, first to last.
    ghost gave: { Self → List Entry };
    /// Whatever else a trade promises of its state after a call and before it. Who calls it more than once keeps it, by
    /// the two laws below.
    ghost follows: { Self → Self → Type 0 };

    /// Hands an entry over. The answer is false exactly where the trade keeps no entries. Err hands the entry back for
    /// want of memory. What is left to give stays.
    fn offer(&mut self, entry: Entry) -> Result<bool, Entry>
        requires { IsShareable entry }
        ensures kept { IfOk result (λ kept. kept ≡ keeps self.old) }
        ensures back { IfErr result (λ back. back ≡ entry) }
        ensures keeps { keeps self.new ≡ keeps self.old }
        ensures left { left self.new ≡ left self.old }
        ensures gave { gave self.new ≡ gave self.old }
        ensures follows { follows self.old self.new };

    /// Gives the first entry that is left. None comes exactly where the list is told and empty, or where a trade that
    /// doesn't tell it found nothing. After `Memory` the list is as before.
    fn take(&mut self) -> Result<Option<Entry>, Memory>
        ensures shareable { IfOk result (λ taken. IfSome taken IsShareable) }
        ensures first { GivesFirst (left self.old) result (left self.new) }
        ensures gave { GivesMore (gave self.old) result (gave self.new) }
        ensures keeps { keeps self.new ≡ keeps self.old }
        ensures follows { follows self.old self.new };

    /// What is promised holds where nothing is called.
    ghost stays: { (t : Self) → follows t t };

    /// What is promised of two calls, one after the other, is promised of both.
    ghost joins: { (before between after : Self) → follows before between → follows between after
        → follows before after };
}

/// The trade that keeps nothing and gives nothing.
#[derive(Clone, Copy)]
pub struct NoTrade;

impl ClauseTrade for NoTrade {
    ghost use Rattle.std.specs.Prelude.{false, [], Some};

    ghost keeps = { λ _. false };

    ghost left = { λ _. Some [] };

    ghost gave = { λ _. [] };

    ghost follows = { λ _ _. Unit {0} };

    fn offer(&mut self, _entry: Entry) -> Result<bool, Entry> {
        Ok(false)
    }

    fn take(&mut self) -> Result<Option<Entry>, Memory> {
        Ok(None)
    }

    ghost stays = { λ _. tt };

    ghost joins = { λ _ _ _ _ _. tt };
}
