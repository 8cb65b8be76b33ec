//! How many units of work a query may take, and how many it took.

ghost use Rattle.std.specs.Prelude.{◌≡◌, ◌↔◌, ◌+◌, ◌<◌, ◌≤◌, true, false, IsTrue};
ghost use Rattle.std.specs.Bool.{OnTrue, OnFalse};

use std::marker::Model;

/// A limit and a count of units that never passes it.
#[derive(Drop)]
pub struct Budget {
    limit: u64,
    used: u64,
}

impl Model for Budget {
    ghost use Rattle.std.specs.Prelude.{◌≤◌};
    ghost use Rattle.plain_lits.specs.Units.{Units};

    ghost Value = { Units };

    ghost view = { λ b. record { limit = b.limit; used = b.used } };

    ghost invariant = { λ b. b.used ≤ b.limit };
}

impl Budget {
    /// A budget of which nothing is used.
    pub fn new(limit: u64) -> Budget
        ensures limit { result.limit ≡ limit }
        ensures used { result.used ≡ 0 }
    {
        Budget { limit, used: 0 }
    }

    /// How many units are used, which is at most the limit.
    pub fn used(&self) -> u64
        ensures used { result ≡ self.now.used }
        ensures within { self.now.used ≤ self.now.limit }
    {
        self.used
    }

    /// The limit.
    pub fn limit(&self) -> u64
        ensures limit { result ≡ self.now.limit }
        ensures within { self.now.used ≤ self.now.limit }
    {
        self.limit
    }

    /// Takes one unit and answers true, or answers false where the limit is used up.
    pub fn spend(&mut self) -> bool
        ensures spent { OnTrue result (self.new.used ≡ self.old.used + 1) }
        ensures empty { (result ≡ false) ↔ (self.old.used ≡ self.old.limit) }
        ensures kept { OnFalse result (self.new.used ≡ self.old.used) }
        ensures limit { self.new.limit ≡ self.old.limit }
        ensures within { self.new.used ≤ self.new.limit }
    {
        let left = self.limit - self.used;
        if left == 0 {
            return false;
        }
        self.used += 1;
        true
    }
}
