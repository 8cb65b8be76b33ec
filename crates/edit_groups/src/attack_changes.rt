//! What the first edits of a group do to the attacks of a framework, before the framework is changed.

ghost use Rattle.std.specs.Prelude.{◌≡◌, ℕ, None, OnOk};
ghost use Rattle.edit_groups.specs.Changes.{IsNoted, there_in, told_of};
ghost use Rattle.edit_rules.specs.Pairs.{has_pair};

use dung_notions::AfPlain;
use indexmap::IndexMap;
use lists::Memory;
use std::alloc::Global;

/// The attacks that edits name, each with whether it is there behind them.
pub struct AttackChanges {
    pub(crate) there: IndexMap<(u32, u32), bool>,
}

// By hand, so that a drop is one call (docs/PROVING.md).
impl Drop for AttackChanges {
    fn drop(self) {
        let AttackChanges { there: _ } = self;
    }
}

impl AttackChanges {
    /// No change, which takes no memory.
    pub(crate) fn new(alloc: Global) -> AttackChanges
        ensures { (p : ℕ × ℕ) → told_of result p ≡ None }
    {
        AttackChanges {
            there: IndexMap::new(alloc),
        }
    }

    /// Whether the attack of a pair is there behind the edits, where they name it.
    pub(crate) fn find(&self, pair: (u32, u32)) -> Option<bool>
        ensures { result ≡ told_of self.now pair }
    {
        self.there.get(&pair).copied()
    }

    /// Notes whether the attack of a pair is there.
    pub(crate) fn note(&mut self, pair: (u32, u32), there: bool) -> Result<(), Memory>
        ensures { OnOk result (IsNoted pair there self.old self.new) }
    {
        self.there.insert(pair, there)?;
        Ok(())
    }
}

/// Whether the attack of a pair is there in a framework behind the edits.
pub(crate) fn is_there(plain: &AfPlain, changes: &AttackChanges, pair: (u32, u32)) -> bool
    ensures { result ≡ there_in plain.now.attacks pair (told_of changes.now pair) }
{
    match changes.find(pair) {
        Some(there) => there,
        None => has_attack(plain, pair),
    }
}

/// Whether a framework has the attack of a pair.
pub(crate) fn has_attack(plain: &AfPlain, pair: (u32, u32)) -> bool
    ensures { result ≡ has_pair plain.now.attacks pair }
{
    plain.has_attack(pair.0, pair.1)
}
