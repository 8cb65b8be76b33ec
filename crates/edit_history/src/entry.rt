//! What a history is made of.

ghost use Rattle.std.specs.Prelude.{◌≡◌, IfOk};

use edit_groups::copy_effects;
use edit_rules::{Edit, Effect};
use lists::{Items, Memory};
use std::alloc::Global;

/// One entry of a history, as contracts name it: a group of edits that was taken whole.
#[derive(Drop)]
pub struct HistoryEntry {
    /// The number of the session that committed the group.
    pub session: u32,
    /// Its edits.
    pub edits: Items<Edit>,
}

/// One entry of a history with what it did. The effects have the entry's edits.
#[derive(Drop)]
pub struct Change {
    /// The number of the session that committed the group.
    pub session: u32,
    /// What each edit of the group did to the framework after the edits before it.
    pub effects: Items<Effect>,
}

impl Change {
    /// The same change again.
    pub fn copy(&self, alloc: Global) -> Result<Change, Memory>
        ensures { IfOk result (λ copy. copy ≡ self.now) }
    {
        let effects = copy_effects(alloc, self.effects.as_slice())?;
        Ok(Change {
            session: self.session,
            effects,
        })
    }
}
