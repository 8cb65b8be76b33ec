//! What a turn does with the history.

ghost use Rattle.std.specs.Prelude.{◌≡◌, ◌≤◌, ◌+◌, [], length, drop, IfErr, IfOk, OnErr};
ghost use Rattle.edit_rules.specs.Kinds.{framework_of};
ghost use Rattle.turn_lock.specs.Turns.{Continues};
ghost use Rattle.edit_history.specs.Entries.{FaultSays, IsAdded, edit_count, session_of};
ghost use Rattle.edit_history.specs.Journals.{history_of, opening_of};

use crate::entry::Change;
use crate::fault::{CommitFault, fault_at};
use crate::journal::Journal;
use edit_groups::apply_group;
use edit_rules::{Edit, Effect, Framework};
use lists::{Items, Memory};
use std::alloc::Global;

impl Journal {
    /// An empty history over a framework.
    pub(crate) fn new(alloc: Global, framework: Framework, limit: u64) -> Result<Journal, Memory>
        ensures opening { IfOk result (λ journal. opening_of journal ≡ (framework, limit)) }
        ensures empty { IfOk result (λ journal. history_of journal ≡ []) }
    {
        let opening = framework.copy(alloc)?;
        Ok(Journal {
            opening,
            limit,
            framework,
            changes: Vec::new(alloc),
            count: 0,
        })
    }

    /// Adds a group of edits to the history, if there is room and the framework after the history takes it. After
    /// `Err` the history is as it was. Attacks come or go in place; for every other group the time is linear in the
    /// framework.
    pub(crate) fn commit(
        &mut self,
        alloc: Global,
        session: u32,
        edits: &[Edit],
    ) -> Result<Items<Effect>, CommitFault>
        ensures opening { opening_of self.new ≡ opening_of self.old }
        ensures continued { Continues session_of session (history_of self.old) (history_of self.new) }
        ensures ok { IfOk result (IsAdded self.old.limit (framework_of self.old.opening) session edits.now
            (history_of self.old) (history_of self.new)) }
        ensures err { OnErr result (history_of self.new ≡ history_of self.old) }
        ensures fault { IfErr result (FaultSays self.old.limit (framework_of self.old.opening) (history_of self.old)
            edits.now) }
    {
        let front = self.changes.len() as u64;
        let room = self.limit - self.count;
        if edits.len() as u64 > room {
            return Err(CommitFault::HistoryFull(front));
        }
        self.add(alloc, session, edits, front)
    }

    /// Adds a group of edits for which there is room.
    fn add(
        &mut self,
        alloc: Global,
        session: u32,
        edits: &[Edit],
        front: u64,
    ) -> Result<Items<Effect>, CommitFault>
        requires room { edit_count (history_of self.old) + length edits.now ≤ self.old.limit }
        requires front { front ≡ length (history_of self.old) }
        ensures opening { opening_of self.new ≡ opening_of self.old }
        ensures continued { Continues session_of session (history_of self.old) (history_of self.new) }
        ensures ok { IfOk result (IsAdded self.old.limit (framework_of self.old.opening) session edits.now
            (history_of self.old) (history_of self.new)) }
        ensures err { OnErr result (history_of self.new ≡ history_of self.old) }
        ensures fault { IfErr result (FaultSays self.old.limit (framework_of self.old.opening) (history_of self.old)
            edits.now) }
    {
        // Room comes first: behind the edits nothing may fail, since nothing would take them back.
        self.changes.reserve(1)?;
        let effects = match apply_group(alloc, &mut self.framework, edits) {
            Ok(effects) => effects,
            Err(fault) => return Err(fault_at(fault, front)),
        };
        self.count += edits.len() as u64;
        self.changes.push_reserved(Change {
            session,
            effects: effects.kept,
        });
        Ok(effects.told)
    }

    /// The entries after the first `from`, each with its effects.
    pub(crate) fn changes_from(&self, alloc: Global, from: u64) -> Result<Items<Change>, Memory>
        requires { from ≤ length self.now.changes.items }
        ensures { IfOk result (λ changes. changes ≡ drop from self.now.changes.items) }
    {
        let mut changes = Items::new(alloc);
        for change in &self.changes[from as usize..] {
            changes.push(change.copy(alloc)?)?;
        }
        Ok(changes)
    }
}
