//! The history under the lock, with the framework that its edits have made.

ghost use Rattle.std.specs.Prelude.{◌≡◌, ◌≤◌};
ghost use Rattle.edit_rules.specs.Kinds.{framework_of};
ghost use Rattle.edit_history.specs.Entries.{AreDone, edit_count, entries_in, framework_after};

use crate::entry::{Change, HistoryEntry};
use edit_rules::Framework;
use turn_lock::Turned;

/// A history of groups of edits over an opening framework, of at most `limit` edits, with the framework after all of
/// them, and how many they are.
pub struct Journal {
    pub(crate) opening: Framework,
    pub(crate) limit: u64,
    pub(crate) framework: Framework,
    pub(crate) changes: Vec<Change>,
    pub(crate) count: u64,
    ghost counted: { count ≡ edit_count (entries_in changes.items) },
    ghost within: { edit_count (entries_in changes.items) ≤ limit },
    ghost done: { AreDone (framework_of opening) changes.items },
    ghost replayed: { framework_of framework ≡ framework_after (framework_of opening) (entries_in changes.items) },
}

impl Drop for Journal {
    fn drop(self) {
        let Journal {
            opening: _,
            limit: _,
            framework: _,
            changes: _,
            count: _,
        } = self;
    }
}

impl Journal {
    /// The framework at the beginning and the changes. It takes no memory.
    pub(crate) fn into_parts(self) -> (Framework, Vec<Change>)
        ensures opening { result.0 ≡ self.opening }
        ensures changes { result.1 ≡ self.changes }
    {
        let Journal {
            opening,
            limit: _,
            framework: _,
            changes,
            count: _,
        } = self;
        (opening, changes)
    }
}

impl Turned for Journal {
    ghost use Rattle.edit_history.specs.Entries.{session_of};
    ghost use Rattle.edit_history.specs.Journals.{history_of, opening_of};

    type Opening = (Framework, u64);

    type Entry = HistoryEntry;

    ghost opening = { opening_of };

    ghost history = { history_of };

    ghost number = { session_of };

    fn entries(&self) -> u64 {
        self.changes.len() as u64
    }
}
