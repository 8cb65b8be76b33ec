//! What a script comes to.

use clause_pool::Pool;
use edit_history::History;
use lists::Items;
use session_core::Kept;
use session_replies::Reply;

/// The history that the sessions of a script made, what each of them was told and keeps, and what they shared. The
/// sessions are those from 1 to the greatest that the script names; each has its item in both lists.
pub struct ScriptTranscript {
    /// The framework at the beginning, and the groups of edits that were taken, in order.
    pub history: History,
    /// The replies of each session, in the order of its lines.
    pub replies: Vec<Items<Reply>>,
    /// The engine of each session, and the course of each of its queries.
    pub kept: Vec<Kept>,
    /// The clauses that the sessions shared.
    pub pool: Pool,
}

// By hand, so that a drop is one call (docs/PROVING.md).
impl Drop for ScriptTranscript {
    fn drop(self) {
        let ScriptTranscript {
            history: _,
            replies: _,
            kept: _,
            pool: _,
        } = self;
    }
}
