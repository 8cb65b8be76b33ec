//! What is left of a session.

use clause_pool::Token;
use lists::Items;
use oracle_core::Engine;
use oracle_face::Pending;

/// What is kept of a query that got a reply: what the log gained for it stands between two lengths.
#[derive(Drop)]
pub struct KeptAnswer {
    /// How many steps the log had before the query, with the axioms that the framework needs by then.
    pub before: u64,
    /// How many it had behind the query.
    pub after: u64,
    /// Where the budget was spent, the clause that was in hand.
    pub pending: Option<Pending>,
    /// The pool's tokens of the entries that it gave for the query.
    pub tokens: Items<Token>,
}

/// An engine with its log, and where in the log each query's work stands.
pub struct Kept {
    pub engine: Engine,
    pub answers: Vec<KeptAnswer>,
}

// By hand, so that a drop is one call (docs/PROVING.md).
impl Drop for Kept {
    fn drop(self) {
        let Self { engine, answers } = self;
    }
}
