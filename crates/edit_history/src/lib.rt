//! One history of edits that several sessions share: each commit and each refresh is one turn of a lock, so all calls
//! stand in one order, and each sees what those before it left (M. Herlihy, J. Wing, "Linearizability: a correctness
//! condition for concurrent objects", ACM Transactions on Programming Languages and Systems 12 (1990)).
#![tactic(auto)]

mod commits;
pub mod entry;
pub mod fault;
pub mod hub;
pub mod journal;
pub mod server;

pub use entry::{Change, HistoryEntry};
pub use fault::CommitFault;
pub use hub::{Committed, Fresh, GroupCommitted, History, Hub, Seat};
pub use journal::Journal;
pub use server::{Server, ServerRefused};
