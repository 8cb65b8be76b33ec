//! Clauses, which two literals each of them watches, and the lists of those that watch a literal.
#![tactic(auto)]

mod arena;
mod finding;
mod pair;
mod picking;
mod watch_list;

pub use arena::Arena;
pub use finding::NewWatch;
pub use pair::Pair;
pub use picking::{pick, pick_second, rank_of, vars_of};
pub use watch_list::{WatchList, claim_all, code_of, grow_lists, ids_in, push_id, remove_id};
