//! The pool of clauses that sessions share without a lock.
#![tactic(auto)]

pub mod pool;
pub mod pool_trade;
pub mod pooled;

pub use pool::Pool;
pub use pool_trade::PoolTrade;
pub use pooled::{Import, Pooled, Token};
