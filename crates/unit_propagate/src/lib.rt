//! Propagation of unit clauses, by two watched literals a clause.
#![tactic(auto)]

mod adding;
mod propagator;
mod watch_state;

pub use propagator::{Propagated, Propagator};
