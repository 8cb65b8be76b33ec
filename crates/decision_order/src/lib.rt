//! Which variable a search decides next, and with which value: by activity, with saved phases.
#![tactic(auto)]

mod heap;
mod order;

pub use order::DecisionOrder;
