//! The loop clause of what is unfounded: that atoms of which each is derived only by way of another do not follow.
#![tactic(auto)]

mod axiom;
pub mod laws;

pub use axiom::loop_axiom;
