//! Answers to queries over an oracle, each with the sets and the log steps that its certificate is made of.
#![tactic(auto)]

mod all;
mod answering;
mod complete_stable;
mod evidence;
mod ideal;
mod preferred;
mod widest_sets;

pub use answering::answer;
pub use evidence::{Evidence, SearchOutcome};
