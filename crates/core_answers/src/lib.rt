//! Which ending an answer of the core may have: tests over a session's log, each of which tells exactly what its
//! definition says.
#![tactic(auto)]

mod counts;
mod ends;
mod facts;
mod marks;
pub mod outcome;
mod pending;
mod reach;
mod refuting;
mod rest;
mod serving;
mod showing;

pub use ends::may_end;
pub use outcome::Outcome;
