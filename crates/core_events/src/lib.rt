//! The core of a server as a program: a machine that takes each event that is a step of the core, and refuses any other.
#![tactic(auto)]

pub mod answering;
pub mod at_hand;
pub mod event;
pub mod history;
pub mod laws;
pub mod log_events;
pub mod machine;
pub mod naming;
pub mod needs;
pub mod places;
pub mod seats;
pub mod sharing;
pub mod stop;

pub use event::{Event, Origin};
pub use machine::Machine;
pub use stop::StepStop;
