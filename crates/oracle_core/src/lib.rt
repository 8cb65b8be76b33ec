//! Answers to queries, each with the certificate that shows it, and the engine that searches for them.
#![tactic(auto)]

mod answering;
mod by_grounded;
pub mod engine;
pub mod reply;
pub mod sharing;
pub(crate) mod trading;

pub use by_grounded::{answer_by_grounded, is_by_grounded};
pub use engine::Engine;
pub use reply::{AnswerStop, Answered};
