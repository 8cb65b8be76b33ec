//! The laws that show the notions of assumption-based frameworks to be the literature's; a slow program that decides
//! each notion from its words.
#![tactic(auto)]

pub mod aba_lists;
pub mod deciding;
pub mod laws;
mod theories;

pub use aba_lists::{AbaLists, PlainRule};
pub use deciding::{Notion, decide};
