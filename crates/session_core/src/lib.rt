//! One user's session at the server: a seat at the hub of one history of edits, and an engine that follows that history
//! and is kept from one query to the next.
#![tactic(auto)]

pub mod answering;
mod asks;
mod edits;
mod following;
pub mod kept;
pub mod laws;
pub mod session;

pub use kept::{Kept, KeptAnswer};
pub use session::Session;
