//! What one session's log means, and what follows from it.
#![tactic(auto)]

pub mod given_laws;
pub mod import_laws;
pub mod laws;
pub mod world_laws;
