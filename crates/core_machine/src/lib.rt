//! The core of a server: all that its sessions do, as steps of one value, and what holds of every run of it.
#![tactic(auto)]

pub mod laws;
