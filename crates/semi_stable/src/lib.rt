//! Sets with widest ranges: stage sets among the conflict-free ones, semi-stable sets among the admissible ones.
#![tactic(auto)]

pub mod widest;

pub use widest::{Widest, oblige_wider, widest_in};
