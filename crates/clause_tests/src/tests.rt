//! The tests, a module for each part.

mod deciding;
mod exports;
mod learning;
mod literals;
mod logs;
mod named;
mod propagation;
mod refutations;
mod solving;
