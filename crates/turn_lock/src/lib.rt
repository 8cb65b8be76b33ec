//! A lock whose holders come in the order of their tickets, round a value that has a history: the ticket lock of
//! J. Mellor-Crummey and M. Scott, "Algorithms for scalable synchronization on shared-memory multiprocessors", ACM
//! Transactions on Computer Systems 9 (1991).
//!
//! Each user of the lock has a [`Seat`], which remembers the history as it was when the seat last had the value. A turn
//! is [`TurnLock::enter`] and [`TurnLock::leave`]. Contracts say that a seat's history is always a beginning of the
//! history that the next seat finds, and that a seat finds each of its own entries, and no other of its number. That a
//! turn comes is not promised: a seat that is dropped between `enter` and `leave` stops the lock for good.
#![tactic(auto)]

pub mod board;
mod closing;
pub mod lock;
mod opening;
mod plays;
mod ranks;
pub mod seat;
mod steps;
mod turns;

pub use board::Turned;
pub use lock::TurnLock;
pub use seat::{Held, Seat};
