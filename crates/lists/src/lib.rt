//! The types and words that every crate of Burgaouez shares: a list and a byte string that contracts
//! see as lists, want of memory, and what it means that one list's members lie in another's.
#![tactic(auto)]

pub mod bytes;
pub mod items;
pub mod memory;

pub use bytes::Bytes;
pub use items::Items;
pub use memory::Memory;
