//! Pairs of numbers, such as attacks, that are found by their first number: in flat storage, or in blocks where pairs
//! come and go, put in order by counting, in time linear in the pairs.
#![tactic(auto)]

mod block;
mod blocks;
mod buckets;
mod changes;
mod index;
mod sorting;
mod stable_sort;

pub use blocks::AttackBlocks;
pub use index::AttackIndex;
