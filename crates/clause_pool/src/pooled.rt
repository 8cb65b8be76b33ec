//! What stands in a pool, and how it is found again.

use boxcar::{Keeps, Pushed};
use lists::Items;
use oracle_face::Entry;
use std::alloc::Global;

/// The rule of the pool: each entry may be shared, whatever its index.
pub struct ShareableEntries;

impl Keeps<Entry> for ShareableEntries {
    ghost use Rattle.oracle_face.specs.Entries.{IsShareable};

    ghost holds = { λ _ _ entry. IsShareable entry };
}

/// What `share` gives, and by which `fetch` finds the entry again.
#[derive(Drop)]
pub struct Token {
    pub(crate) pushed: Pushed<Entry, Global, ShareableEntries>,
}

/// An entry with its index in the pool.
#[derive(Drop)]
pub struct Pooled {
    pub index: u64,
    pub entry: Entry,
}

/// What a look into the pool found: entries by rising index, and the index at which the next look begins.
#[derive(Drop)]
pub struct Import {
    pub entries: Items<Pooled>,
    pub next: u64,
}
