//! An append-only list of entries that threads push to and read side by side.

ghost use Rattle.std.specs.Prelude.{◌≡◌, ◌+◌, All, IfOk, IfErr, IfSome, length};
ghost use Rattle.oracle_face.specs.Entries.{IsShareable};
ghost use Rattle.clause_pool.specs.Pools.{AreFrom, IsTokenOf, entry_of, index_of};

use crate::pooled::{Import, Pooled, ShareableEntries, Token};
use boxcar::Vec as SharedVec;
use boxcar::tag::Tag;
use lists::{Items, Memory};
use oracle_face::Entry;
use std::alloc::Global;
use std::sync::Wait;

/// Entries that any thread adds to and reads, and none takes away. Each is true of every framework, asks for no side
/// clause and has atoms within their bounds.
#[derive(Drop)]
pub struct Pool {
    entries: SharedVec<Entry, Global, ShareableEntries>,
}

impl Pool {
    /// An empty pool.
    pub fn open(alloc: Global) -> Result<Pool, Memory> {
        Ok(Pool {
            entries: SharedVec::with_rule(alloc, Tag::empty())?,
        })
    }

    /// Adds an entry. Err hands it back for want of memory; the pool is as before then. It may spin while other threads
    /// add.
    pub fn share<R: Wait>(&self, rt: &R, entry: Entry) -> Result<Token, Entry>
        requires { IsShareable entry }
        ensures token { IfOk result (IsTokenOf self.now) }
        ensures entry { IfOk result (λ token. entry_of token ≡ entry) }
        ensures back { IfErr result (λ back. back ≡ entry) }
    {
        let pushed = self.entries.push_shown(rt, entry)?;
        Ok(Token { pushed })
    }

    /// The entry that was shared for this token.
    pub fn fetch<'a>(&'a self, token: &Token) -> &'a Entry
        requires { IsTokenOf self.now token.now }
        ensures entry { result.now ≡ entry_of token.now }
        ensures shareable { IsShareable result.now }
    {
        self.entries.value(&token.pushed)
    }

    /// Copies of the entries from an index on, up to the first index at which none is found. The pool is as before.
    /// Only tests call it: a session takes one entry after the other through its trade.
    pub fn import(&self, alloc: Global, from: u64) -> Result<Import, Memory>
        ensures indexes { IfOk result (λ import. AreFrom from import.entries) }
        ensures next { IfOk result (λ import. import.next ≡ from + length import.entries) }
        ensures shareable { IfOk result (λ import. All (λ pooled. IsShareable pooled.entry) import.entries) }
    {
        let mut entries = Items::new(alloc);
        let mut next = from;
        while next < u64::MAX {
            let Some(entry) = self.entry_at(next) else {
                break;
            };
            let entry = entry.copy(alloc)?;
            entries.push(Pooled { index: next, entry })?;
            next += 1;
        }
        Ok(Import { entries, next })
    }

    /// A token for the entry at an index, where one is found.
    pub fn token_at(&self, index: u64) -> Option<Token>
        ensures token { IfSome result (IsTokenOf self.now) }
        ensures index { IfSome result (λ token. index_of token ≡ index) }
    {
        let pushed = self.entries.witness(index as usize)?;
        let _shareable = self.entries.get_seen(index as usize, &pushed);
        Some(Token { pushed })
    }

    /// The entry at an index, where one is found.
    pub(crate) fn entry_at(&self, index: u64) -> Option<&Entry>
        ensures { IfSome result (λ entry. IsShareable entry.now) }
    {
        self.entries.get(index as usize)
    }
}
