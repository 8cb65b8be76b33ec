//! Clauses in flat storage, with the first literal of each beside them.

ghost use Rattle.std.specs.Prelude.{◌≡◌, ◌<◌, ◌-◌, [], ◌∷◌, ◌++◌, length, take, OnOk, OnErr, slice_get, slice_index_or};

use lists::Memory;
use plain_lits::{PackedLit, Rows};
use std::alloc::Global;
use std::marker::Model;

/// Clauses, one after another in one array. The first literal of each stands also in an array of its own: whoever looks
/// at all clauses leaves out most of them by it, and doesn't wait for the memory of the others. Contracts see it as the
/// list of the clauses.

pub(crate) struct ClauseRows {
    rows: Rows<PackedLit>,
    firsts: Vec<Option<PackedLit>>,
}

// By hand, so that a drop is one call (docs/PROVING.md).
impl Drop for ClauseRows {
    fn drop(self) {
        let ClauseRows { rows: _, firsts: _ } = self;
    }
}

impl Model for ClauseRows {
    ghost use Rattle.std.specs.Prelude.{List};
    ghost use Rattle.plain_lits.specs.declared.lit.Lit.{Lit};
    ghost use Rattle.hinted_log.specs.FirstLiterals.{AreFirsts};

    ghost Value = { List (List Lit) };

    ghost view = { λ c. c.rows };

    ghost invariant = { λ c. AreFirsts c.rows c.firsts.items };
}

impl ClauseRows {
    /// No clause, which takes no memory.
    pub(crate) fn new(alloc: Global) -> ClauseRows
        ensures { result ≡ [] }
    {
        ClauseRows {
            rows: Rows::new(alloc),
            firsts: Vec::new(alloc),
        }
    }

    /// The number of clauses.
    pub(crate) fn len(&self) -> usize
        ensures { result ≡ length self.now }
    {
        self.rows.len()
    }

    /// The clauses as rows.
    pub(crate) fn rows(&self) -> &Rows<PackedLit>
        ensures { result.now ≡ self.now }
    {
        &self.rows
    }

    /// The clause at an index.
    pub(crate) fn row(&self, index: usize) -> &[PackedLit]
        requires { index < length self.now }
        ensures { result.now ≡ slice_index_or self.now index [] }
    {
        self.rows.row(index)
    }

    /// The first literal of the clause at an index, or none where that clause is empty.
    pub(crate) fn first(&self, index: usize) -> Option<PackedLit>
        requires { index < length self.now }
        ensures { result ≡ slice_get (slice_index_or self.now index []) 0 }
    {
        self.firsts[index]
    }

    /// Adds a clause at the end. After `Memory` the clauses are as before.
    pub(crate) fn push(&mut self, clause: &[PackedLit]) -> Result<(), Memory>
        ensures ok { OnOk result (self.new ≡ self.old ++ clause.now ∷ []) }
        ensures err { OnErr result (self.new ≡ self.old) }
    {
        self.firsts.reserve(1)?;
        self.rows.push(clause)?;
        let _ = self.firsts.push(clause.first().copied());
        Ok(())
    }

    /// Takes the last clause away.
    pub(crate) fn pop(&mut self)
        requires { 0 < length self.old }
        ensures { self.new ≡ take (length self.old - 1) self.old }
    {
        let kept = self.rows.len() - 1;
        self.rows.pop();
        self.firsts.truncate(kept);
    }
}
