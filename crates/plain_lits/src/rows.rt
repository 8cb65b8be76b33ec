//! Lists of items in one flat list.

ghost use Rattle.std.specs.Prelude.{◌≡◌, ◌<◌, ◌≤◌, ◌-◌, [], ◌∷◌, ◌++◌, length, take, OnOk, OnErr};
ghost use Rattle.std.specs.Prelude.{slice_index, slice_index_or, slice_range, slice_set};
ghost use Rattle.plain_lits.specs.RowCuts.{rows_from, AreEnds};

use lists::Memory;
use std::alloc::Global;
use std::marker::Model;

/// A list of rows, each a list of items, which lie one after another in one array. Contracts see it as the list
/// of the rows.
#[derive(Drop)]
pub struct Rows<T> {
    items: Vec<T>,
    ends: Vec<usize>,
}

impl<T> Model for Rows<T> {
    ghost use Rattle.std.specs.Prelude.{List, length};
    ghost use Rattle.plain_lits.specs.RowCuts.{rows_from, AreEnds};

    ghost Value = { List (List T) };

    ghost view = { λ r. rows_from r.items.items 0 r.ends.items };

    ghost invariant = { λ r. AreEnds r.ends.items (length r.items.items) };
}

/// Where the rows before an index end.
fn end_before(ends: &[usize], index: usize) -> usize
    requires { index ≤ length ends.now }
    ensures { result ≡ slice_index (0 ∷ ends.now) index }
{
    if index == 0 {
        return 0;
    }
    ends[index - 1]
}

/// The items from one index to another.
fn part<T>(items: &[T], begin: usize, end: usize) -> &[T]
    requires order { begin ≤ end }
    requires within { end ≤ length items.now }
    ensures { result.now ≡ slice_range items.now begin end }
{
    &items[begin..end]
}

/// The row at an index.
fn row_in<'a, T>(items: &'a [T], ends: &[usize], index: usize) -> &'a [T]
    requires ends { AreEnds ends.now (length items.now) }
    requires within { index < length ends.now }
    ensures { result.now ≡ slice_index_or (rows_from items.now 0 ends.now) index [] }
{
    part(items, end_before(ends, index), ends[index])
}

impl<T: Copy> Rows<T> {
    /// No row, which takes no memory.
    pub fn new(alloc: Global) -> Rows<T>
        ensures { result ≡ [] }
    {
        Rows {
            items: Vec::new(alloc),
            ends: Vec::new(alloc),
        }
    }

    /// The number of rows.
    pub fn len(&self) -> usize
        ensures { result ≡ length self.now }
    {
        self.ends.len()
    }

    /// The row at an index.
    pub fn row(&self, index: usize) -> &[T]
        requires { index < length self.now }
        ensures { result.now ≡ slice_index_or self.now index [] }
    {
        row_in(self.items.as_slice(), self.ends.as_slice(), index)
    }

    /// Adds a row at the end. After `Memory` the rows are as before.
    pub fn push(&mut self, row: &[T]) -> Result<(), Memory>
        ensures ok { OnOk result (self.new ≡ self.old ++ row.now ∷ []) }
        ensures err { OnErr result (self.new ≡ self.old) }
    {
        self.ends.reserve(1)?;
        self.items.extend_from_slice(row)?;
        let end = self.items.len();
        let _ = self.ends.push(end);
        Ok(())
    }

    /// Replaces an item of the row at an index.
    pub fn set(&mut self, index: usize, at: usize, item: T)
        requires row { index < length self.old }
        requires item { at < length (slice_index_or self.old index []) }
        ensures { self.new ≡ slice_set self.old index (slice_set (slice_index_or self.old index []) at item) }
    {
        let begin = end_before(self.ends.as_slice(), index);
        self.items[begin + at] = item;
    }

    /// Takes the last row away.
    pub fn pop(&mut self)
        requires { 0 < length self.old }
        ensures { self.new ≡ take (length self.old - 1) self.old }
    {
        if let Some(_) = self.ends.pop() {
            let kept = end_before(self.ends.as_slice(), self.ends.len());
            self.items.truncate(kept);
        }
    }
}
