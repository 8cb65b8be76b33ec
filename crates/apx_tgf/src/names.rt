//! Names and their numbers.

ghost use Rattle.std.specs.Prelude.{◌≡◌, ℕ, ◌≤◌, ◌<◌, [], length, slice_get, Contains, Some, IfSome, IfNone, OnOk, OnErr};
ghost use Rattle.apx_tgf.specs.Names.{IsNumberOf, with_name};

use crate::series::Series;
use indexmap::IndexSet;
use lists::Memory;
use std::alloc::Global;
use std::marker::Model;

/// Names in the order in which they came, each once: the first has number 1. A name is a part of the text that was
/// read.
///
/// The number of a name in a series of them is told by its bytes. Any other is hashed, by a hash that is the same in
/// each run, so that a text can be made on which look-ups take longer.
pub struct Names<'a> {
    names: IndexSet<&'a [u8]>,
    series: Series<'a>,
}

// By hand, so that a drop is one call (docs/PROVING.md).
impl<'a> Drop for Names<'a> {
    fn drop(self) {
        let Self { names, series } = self;
    }
}

impl<'a> Model for Names<'a> {
    ghost use Rattle.std.specs.Prelude.{List, ℕ, map};
    ghost use Rattle.apx_tgf.specs.Series.{HasSeries};

    ghost Value = { List (List ℕ) };

    ghost view = { λ n. map (λ name. name.now) n.names.keys };

    ghost invariant = { λ n. HasSeries (map (λ name. name.now) n.names.keys) n.series };
}

impl<'a> Names<'a> {
    /// No names, which take no memory.
    pub(crate) fn new(alloc: Global) -> Names<'a>
        ensures { result ≡ [] }
    {
        Names {
            names: IndexSet::new(alloc),
            series: Series::new(),
        }
    }

    /// Puts a name behind the others, if it is new. After `Memory` the names are as before.
    pub(crate) fn declare(&mut self, name: &'a [u8]) -> Result<(), Memory>
        ensures ok { OnOk result (self.new ≡ with_name self.old name.now) }
        ensures err { OnErr result (self.new ≡ self.old) }
    {
        if self.names.insert(name)? {
            self.series = self.series.with_last(name, self.names.len());
        }
        Ok(())
    }

    /// How many names there are.
    pub fn len(&self) -> usize
        ensures { result ≡ length self.now }
    {
        self.names.len()
    }

    /// The number of a name, if it is one of these names.
    pub fn number_of(&self, name: &[u8]) -> Option<usize>
        ensures some { IfSome result (IsNumberOf self.now name.now) }
        ensures within { IfSome result (λ number. number ≤ length self.now) }
        ensures none { IfNone result (¬ Contains self.now name.now) }
    {
        if let Some(number) = self.number_in_series(name) {
            return Some(number);
        }
        self.find_number(name)
    }

    // The number of a name of the series.
    #[inline(always)]
    fn number_in_series(&self, name: &[u8]) -> Option<usize>
        ensures some { IfSome result (IsNumberOf self.now name.now) }
        ensures within { IfSome result (λ number. number ≤ length self.now) }
    {
        let count = self.names.len();
        let offset = self.series.offset_of(name)?;
        prove!(self.series.start + offset < count);
        Some(self.series.start + offset + 1)
    }

    // The number of a name, by a look-up.
    fn find_number(&self, name: &[u8]) -> Option<usize>
        ensures some { IfSome result (IsNumberOf self.now name.now) }
        ensures within { IfSome result (λ number. number ≤ length self.now) }
        ensures none { IfNone result (¬ Contains self.now name.now) }
    {
        let count = self.names.len();
        let index = self.names.get_index_of(&name)?;
        prove!(index < count);
        Some(index + 1)
    }

    /// The name with a number.
    pub fn name_of(&self, number: usize) -> &'a [u8]
        requires low { 1 ≤ number }
        requires high { number ≤ length self.now }
        ensures { IsNumberOf self.now result.now number }
    {
        self.names.as_slice()[number - 1]
    }
}
