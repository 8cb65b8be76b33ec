//! Counts that go down from given numbers, to which all go back at once.

ghost use Rattle.std.specs.Prelude.{◌≡◌, ◌-◌, ◌<◌, length, slice_index, slice_set, OnOk};
ghost use Rattle.marked_rules.specs.Overlaid.{AreCounts, open_of};

use lists::Memory;
use marked_sets::Marks;
use std::alloc::Global;

/// How far counts have gone down from their first numbers, which stand elsewhere: what is left of each that is marked.
/// So all go back when the marks do.
pub(crate) struct Counts {
    changed: Marks,
    left: Vec<usize>,
}

// By hand, so that a drop is one call (docs/PROVING.md).
impl Drop for Counts {
    fn drop(self) {
        let Counts {
            changed: _,
            left: _,
        } = self;
    }
}

impl Counts {
    /// No counts, which takes no memory.
    pub(crate) fn new(alloc: Global) -> Counts {
        Counts {
            changed: Marks::new(alloc),
            left: Vec::new(alloc),
        }
    }

    /// All counts are their first numbers again.
    pub(crate) fn restart(&mut self, alloc: Global, firsts: &[usize]) -> Result<(), Memory>
        ensures fits { OnOk result (AreCounts firsts.now self.new) }
        ensures first { OnOk result (open_of firsts.now self.new ≡ firsts.now) }
    {
        fit(alloc, &mut self.left, firsts)?;
        self.changed.clear(alloc, firsts.len())?;
        Ok(())
    }

    /// A count.
    pub(crate) fn get(&self, firsts: &[usize], number: u32) -> usize
        requires within { number < length firsts.now }
        requires fits { AreCounts firsts.now self.now }
        ensures { result ≡ slice_index (open_of firsts.now self.now) number }
    {
        let left = self.left.as_slice();
        let changed = self.changed.has(number);
        if changed {
            return left[number as usize];
        }
        firsts[number as usize]
    }

    /// Takes one off a count.
    pub(crate) fn lower(&mut self, firsts: &[usize], number: u32)
        requires within { number < length firsts.now }
        requires fits { AreCounts firsts.now self.old }
        requires some { 0 < slice_index (open_of firsts.now self.old) number }
        ensures fits { AreCounts firsts.now self.new }
        ensures lowered { open_of firsts.now self.new ≡ slice_set (open_of firsts.now self.old) number
            (slice_index (open_of firsts.now self.old) number - 1) }
    {
        let left = self.get(firsts, number) - 1;
        self.left[number as usize] = left;
        self.changed.mark(number);
    }
}

/// Makes a list as long as another, unless it is.
fn fit(alloc: Global, left: &mut Vec<usize>, firsts: &[usize]) -> Result<(), Memory>
    ensures { OnOk result (length left.new.items ≡ length firsts.now) }
{
    if left.len() == firsts.len() {
        return Ok(());
    }
    let made = Vec::from_slice(alloc, firsts)?;
    *left = made;
    Ok(())
}
