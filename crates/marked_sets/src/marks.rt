//! Marks on numbers, all of which are taken back at once.

ghost use Rattle.std.specs.Prelude.{◌≡◌, ◌↔◌, ◌<◌, true, false, length, replicate, slice_set, IsTrue, OnOk};
ghost use Rattle.marked_sets.specs.Marks.{is_marked};

use lists::Memory;
use std::alloc::Global;
use std::marker::Model;

/// Marks on the numbers below a bound. They are kept as stamps, of which the present one marks: so the next stamp takes
/// all marks back, and a table that is made once serves test after test.
#[derive(Drop)]
pub struct Marks {
    stamps: Vec<u32>,
    present: u32,
}

impl Model for Marks {
    ghost use Rattle.std.specs.Prelude.{List, Bool};
    ghost use Rattle.marked_sets.specs.Marks.{AreStamps, marks_of};

    ghost Value = { List Bool };

    ghost view = { λ m. marks_of m.stamps.items m.present };

    ghost invariant = { λ m. AreStamps m.stamps.items m.present };
}

impl Marks {
    /// No number that could be marked. It takes no memory.
    pub fn new(alloc: Global) -> Marks
        ensures { length result ≡ 0 }
    {
        Marks {
            stamps: Vec::new(alloc),
            present: 1,
        }
    }

    /// Takes all marks back. From then on the numbers below the bound can be marked. Where the bound is as before, that
    /// is one step, unless the stamps have run out: then the table is made anew.
    pub fn clear(&mut self, alloc: Global, bound: usize) -> Result<(), Memory>
        ensures { OnOk result (self.new ≡ replicate bound false) }
    {
        if self.stamps.len() != bound {
            return self.restart(alloc, bound);
        }
        if self.present == u32::MAX {
            return self.restart(alloc, bound);
        }
        self.present += 1;
        Ok(())
    }

    /// The same by a table that is made anew.
    fn restart(&mut self, alloc: Global, bound: usize) -> Result<(), Memory>
        ensures { OnOk result (self.new ≡ replicate bound false) }
    {
        let stamps = vec![in alloc; 0u32; bound]?;
        self.stamps = stamps;
        self.present = 1;
        Ok(())
    }

    /// Marks a number below the bound.
    pub fn mark(&mut self, number: u32)
        requires { number < length self.old }
        ensures { self.new ≡ slice_set self.old number true }
    {
        self.stamps[number as usize] = self.present;
    }

    /// Whether a number is marked. A number past the bound is not.
    pub fn has(&self, number: u32) -> bool
        ensures { IsTrue result ↔ IsTrue (is_marked self.now number) }
    {
        let stamps = self.stamps.as_slice();
        let index = number as usize;
        if index >= stamps.len() {
            return false;
        }
        stamps[index] == self.present
    }
}
