//! Side clauses by their numbers and by their literals.

ghost use Rattle.std.specs.Prelude.{◌≡◌, ◌<◌, ◌∷◌, ◌++◌, [], length, slice_index_or, IfNone, IfSome, OnOk};
ghost use Rattle.oracle_face.specs.Logs.{no_side};
ghost use Rattle.session_log.specs.Steps.{side_made};
ghost use Rattle.atom_solver.specs.Sides.{IsOrdered, IsSideAt, IsNowhere};

use crate::kept_side::KeptSide;
use indexmap::IndexSet;
use lists::{Items, Memory};
use meaning_atoms::AtomLit;
use set_lists::NumSet;
use std::alloc::Global;
use std::marker::Model;

/// The side clauses in the order of their numbers, no two with the same literals. One is found by its literals without
/// a look at the others: a list of 10,000 extensions asks for each of its side clauses.

pub struct SideTable {
    sides: IndexSet<KeptSide>,
}

// By hand, so that a drop is one call (docs/PROVING.md).
impl Drop for SideTable {
    fn drop(self) {
        let SideTable { sides: _ } = self;
    }
}

impl Model for SideTable {
    ghost use Rattle.atom_solver.specs.Sides.{SideStore, AreOrdered};
    ghost use Rattle.indexmap.specs.IndexSet.{spare};

    ghost Value = { SideStore };

    ghost view = { λ t. record { kept = t.sides.keys; room = spare t.sides } };

    ghost invariant = { λ t. AreOrdered t.sides.keys };
}

impl SideTable {
    /// No side clause, which takes no memory.
    pub(crate) fn new(alloc: Global) -> SideTable
        ensures { result.kept ≡ [] }
    {
        SideTable {
            sides: IndexSet::new(alloc),
        }
    }

    /// The number of side clauses.
    pub(crate) fn len(&self) -> usize
        ensures { result ≡ length self.now.kept }
    {
        self.sides.len()
    }

    /// The side clause at an index.
    pub(crate) fn side(&self, index: usize) -> &KeptSide
        requires { index < length self.now.kept }
        ensures { result.now ≡ slice_index_or self.now.kept index no_side }
    {
        let sides = self.sides.as_slice();
        &sides[index]
    }

    /// The index of the side clause with these literals, if there is one.
    pub(crate) fn find(&self, literals: &[AtomLit]) -> Option<usize>
        ensures some { IfSome result (IsSideAt self.now.kept literals.now) }
        ensures none { IfNone result (IsNowhere self.now.kept literals.now) }
    {
        self.sides.get_index_of(literals)
    }

    /// Makes room for one more side clause.
    pub(crate) fn make_room(&mut self) -> Result<(), Memory>
        ensures same { self.new.kept ≡ self.old.kept }
        ensures room { OnOk result (0 < self.new.room) }
    {
        self.sides.reserve(1)?;
        Ok(())
    }

    /// Adds a side clause that isn't there, for which there is room.
    pub(crate) fn push(&mut self, literals: Items<AtomLit>, set: NumSet)
        requires room { 0 < self.old.room }
        requires ordered { IsOrdered literals }
        requires other { IsNowhere self.old.kept literals }
        ensures { self.new.kept ≡ self.old.kept ++ side_made literals set ∷ [] }
    {
        let _ = self.sides.insert(KeptSide { literals, set });
    }
}
