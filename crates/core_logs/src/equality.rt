//! Comparisons by `==` that tell whether two values are one. A function does what its operator does; its contract is
//! the law.

ghost use Rattle.std.specs.Prelude.{◌≡◌, ◌↔◌, IsTrue};

use meaning_atoms::AxiomName;
use oracle_face::{Entry, EntryName};

/// Whether two names of axioms are the same.
pub fn axioms_are_equal(name: &AxiomName, other: &AxiomName) -> bool
    ensures { IsTrue result ↔ (name.now ≡ other.now) }
{
    *name == *other
}

/// Whether two names of entries are.
pub fn names_are_equal(name: EntryName, other: EntryName) -> bool
    ensures { IsTrue result ↔ (name ≡ other) }
{
    name == other
}

/// Whether two entries are.
pub fn entries_are_equal(entry: &Entry, other: &Entry) -> bool
    ensures { IsTrue result ↔ (entry.now ≡ other.now) }
{
    *entry == *other
}
