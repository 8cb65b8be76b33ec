//! The pool: clauses that sessions hand each other, each under its index.

ghost use Rattle.std.specs.Prelude.{◌≡◌, IfNone, IfSome, None, Some, drop};
ghost use Rattle.core_events.specs.Places.{pool_of};

use oracle_face::Entry;

/// An entry under its index.
#[derive(Drop)]
pub struct IndexedEntry {
    pub(crate) index: u64,
    pub(crate) entry: Entry,
}

/// The entry under an index.
pub(crate) fn find_entry(places: &[IndexedEntry], index: u64) -> Option<&Entry>
    ensures some { IfSome result (λ entry. pool_of places.now index ≡ Some entry.now) }
    ensures none { IfNone result (pool_of places.now index ≡ None) }
{
    for place in places {
        if place.index == index {
            return Some(&place.entry);
        }
    }
    None
}
