//! The lock.

ghost use Rattle.std.specs.Prelude.{◌≡◌, ◌<◌};

use crate::board::{About, Law, Turned, View};
use atomic_table::Table;
use std::alloc::Global;

/// A lock round one value, for a fixed number of seats.
#[derive(Drop)]
pub struct TurnLock<V: Turned> {
    pub(crate) table: Table<Option<V>, View<V::Opening, V::Entry>, About<V>, Law<V>, Global>,
    ghost sized: { (table.shared.table_id.words ≡ 3) × (table.shared.table_id.slots ≡ 1) },
    ghost counted: { 0 < table.shared.key.seats },
}
