//! What a search finds.

use lists::Items;
use meaning_atoms::AtomLit;
use plain_lits::StepId;

/// What a search found: literals under which each clause in use and each goal is true, or a step that refutes the goals.
#[derive(Drop)]
pub enum Searched {
    Model(Items<AtomLit>),
    Refuted(StepId),
}
