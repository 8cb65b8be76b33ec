//! What a search tells, and how a clause comes.

use lists::Items;
use plain_lits::{Clause, Lit, StepId};

/// Where a clause comes from: it is an axiom or a side, or the check takes it by its hints.
#[derive(Drop)]
pub enum Added {
    Axiom,
    Side,
    Derived(Items<StepId>),
}

/// What a search found: true literals under which each clause and each assumption is true, or a step whose literals
/// are negated assumptions.
#[derive(Drop)]
pub enum Solved {
    Model(Items<Lit>),
    Core(StepId),
}

/// A clause that was learned with its hints, but not added, since the budget was spent.
#[derive(Drop)]
pub struct UnaddedClause {
    pub clause: Clause,
    pub hints: Items<StepId>,
}
