//! Where a step of a log comes from.

/// An axiom and a side are given from outside; a derived step follows from earlier ones.
#[derive(Clone, Copy)]
pub enum StepKind {
    Axiom,
    Side,
    Derived,
}
