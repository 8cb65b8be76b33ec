//! Certificates: sets, and refutations with the steps that they are made of.

use lists::Items;
use meaning_atoms::{AtomLit, AxiomName};
use set_lists::NumSet;

/// One step of a refutation. Steps are numbered from 1.

pub enum Step {
    /// An axiom.
    Axiom(AxiomName),
    /// The side clause of this number, counted from 1, or else that it is not true.
    Side(u32),
    /// A clause of these literals, which follows by hints: numbers of earlier steps, in the order in which they are
    /// looked at.
    Derived(Items<AtomLit>, Items<u32>),
}

// By hand, so that a drop is one call (docs/PROVING.md).
impl Drop for Step {
    fn drop(self) {
        match self {
            Step::Axiom(_) | Step::Side(_) | Step::Derived(_, _) => {}
        }
    }
}

/// Steps of which the last one's literals are all false where the claim's goals and side clauses are true.
#[derive(Drop)]
pub struct Refutation {
    pub steps: Items<Step>,
}

/// Sets and refutations that show an answer right.

pub struct Certificate {
    pub sets: Items<NumSet>,
    pub refutations: Items<Refutation>,
}

// By hand, so that a drop is one call (docs/PROVING.md).
impl Drop for Certificate {
    fn drop(self) {
        let Certificate {
            sets: _,
            refutations: _,
        } = self;
    }
}
