//! What an oracle answers with.

ghost use Rattle.std.specs.Prelude.{◌≡◌};
ghost use Rattle.certificate_claims.specs.meaning_atoms.specs.declared.atom.Atom.TheVariants.{Ask};
ghost use Rattle.certificate_claims.specs.meaning_atoms.specs.Literals.{affirmed};

use lists::Items;
use meaning_atoms::{Atom, AtomLit, AxiomName};
use plain_lits::StepId;
use set_lists::NumSet;
use std::marker::Model;

/// What a search found: a set that makes each goal true, or the log step that shows that there is none.
#[derive(Drop)]
pub enum Found {
    Set(NumSet),
    Refuted(StepId),
}

/// A clause that would have been a unit more, where the budget was spent.

pub enum Pending {
    /// A side clause, and the set that it is made from.
    Side(Items<AtomLit>, NumSet),
    /// A clause, and the steps that it follows from.
    Learned(Items<AtomLit>, Items<StepId>),
    /// An axiom that only a model calls for.
    Loop(AxiomName),
}

// By hand, so that a drop is one call (docs/PROVING.md).
impl Drop for Pending {
    fn drop(self) {
        match self {
            Pending::Side(_, _) | Pending::Learned(_, _) | Pending::Loop(_) => {}
        }
    }
}

/// The number of a side clause in an oracle's log, which contracts see as that number. Side clauses are counted from 1.
#[derive(Clone, Copy, PartialEq, Eq)]
pub struct AskId {
    number: u32,
}

impl Model for AskId {
    ghost use Rattle.std.specs.Prelude.{ℕ};

    ghost Value = { ℕ };

    ghost view = { λ a. a.number };

    ghost inverse = { λ n. record { number = n } };
}

impl AskId {
    /// The side clause of a number.
    pub fn new(number: u32) -> AskId
        ensures { result ≡ number }
    {
        AskId { number }
    }

    /// The side clause's number.
    pub fn number(self) -> u32
        ensures { result ≡ self }
    {
        self.number
    }

    /// The goal that the side clause is true.
    pub fn goal(self) -> AtomLit
        ensures { result ≡ affirmed (Ask self) }
    {
        AtomLit {
            atom: Atom::Ask(self.number),
            positive: true,
        }
    }
}
