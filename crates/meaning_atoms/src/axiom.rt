//! The names of the clauses that always hold.

ghost use Rattle.std.specs.Prelude.{◌≡◌, ◌↔◌, IfOk, IsTrue};
ghost use Rattle.meaning_atoms.specs.Axioms.{IsAfAxiom, IsStretch};
ghost use Rattle.meaning_atoms.specs.AxiomNames.{IsAxiomName};
ghost use Rattle.meaning_atoms.specs.AxiomText.{af_name, axiom_name};

use crate::aba_axiom::AbaAxiom;
use crate::atom::{END, is_position};
use lists::Memory;
use semantics::is_argument;
use std::alloc::Global;

/// The name of an axiom of abstract frameworks with its arguments, in the order of the table of axioms. A value whose arguments are
/// out of the bounds of its row is no axiom name.
#[derive(Clone, Copy, Drop, PartialEq, Eq)]
pub enum AfAxiom {
    A1(u32),
    A2(u32, u32),
    A3(u32, u32),
    A4(u32, u32),
    A5(u32, u32, u32),
    A6(u32, u32),
    A7(u32),
    A8(u32, u32, u32),
    A9(u32, u32),
    A10(u32),
    A11(u32),
    A12(u32),
    A13(u32),
    A14(u32),
}

/// The name of an axiom with its arguments, of the kind of framework that it holds of.
#[derive(Drop, PartialEq, Eq)]
pub enum AxiomName {
    /// Of abstract frameworks.
    Af(AfAxiom),
    /// Of assumption-based frameworks.
    Aba(AbaAxiom),
}

impl AxiomName {
    /// Whether the arguments fit the name's row.
    pub fn is_name(&self) -> bool
        ensures { IsTrue result ↔ IsAxiomName self.now }
    {
        match self {
            AxiomName::Af(axiom) => axiom.is_name(),
            AxiomName::Aba(axiom) => axiom.is_name(),
        }
    }

    /// The name before the arguments in the axiom's text.
    pub fn name(&self) -> &'static str
        ensures { result.now ≡ axiom_name self.now }
    {
        match self {
            AxiomName::Af(axiom) => axiom.name(),
            AxiomName::Aba(axiom) => axiom.name(),
        }
    }

    /// The same name again.
    pub fn copy(&self, alloc: Global) -> Result<AxiomName, Memory>
        ensures { IfOk result (λ copy. copy ≡ self.now) }
    {
        match self {
            AxiomName::Af(axiom) => Ok(AxiomName::Af(*axiom)),
            AxiomName::Aba(axiom) => Ok(AxiomName::Aba(axiom.copy(alloc)?)),
        }
    }
}

impl AfAxiom {
    /// Whether the arguments fit the name's row: argument numbers from 1 to `semantics::MAX_ARGUMENT`, a position
    /// to begin at from 1 to `END`, a position to end at before `END` and not before its beginning, and 1 to 3 for
    /// `A14`.
    pub fn is_name(&self) -> bool
        ensures { IsTrue result ↔ IsAfAxiom self.now }
    {
        match *self {
            AfAxiom::A1(a)
            | AfAxiom::A7(a)
            | AfAxiom::A10(a)
            | AfAxiom::A11(a)
            | AfAxiom::A12(a)
            | AfAxiom::A13(a) => is_argument(a),
            AfAxiom::A2(b, a) | AfAxiom::A3(b, a) | AfAxiom::A4(b, a) => is_argument(b)
                && is_argument(a),
            AfAxiom::A5(a, i, j) | AfAxiom::A8(a, i, j) => is_stretch(a, i, j),
            AfAxiom::A6(a, i) | AfAxiom::A9(a, i) => is_argument(a) && is_position(i),
            AfAxiom::A14(part) => 1 <= part && part <= 3,
        }
    }

    /// The name before the arguments in the axiom's text.
    pub fn name(&self) -> &'static str
        ensures { result.now ≡ af_name self.now }
    {
        match *self {
            AfAxiom::A1(_) => "A1",
            AfAxiom::A2(..) => "A2",
            AfAxiom::A3(..) => "A3",
            AfAxiom::A4(..) => "A4",
            AfAxiom::A5(..) => "A5",
            AfAxiom::A6(..) => "A6",
            AfAxiom::A7(_) => "A7",
            AfAxiom::A8(..) => "A8",
            AfAxiom::A9(..) => "A9",
            AfAxiom::A10(_) => "A10",
            AfAxiom::A11(_) => "A11",
            AfAxiom::A12(_) => "A12",
            AfAxiom::A13(_) => "A13",
            AfAxiom::A14(_) => "A14",
        }
    }
}

/// Whether these are the number of an argument, a position to begin at, and one to end at, not before that and before
/// `END`.
pub(crate) fn is_stretch(number: u32, begin: u32, end: u32) -> bool
    ensures { IsTrue result ↔ IsStretch number begin end }
{
    is_argument(number) && 1 <= begin && begin <= end && end < END
}
