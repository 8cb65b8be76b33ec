//! Clauses as lists of literals.

ghost use Rattle.std.specs.Prelude.{◌≡◌, IfOk};
ghost use Rattle.meaning_atoms.specs.Literals.{affirmed, denied};

use crate::atom::{Atom, AtomLit};
use lists::{Items, Memory};
use std::alloc::Global;

/// The list of literals in their order. `Memory` says that an allocation was refused.
pub fn list<const N: usize>(alloc: Global, literals: [AtomLit; N]) -> Result<Items<AtomLit>, Memory>
    ensures { IfOk result (λ clause. clause ≡ literals.entry) }
{
    Ok(Items::from_vec(Vec::from_array(alloc, literals)?))
}

/// The literal that says an atom.
pub fn yes(atom: Atom) -> AtomLit
    ensures { result ≡ affirmed atom }
{
    AtomLit {
        atom,
        positive: true,
    }
}

/// The literal that says that an atom is not so.
pub fn no(atom: Atom) -> AtomLit
    ensures { result ≡ denied atom }
{
    AtomLit {
        atom,
        positive: false,
    }
}
