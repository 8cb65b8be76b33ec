//! The numbers of which literals affirm an atom.

ghost use Rattle.std.specs.Prelude.{◌≡◌, IfOk};
ghost use Rattle.lists.specs.Members.{IsSetOf};
ghost use Rattle.af_encoding.specs.Decoded.{Affirms};
ghost use Rattle.af_encoding.specs.NumberAtoms.{atom_of, number_in};

use lists::Memory;
use meaning_atoms::Atom::{Asm, Der, Live, Member};
use meaning_atoms::{AtomLit, Closure};
use set_lists::NumSet;
use std::alloc::Global;

/// Which atom of a number is meant.
#[derive(Clone, Copy)]
pub enum NumberAtom {
    /// `Member:x`: the argument or assumption x is in the set.
    Membership,
    /// `Live:x`: x is an argument of the framework.
    Argument,
    /// `Asm:x`: x is an assumption of the framework.
    Assumption,
    /// `Der:1:x`: the set derives x.
    OwnDerived,
    /// `Der:2:x`: the assumptions that the set doesn't attack derive x.
    RestDerived,
}

/// The numbers of which the literals affirm the atom. `Memory` says that an allocation was refused.
pub fn affirmed_numbers(
    alloc: Global,
    values: &[AtomLit],
    which: NumberAtom,
) -> Result<NumSet, Memory>
    ensures { IfOk result (IsSetOf (λ x. Affirms values.now (atom_of which x))) }
{
    let found = values
        .iter()
        .filter_map(|literal| affirmed_number(literal, which))
        .collect::<Vec<u32>>(alloc)?;
    NumSet::from_slice(alloc, &found)
}

/// The number of which a literal affirms the atom.
fn affirmed_number(literal: &AtomLit, which: NumberAtom) -> Option<u32>
    ensures { result ≡ number_in which literal.now }
{
    if !literal.positive {
        return None;
    }
    match (which, literal.atom) {
        (NumberAtom::Membership, Member(x))
        | (NumberAtom::Argument, Live(x))
        | (NumberAtom::Assumption, Asm(x))
        | (NumberAtom::OwnDerived, Der(Closure::Own, x))
        | (NumberAtom::RestDerived, Der(Closure::Rest, x)) => Some(x),
        _ => None,
    }
}
