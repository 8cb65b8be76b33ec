//! The laws that show worlds to be valuations, and the comparisons of atoms, literals and names of axioms to be
//! those of their values. A function of the second kind does what its operator does; its contract is the law.

ghost use Rattle.std.specs.Prelude.{◌≡◌, ◌↔◌, IsTrue};
ghost use Rattle.std.specs.declared.cmp.Ordering.TheVariants.{Equal};
ghost use Rattle.meaning_atoms.specs.Valuations.{HasValuation};

use crate::atom::{Atom, AtomLit};
use crate::axiom::AfAxiom;
use std::cmp::Ordering;

/// A world, beside any side clauses, is a valuation of atoms: each atom is true in it or not.
pub fn a_world_is_a_valuation()
    ensures { HasValuation }
{}

/// Two atoms are equal by `==` exactly where they are one value.
pub fn atoms_are_equal(atom: &Atom, other: &Atom) -> bool
    ensures { IsTrue result ↔ (atom.now ≡ other.now) }
{
    *atom == *other
}

/// Neither of two atoms is before the other exactly where they are one value.
pub fn atoms_in_order(atom: &Atom, other: &Atom) -> Ordering
    ensures { (result ≡ Equal) ↔ (atom.now ≡ other.now) }
{
    atom.cmp(other)
}

/// Two literals are equal by `==` exactly where they are one value.
pub fn literals_are_equal(literal: &AtomLit, other: &AtomLit) -> bool
    ensures { IsTrue result ↔ (literal.now ≡ other.now) }
{
    *literal == *other
}

/// Neither of two literals is before the other exactly where they are one value.
pub fn literals_in_order(literal: &AtomLit, other: &AtomLit) -> Ordering
    ensures { (result ≡ Equal) ↔ (literal.now ≡ other.now) }
{
    literal.cmp(other)
}

/// Two names of axioms are equal by `==` exactly where they are one value.
pub fn axioms_are_equal(name: &AfAxiom, other: &AfAxiom) -> bool
    ensures { IsTrue result ↔ (name.now ≡ other.now) }
{
    *name == *other
}
