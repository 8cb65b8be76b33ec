//! Assumption-based frameworks as one kind of framework in clauses.

use crate::{decoding, loops};
use aba_notions::AbaPlain;
use lists::{Items, Memory};
use meaning_atoms::{Atom, AtomLit, AxiomName};
use oracle_face::Encoding;
use set_lists::NumSet;
use std::alloc::Global;

/// Flat assumption-based frameworks in clauses over atoms.
#[derive(Clone, Copy)]
pub struct AbaEncoding;

impl Encoding for AbaEncoding {
    ghost use Rattle.semantics.specs.Frameworks.{aba};
    ghost use Rattle.meaning_atoms.specs.declared.atom.Atom.TheVariants.{Asm};

    type Plain = AbaPlain;

    ghost framework = { λ f. aba f };

    ghost vouches = { λ a. Asm a };

    fn needed(alloc: Global, plain: &AbaPlain) -> Result<Items<AxiomName>, Memory> {
        crate::needed(alloc, plain)
    }

    fn decode(alloc: Global, values: &[AtomLit]) -> Result<NumSet, Memory> {
        decoding::decode(alloc, values)
    }

    fn fact(plain: &AbaPlain, atom: &Atom) -> Option<bool> {
        aba_facts::fact(plain, atom)
    }

    /// None: nothing was found to be near so that it would refute goals often.
    fn near(alloc: Global, _plain: &AbaPlain, _goals: &[AtomLit]) -> Result<Items<Atom>, Memory> {
        Ok(Items::new(alloc))
    }

    fn missing(
        alloc: Global,
        plain: &AbaPlain,
        values: &[AtomLit],
    ) -> Result<Option<AxiomName>, Memory> {
        loops::missing(alloc, plain, values)
    }
}
