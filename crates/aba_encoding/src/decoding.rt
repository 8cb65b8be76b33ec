//! The set of assumptions that a model means.

ghost use Rattle.std.specs.Prelude.{IfOk};
ghost use Rattle.lists.specs.Members.{IsSetOf};
ghost use Rattle.meaning_atoms.specs.declared.atom.Atom.TheVariants.{Asm};
ghost use Rattle.oracle_face.specs.Decoding.{IsDecoded};

use af_encoding::{NumberAtom, affirmed_numbers};
use lists::Memory;
use meaning_atoms::AtomLit;
use set_lists::NumSet;
use std::alloc::Global;

/// The set that literals are read as: each number that they affirm to be a member and to be an assumption. Where they
/// are a model of the axioms that a framework needs, and nothing is missing ([`missing`](crate::missing)), the set has
/// in that framework each mode that the model affirms ([`models_describe`](crate::laws::models_describe)). Numbers are
/// put in order, and everything else takes time linear in the literals. `Memory` says that an allocation was refused.
pub fn decode(alloc: Global, values: &[AtomLit]) -> Result<NumSet, Memory>
    ensures { IfOk result (IsSetOf (IsDecoded Asm values.now)) }
{
    let members = affirmed_numbers(alloc, values, NumberAtom::Membership)?;
    let assumptions = affirmed_numbers(alloc, values, NumberAtom::Assumption)?;
    let strays = members.minus(alloc, &assumptions)?;
    members.minus(alloc, &strays)
}
