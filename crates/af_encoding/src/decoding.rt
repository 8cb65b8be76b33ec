//! The set of arguments that a model means.

ghost use Rattle.std.specs.Prelude.{IfOk};
ghost use Rattle.lists.specs.Members.{IsSetOf};
ghost use Rattle.semantics.specs.Framework.{Af};
ghost use Rattle.semantics.specs.Frameworks.{af, IsNumberedAf};
ghost use Rattle.meaning_atoms.specs.declared.atom.Atom.TheVariants.{Live};
ghost use Rattle.oracle_face.specs.Decoding.{IsDecoded, IsModelOf};
ghost use Rattle.af_encoding.specs.Decoded.{Describes};

use crate::affirming::{NumberAtom, affirmed_numbers};
use lists::Memory;
use meaning_atoms::AtomLit;
use set_lists::NumSet;
use std::alloc::Global;

/// The set that literals are read as: each argument that they affirm to be a member and to be live. Where they are a
/// model of the axioms that a framework needs, in which its facts have their values, the set has in that framework each
/// mode that the model affirms, and each live argument is a member, in the range or attacked exactly where the model
/// affirms it. Numbers are put in order, and everything else takes time linear in the literals. `Memory` says that an
/// allocation was refused.
pub fn decode(alloc: Global, values: &[AtomLit]) -> Result<NumSet, Memory>
    ensures set { IfOk result (IsSetOf (IsDecoded Live values.now)) }
    ensures model { (f : Af) → IsNumberedAf f → IsModelOf (af f) values.now → IfOk result (Describes f values.now) }
{
    let members = affirmed_numbers(alloc, values, NumberAtom::Membership)?;
    let live = affirmed_numbers(alloc, values, NumberAtom::Argument)?;
    let dead = members.minus(alloc, &live)?;
    members.minus(alloc, &dead)
}
