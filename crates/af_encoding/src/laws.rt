//! The laws that show the needed axioms to be the right ones. Each function does nothing; its contract is the law.

ghost use Rattle.std.specs.Prelude.{ℕ, List};
ghost use Rattle.lists.specs.Members.{IsSetOf, IsWithin};
ghost use Rattle.semantics.specs.Framework.{Af};
ghost use Rattle.semantics.specs.Frameworks.{af, IsNumberedAf};
ghost use Rattle.meaning_atoms.specs.declared.atom.Atom.TheVariants.{Live};
ghost use Rattle.meaning_atoms.specs.declared.atom.AtomLit.{AtomLit};
ghost use Rattle.meaning_atoms.specs.declared.axiom.AxiomName.{AxiomName};
ghost use Rattle.certificate_claims.specs.Refutations.{IsAxiomOf};
ghost use Rattle.oracle_face.specs.Decoding.{IsDecoded, IsModelOf, ReadsBack};
ghost use Rattle.oracle_face.specs.Needed.{IsNeeded};
ghost use Rattle.af_encoding.specs.Decoded.{Describes, IsModelOfSet};

/// The set that a model is read as has each mode that the model affirms, and each live argument is a member, in the
/// range or attacked exactly where the model affirms it.
pub fn models_describe()
    ensures { (f : Af) (values : List AtomLit) (set : List ℕ) → IsNumberedAf f → IsModelOf (af f) values
        → IsSetOf (IsDecoded Live values) set → Describes f values set }
{}

/// Whatever a model says of modes, of live arguments as members, of the range and of what the set attacks is so of the
/// set that it is read as.
pub fn models_read_back()
    ensures { (f : Af) (values : List AtomLit) (set : List ℕ) → IsNumberedAf f → IsModelOf (af f) values
        → IsSetOf (IsDecoded Live values) set → ReadsBack (af f) values set }
{}

/// Each set of live arguments is read from some model, which affirms each mode that the set has: the needed axioms
/// exclude no set.
pub fn sets_have_models()
    ensures { (f : Af) (set : List ℕ) → IsNumberedAf f → IsWithin set f.live
        → (values : List AtomLit) × IsModelOfSet f values set }
{}

/// What a framework needs is an axiom: its numbers are within the bounds of its row.
pub fn needed_are_axioms()
    ensures { (f : Af) → IsNumberedAf f → (name : AxiomName) → IsNeeded (af f) name → IsAxiomOf (af f) name }
{}
