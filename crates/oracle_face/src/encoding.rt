//! How a framework is put into clauses, and models are read as sets.

ghost use Rattle.std.specs.Prelude.{◌≡◌, ◌↔◌, Contains, IfOk, IfSome, IfNone, None};
ghost use Rattle.lists.specs.Members.{IsSetOf};
ghost use Rattle.certificate_claims.specs.meaning_atoms.specs.Worlds.{IsFact};
ghost use Rattle.certificate_claims.specs.af_axioms.specs.Facts.{IsFactValue};
ghost use Rattle.oracle_face.specs.Decoding.{IsDecoded, IsModelOf, IsNewLoop, ReadsBack, TellsMembers};
ghost use Rattle.oracle_face.specs.Needed.{IsNeeded};

use lists::{Items, Memory};
use meaning_atoms::{Atom, AtomLit, AxiomName};
use set_lists::NumSet;
use std::alloc::Global;

/// One kind of framework in clauses over atoms.
pub trait Encoding {
    ghost use Rattle.std.specs.Prelude.{ℕ, List};
    ghost use Rattle.certificate_claims.specs.semantics.specs.Frameworks.{Framework};
    ghost use Rattle.certificate_claims.specs.meaning_atoms.specs.declared.atom.Atom.{Atom};

    /// A framework of this kind.
    type Plain;

    /// The framework that contracts see in a value of `Plain`.
    ghost framework: { Self.Plain → Framework };
    /// The atom that says of a number that it is a member of the framework.
    ghost vouches: { ℕ → Atom };

    /// The axioms that a search needs for the framework: exactly these, in any order.
    fn needed(alloc: Global, plain: &Self::Plain) -> Result<Items<AxiomName>, Memory>
        ensures { IfOk result (λ names. (name : AxiomName) → Contains names name
            ↔ IsNeeded (framework plain.now) name) };

    /// The set that literals are read as: each number of which they say that it is in the set, and that it is a member of
    /// the framework.
    fn decode(alloc: Global, values: &[AtomLit]) -> Result<NumSet, Memory>
        ensures { IfOk result (IsSetOf (IsDecoded vouches values.now)) };

    /// Whether an atom is so that the framework alone fixes; None exactly where it doesn't.
    fn fact(plain: &Self::Plain, atom: &Atom) -> Option<bool>
        ensures some { IfSome result (IsFactValue (framework plain.now) atom.now) }
        ensures none { IfNone result (¬ IsFact (framework plain.now) atom.now) };

    /// Atoms that the framework may fix, near what goals speak of. A search looks first whether the facts among them refute
    /// the goals by themselves. It is advice: any list will do, and with an empty one there is no such look.
    fn near(alloc: Global, plain: &Self::Plain, goals: &[AtomLit]) -> Result<Items<Atom>, Memory>;

    /// The axiom that a model of the needed axioms lacks to be read as a set, or None. An axiom that it lacks is false under
    /// a model that is free from conflict and says of each member whether it is in the set. Where there is none, what the
    /// model says reads back.
    fn missing(
        alloc: Global,
        plain: &Self::Plain,
        values: &[AtomLit],
    ) -> Result<Option<AxiomName>, Memory>
        ensures lacks { IsModelOf (framework plain.now) values.now → TellsMembers (framework plain.now) values.now
            → IfOk result (λ name. IfSome name (IsNewLoop (framework plain.now) values.now)) }
        ensures reads { IfOk result (λ name. name ≡ None → IsModelOf (framework plain.now) values.now
            → (set : List ℕ) → IsSetOf (IsDecoded vouches values.now) set
            → ReadsBack (framework plain.now) values.now set) };
}
