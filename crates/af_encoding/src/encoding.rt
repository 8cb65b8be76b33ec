//! Abstract frameworks as one kind of framework in clauses.

ghost use Rattle.std.specs.Prelude.{◌≡◌, ◌↔◌, ℕ, List, Contains, IfOk, IfSome, IfNone, None};
ghost use Rattle.lists.specs.Members.{IsSetOf};
ghost use Rattle.semantics.specs.Frameworks.{af};
ghost use Rattle.meaning_atoms.specs.declared.atom.Atom.TheVariants.{Live};
ghost use Rattle.meaning_atoms.specs.declared.axiom.AxiomName.{AxiomName};
ghost use Rattle.oracle_face.specs.Decoding.{IsDecoded, IsModelOf, IsNewLoop, ReadsBack};
ghost use Rattle.oracle_face.specs.Needed.{IsNeeded};

use crate::{decoding, facts, needed_axioms, neighbourhood};
use dung_notions::AfPlain;
use lists::{Items, Memory};
use meaning_atoms::{Atom, AtomLit, AxiomName};
use oracle_face::Encoding;
use set_lists::NumSet;
use std::alloc::Global;

/// Abstract frameworks in clauses over atoms.
#[derive(Clone, Copy)]
pub struct AfEncoding;

impl Encoding for AfEncoding {
    ghost use Rattle.semantics.specs.Frameworks.{af};
    ghost use Rattle.meaning_atoms.specs.declared.atom.Atom.TheVariants.{Live};

    type Plain = AfPlain;

    ghost framework = { λ f. af f };

    ghost vouches = { λ a. Live a };

    fn needed(alloc: Global, plain: &AfPlain) -> Result<Items<AxiomName>, Memory> {
        needed_axioms::needed(alloc, plain)
    }

    fn decode(alloc: Global, values: &[AtomLit]) -> Result<NumSet, Memory> {
        decoding::decode(alloc, values)
    }

    fn fact(plain: &AfPlain, atom: &Atom) -> Option<bool> {
        facts::fact(plain, atom)
    }

    /// The facts on the arguments that goals speak of and on those near them.
    fn near(alloc: Global, plain: &AfPlain, goals: &[AtomLit]) -> Result<Items<Atom>, Memory> {
        neighbourhood::near(alloc, plain, goals)
    }

    /// Always none: a model of the needed axioms lacks nothing.
    fn missing(
        alloc: Global,
        plain: &AfPlain,
        values: &[AtomLit],
    ) -> Result<Option<AxiomName>, Memory>
        ensures none { result ≡ Ok None }
        ensures lacks { IfOk result (λ name. IfSome name (IsNewLoop (af plain.now) values.now)) }
        ensures reads { IfOk result (λ name. name ≡ None → IsModelOf (af plain.now) values.now
            → (set : List ℕ) → IsSetOf (IsDecoded Live values.now) set
            → ReadsBack (af plain.now) values.now set) }
    {
        // That the framework has its form, on which the reading of a model rests, is told by its lists alone.
        let _live = plain.live();
        Ok(None)
    }
}
