//! The laws that show the needed axioms and loop clauses to be the right ones. Each function does nothing; its contract
//! is the law.

ghost use Rattle.std.specs.Prelude.{ℕ, List};
ghost use Rattle.lists.specs.Members.{IsSetOf, IsWithin};
ghost use Rattle.semantics.specs.AbaFrameworks.{Aba, IsNumberedAba};
ghost use Rattle.meaning_atoms.specs.AxiomNames.{IsAxiomName};
ghost use Rattle.meaning_atoms.specs.declared.atom.Atom.TheVariants.{Asm};
ghost use Rattle.meaning_atoms.specs.declared.atom.AtomLit.{AtomLit};
ghost use Rattle.meaning_atoms.specs.declared.atom.Closure.{Closure};
ghost use Rattle.meaning_atoms.specs.declared.axiom.AxiomName.{AxiomName};
ghost use Rattle.semantics.specs.Frameworks.{aba};
ghost use Rattle.oracle_face.specs.Decoding.{IsDecoded, IsModelOf, ReadsBack};
ghost use Rattle.oracle_face.specs.Needed.{IsNeeded};
ghost use Rattle.aba_encoding.specs.AbaModels.{DescribesInAba, IsFounded, IsModelOfSetInAba};

/// The set that a model is read as, where what it derives is founded, has each mode that the model affirms; each
/// assumption is a member and each atom is in a closure of the set exactly where the model affirms it; and the set
/// attacks each assumption that the model calls hit.
pub fn models_describe()
    ensures { (f : Aba) (values : List AtomLit) (set : List ℕ) → IsNumberedAba f → IsModelOf (aba f) values
        → IsSetOf (IsDecoded Asm values) set → ((k : Closure) → IsFounded f values set k)
        → DescribesInAba f values set }
{}

/// Whatever such a model says of modes, of assumptions as members and of atoms in closures is so of the set that it is
/// read as.
pub fn models_read_back()
    ensures { (f : Aba) (values : List AtomLit) (set : List ℕ) → IsNumberedAba f → IsModelOf (aba f) values
        → IsSetOf (IsDecoded Asm values) set → ((k : Closure) → IsFounded f values set k)
        → ReadsBack (aba f) values set }
{}

/// Each set of assumptions is read from some model, which affirms each mode that the set has, and from which nothing is
/// missing: the needed axioms exclude no set.
pub fn sets_have_models()
    ensures { (f : Aba) (set : List ℕ) → IsNumberedAba f → IsWithin set f.assumptions
        → (values : List AtomLit) × IsModelOfSetInAba f values set }
{}

/// What a framework needs is an axiom: its numbers are within the bounds of its row.
pub fn needed_are_axioms()
    ensures { (f : Aba) → IsNumberedAba f → (name : AxiomName) → IsNeeded (aba f) name → IsAxiomName name }
{}
