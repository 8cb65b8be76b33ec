//! What a framework of either kind gives to a search.

ghost use Rattle.std.specs.Prelude.{◌≡◌, ◌↔◌, IfOk, IsTrue};
ghost use Rattle.semantics.specs.AbaFrameworks.{IsInTheory};
ghost use Rattle.meaning_atoms.specs.declared.atom.Atom.TheVariants.{Cf};
ghost use Rattle.meaning_atoms.specs.Worlds.{HoldsOf};
ghost use Rattle.certificate_claims.specs.Rights.{Accepts};
ghost use Rattle.certificate_claims.specs.SetLiterals as set_literals;
ghost use Rattle.edit_rules.specs.Kinds.{framework_of};
ghost use Rattle.oracle_face.specs.Kinds.{is_assumption_based};
ghost use Rattle.oracle_face.specs.Parts.{IsLargestPart};
ghost use Rattle.framework_solver.specs.Needing.{AreNeeded};
ghost use Rattle.framework_solver.specs.Solvers.{HasRange};

use aba_notions::AbaPlain;
use edit_rules::Framework;
use ideal_set::{largest_part, largest_part_of_assumptions};
use lists::{Items, Memory};
use meaning_atoms::AxiomName;
use set_lists::NumSet;
use std::alloc::Global;

/// The numbers that sets of a framework are made of.
pub fn members_of(alloc: Global, framework: &Framework) -> Result<NumSet, Memory>
    ensures { IfOk result (λ members. members ≡ set_literals.members (framework_of framework.now)) }
{
    match framework {
        Framework::Af(plain) => NumSet::from_rising(alloc, plain.live()),
        Framework::Aba(plain) => plain.assumptions().copy(alloc),
    }
}

/// The axioms that a framework needs.
pub fn needed_of(alloc: Global, framework: &Framework) -> Result<Items<AxiomName>, Memory>
    ensures { IfOk result (AreNeeded (framework_of framework.now)) }
{
    match framework {
        Framework::Af(plain) => af_encoding::needed(alloc, plain),
        Framework::Aba(plain) => aba_encoding::needed(alloc, plain),
    }
}

/// Whether a framework is assumption-based.
pub fn is_aba(framework: &Framework) -> bool
    ensures { result ≡ is_assumption_based (framework_of framework.now) }
{
    match framework {
        Framework::Af(_) => false,
        Framework::Aba(_) => true,
    }
}

/// A set with the members of the framework that it attacks.
pub fn range_of(alloc: Global, framework: &Framework, set: &NumSet) -> Result<NumSet, Memory>
    ensures { IfOk result (HasRange (framework_of framework.now) set.now) }
{
    match framework {
        Framework::Af(plain) => {
            let range = plain.range_of(alloc, set)?;
            Ok(range)
        }
        Framework::Aba(plain) => {
            let attacked = plain.attacked_by(alloc, set)?;
            set.union(alloc, &attacked)
        }
    }
}

/// The largest admissible part of a conflict-free set without some numbers.
pub fn admissible_part_of(
    alloc: Global,
    framework: &Framework,
    set: &NumSet,
    without: &NumSet,
) -> Result<NumSet, Memory>
    requires { HoldsOf (framework_of framework.now) set.now Cf }
    ensures { IfOk result (IsLargestPart (framework_of framework.now) set.now without.now) }
{
    match framework {
        Framework::Af(plain) => largest_part(alloc, plain, set, without),
        Framework::Aba(plain) => largest_part_of_assumptions(alloc, plain, set, without),
    }
}

/// Whether a set of a framework accepts a number: it has the argument, or derives the atom.
pub fn accepts(
    alloc: Global,
    framework: &Framework,
    goal: u32,
    set: &NumSet,
) -> Result<bool, Memory>
    ensures { IfOk result (λ accepts. IsTrue accepts ↔ Accepts (framework_of framework.now) set.now goal) }
{
    match framework {
        Framework::Af(_) => Ok(set.contains(goal)),
        Framework::Aba(plain) => derives(alloc, plain, goal, set),
    }
}

/// Whether a set of assumptions derives an atom.
fn derives(alloc: Global, plain: &AbaPlain, atom: u32, set: &NumSet) -> Result<bool, Memory>
    ensures { IfOk result (λ derives. IsTrue derives ↔ IsInTheory plain.now set.now atom) }
{
    let theory = plain.closure_of(alloc, set)?;
    Ok(theory.contains(atom))
}
