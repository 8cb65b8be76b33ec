//! What a framework says of sets, by its kind.

ghost use Rattle.std.specs.Prelude.{◌≡◌, ◌↔◌, Some, IfOk, IsTrue, length};
ghost use Rattle.semantics.specs.AbaFrameworks.{IsInTheory};
ghost use Rattle.semantics.specs.Frameworks.{aba};
ghost use Rattle.semantics.specs.Laws.{HasSameMembers};
ghost use Rattle.meaning_atoms.specs.declared.atom.Atom.TheVariants.{Ad};
ghost use Rattle.meaning_atoms.specs.Worlds.{HoldsOf};
ghost use Rattle.certificate_claims.specs.Acceptance.{GroundedSays};
ghost use Rattle.certificate_claims.specs.Claims.{mode_atom};
ghost use Rattle.certificate_claims.specs.Rights.{Accepts, IsExtension};
ghost use Rattle.certificate_claims.specs.SetLiterals.{members};
ghost use Rattle.edit_rules.specs.Kinds.{framework_of};
ghost use Rattle.iccma_tasks.specs.declared.task.Semantics.TheVariants.{Complete, Grounded, Stable};
ghost use Rattle.set_tests.specs.Bases.{AreTests, IsBasis, IsTested, IsUsesFor, ListsUnattacked};

use aba_notions::AbaPlain;
use dung_notions::AfPlain;
use edit_rules::Framework;
use iccma_tasks::Semantics;
use lists::Memory;
use marked_rules::{RuleUses, SetMarks, assumptions};
use marked_sets::arguments;
use semantics::Mode;
use set_lists::NumSet;
use std::alloc::Global;

/// A framework, and what the tests of sets by its rules look up.
#[derive(Clone, Copy)]
pub struct SetTests<'a> {
    pub framework: &'a Framework,
    pub uses: &'a RuleUses,
}

/// What the tests of sets by a framework's rules look up.
pub fn uses_of(alloc: Global, framework: &Framework) -> Result<RuleUses, Memory>
    ensures { IfOk result (IsUsesFor (framework_of framework.now)) }
{
    match framework {
        Framework::Af(_) => Ok(RuleUses::none(alloc)?),
        Framework::Aba(plain) => Ok(RuleUses::new(alloc, plain)?),
    }
}

impl SetTests<'_> {
    /// Whether a set is admissible. `marks` is room that one test leaves to the next, here and in the other calls.
    pub fn is_admissible(
        &self,
        alloc: Global,
        set: &NumSet,
        marks: &mut SetMarks,
    ) -> Result<bool, Memory>
        requires { AreTests self.now }
        ensures { IfOk result (λ is. IsTrue is ↔ HoldsOf (framework_of self.now.framework.now) set.now Ad) }
    {
        match self.framework {
            Framework::Af(plain) => Ok(arguments::is_admissible(
                alloc,
                plain,
                set,
                &mut marks.arguments,
            )?),
            Framework::Aba(plain) => Ok(assumptions::is_admissible(
                alloc, plain, self.uses, set, marks,
            )?),
        }
    }

    /// Whether a set is of the mode.
    pub fn is_of_mode(
        &self,
        alloc: Global,
        mode: Mode,
        set: &NumSet,
        marks: &mut SetMarks,
    ) -> Result<bool, Memory>
        requires { AreTests self.now }
        ensures { IfOk result (λ is. IsTrue is
            ↔ HoldsOf (framework_of self.now.framework.now) set.now (mode_atom mode)) }
    {
        match (mode, self.framework) {
            (Mode::Ad, _) => Ok(self.is_admissible(alloc, set, marks)?),
            (Mode::Cf, Framework::Af(plain)) => Ok(arguments::is_conflict_free(
                alloc,
                plain,
                set,
                &mut marks.arguments,
            )?),
            (Mode::Cf, Framework::Aba(plain)) => Ok(plain.is_conflict_free(alloc, set)?),
        }
    }

    /// Whether a set accepts what is asked about: it has the argument, or derives the atom.
    pub fn accepts(
        &self,
        alloc: Global,
        set: &NumSet,
        number: u32,
        marks: &mut SetMarks,
    ) -> Result<bool, Memory>
        requires { AreTests self.now }
        ensures { IfOk result (λ accepts. IsTrue accepts
            ↔ Accepts (framework_of self.now.framework.now) set.now number) }
    {
        match self.framework {
            Framework::Af(_) => Ok(set.contains(number)),
            Framework::Aba(plain) => Ok(assumptions::derives(
                alloc, plain, self.uses, set, number, marks,
            )?),
        }
    }

    /// Whether a set is an extension under a semantics whose extensions are tested directly: complete, grounded or
    /// stable.
    pub fn is_extension(
        &self,
        alloc: Global,
        semantics: Semantics,
        basis: &Basis,
        set: &NumSet,
        marks: &mut SetMarks,
    ) -> Result<bool, Memory>
        requires tests { AreTests self.now }
        requires tested { IsTested semantics }
        requires basis { IsBasis (framework_of self.now.framework.now) semantics basis.now }
        ensures { IfOk result (λ is. IsTrue is
            ↔ IsExtension (framework_of self.now.framework.now) semantics set.now) }
    {
        match semantics {
            Semantics::Complete => {
                let unattacked = basis.unattacked.as_slice();
                Ok(self.is_complete(alloc, unattacked, set, marks)?)
            }
            Semantics::Grounded => Ok(is_grounded(self.framework, &basis.grounded, set)),
            Semantics::Stable => Ok(self.is_stable(alloc, set, marks)?),
            _ => Ok(false),
        }
    }

    /// Whether a set is complete, beside the arguments that nothing attacks.
    fn is_complete(
        &self,
        alloc: Global,
        unattacked: &[u32],
        set: &NumSet,
        marks: &mut SetMarks,
    ) -> Result<bool, Memory>
        requires tests { AreTests self.now }
        requires listed { ListsUnattacked (framework_of self.now.framework.now) unattacked.now }
        ensures { IfOk result (λ is. IsTrue is
            ↔ IsExtension (framework_of self.now.framework.now) Complete set.now) }
    {
        match self.framework {
            Framework::Af(plain) => Ok(arguments::is_complete(
                alloc,
                plain,
                unattacked,
                set,
                &mut marks.arguments,
            )?),
            Framework::Aba(plain) => Ok(assumptions::is_complete(
                alloc, plain, self.uses, set, marks,
            )?),
        }
    }

    /// Whether a set is stable.
    fn is_stable(&self, alloc: Global, set: &NumSet, marks: &mut SetMarks) -> Result<bool, Memory>
        requires { AreTests self.now }
        ensures { IfOk result (λ is. IsTrue is ↔ IsExtension (framework_of self.now.framework.now) Stable set.now) }
    {
        match self.framework {
            Framework::Af(plain) => Ok(arguments::is_stable(
                alloc,
                plain,
                set,
                &mut marks.arguments,
            )?),
            Framework::Aba(plain) => Ok(assumptions::is_stable(
                alloc, plain, self.uses, set, marks,
            )?),
        }
    }
}

/// Whether a set derives an atom.
fn derives(alloc: Global, plain: &AbaPlain, set: &NumSet, atom: u32) -> Result<bool, Memory>
    ensures { IfOk result (λ derives. IsTrue derives ↔ IsInTheory plain.now set.now atom) }
{
    let theory = plain.closure_of(alloc, set)?;
    Ok(theory.contains(atom))
}

/// How many numbers there are that sets are made of.
pub fn member_count(framework: &Framework) -> usize
    ensures { result ≡ length (members (framework_of framework.now)) }
{
    match framework {
        Framework::Af(plain) => plain.live().len(),
        Framework::Aba(plain) => plain.assumptions().len(),
    }
}

/// What the tests of all sets share. It is found once.
pub struct Basis {
    /// The arguments that nothing attacks, where sets are to be complete.
    pub unattacked: Vec<u32>,
    /// The grounded set, where sets are to be grounded.
    pub grounded: NumSet,
}

// By hand, so that a drop is one call (docs/PROVING.md).
impl Drop for Basis {
    fn drop(self) {
        let Basis {
            unattacked: _,
            grounded: _,
        } = self;
    }
}

/// What tests under a semantics share.
pub fn basis_of(alloc: Global, framework: &Framework, semantics: Semantics) -> Result<Basis, Memory>
    ensures { IfOk result (IsBasis (framework_of framework.now) semantics) }
{
    match semantics {
        Semantics::Complete => {
            let unattacked = unattacked_of(alloc, framework)?;
            Ok(Basis {
                unattacked,
                grounded: NumSet::new(alloc),
            })
        }
        Semantics::Grounded => {
            let grounded = grounded_of(alloc, framework)?;
            Ok(Basis {
                unattacked: Vec::new(alloc),
                grounded,
            })
        }
        _ => Ok(Basis {
            unattacked: Vec::new(alloc),
            grounded: NumSet::new(alloc),
        }),
    }
}

/// The arguments of an abstract framework that nothing attacks.
fn unattacked_of(alloc: Global, framework: &Framework) -> Result<Vec<u32>, Memory>
    ensures { IfOk result (λ found. ListsUnattacked (framework_of framework.now) found.items) }
{
    match framework {
        Framework::Af(plain) => Ok(arguments::unattacked(alloc, plain)?),
        Framework::Aba(_) => Ok(Vec::new(alloc)),
    }
}

/// The grounded set.
fn grounded_of(alloc: Global, framework: &Framework) -> Result<NumSet, Memory>
    ensures { IfOk result (λ grounded. IsExtension (framework_of framework.now) Grounded grounded) }
{
    match framework {
        Framework::Af(plain) => Ok(plain.grounded(alloc)?.set),
        Framework::Aba(plain) => Ok(plain.grounded(alloc)?),
    }
}

/// Whether a set is the grounded set.
fn is_grounded(framework: &Framework, grounded: &NumSet, set: &NumSet) -> bool
    requires { IsExtension (framework_of framework.now) Grounded grounded.now }
    ensures { IsTrue result ↔ IsExtension (framework_of framework.now) Grounded set.now }
{
    let _kind = framework.kind();
    is_same(set, grounded)
}

/// Whether two sets have the same members.
fn is_same(set: &NumSet, other: &NumSet) -> bool
    ensures { IsTrue result ↔ HasSameMembers set.now other.now }
{
    set.within(other) && other.within(set)
}

/// Whether the grounded set accepts what is asked about.
pub fn grounded_accepts(alloc: Global, framework: &Framework, number: u32) -> Result<bool, Memory>
    ensures { IfOk result (λ accepts. GroundedSays (framework_of framework.now) accepts (Some number)) }
{
    match framework {
        Framework::Af(plain) => {
            let grounded = plain.grounded(alloc)?.set;
            Ok(grounded.contains(number))
        }
        Framework::Aba(plain) => Ok(aba_grounded_accepts(alloc, plain, number)?),
    }
}

/// The same of an assumption-based framework.
fn aba_grounded_accepts(alloc: Global, plain: &AbaPlain, number: u32) -> Result<bool, Memory>
    ensures { IfOk result (λ accepts. GroundedSays (aba plain.now) accepts (Some number)) }
{
    let grounded = plain.grounded(alloc)?;
    let accepts = derives(alloc, plain, &grounded, number)?;
    Ok(accepts)
}
