//! The steps of a log by their names.

ghost use Rattle.std.specs.Prelude.{◌≡◌, ◌+◌, [], IfOk, OnErr, OnOk, Some, length};
ghost use Rattle.entry_taking.specs.Names as names;
ghost use Rattle.entry_taking.specs.Names.{AreNamed, IsNoted, IsPut, IsSameNames, told_of};
ghost use Rattle.entry_taking.specs.declared.names.StepName.TheVariants.{Axiom};

use crate::name_digest::digest_of;
use atom_solver::AtomSolver;
use indexmap::IndexMap;
use lists::Memory;
use meaning_atoms::AxiomName;
use oracle_face::StepSource;
use plain_lits::StepId;
use std::alloc::Global;
use std::hash::{Hash, Hasher};

/// What a step is called by: it is an axiom, or it was taken from the entry of a session and a step of its log.
#[derive(Drop, PartialEq, Eq)]
pub enum StepName {
    Axiom(AxiomName),
    Entry(u32, StepId),
}

impl Hash for StepName {
    ghost use Rattle.std.proofs.Common.{ap};
    ghost use Rattle.entry_taking.specs.Digests.{fed_in};
    ghost use Rattle.entry_taking.specs.NameEquality.{name_decides};

    ghost hash_input = { fed_in };

    ghost respects_eq = { λ x y e. ap fed_in ((name_decides x y).0 e) };

    fn hash<H: Hasher>(&self, state: &mut H) {
        let digest = digest_of(self);
        state.write_u32(digest.row);
        state.write_u32(digest.closure);
        state.write_u32(digest.first);
        state.write_u32(digest.second);
        state.write_u32(digest.third);
    }
}

/// The names of the first steps of a log, each with the first step that is called so.
pub struct StepNames {
    pub(crate) steps: IndexMap<StepName, StepId>,
    /// How many steps were looked at.
    pub(crate) seen: usize,
}

// By hand, so that a drop is one call (docs/PROVING.md).
impl Drop for StepNames {
    fn drop(self) {
        let StepNames { steps: _, seen: _ } = self;
    }
}

/// What a step from there is called by.
fn name_of(origin: StepSource) -> Option<StepName>
    ensures { result ≡ names.name_of origin }
{
    match origin {
        StepSource::Axiom(name) => Some(StepName::Axiom(name)),
        StepSource::Entry(name) => Some(StepName::Entry(name.session, name.step)),
        StepSource::Side(_) | StepSource::Hints => None,
    }
}

impl StepNames {
    /// No name, of no step.
    pub fn new(alloc: Global) -> StepNames
        ensures { AreNamed result [] }
    {
        StepNames {
            steps: IndexMap::new(alloc),
            seen: 0,
        }
    }

    /// The first step that is called so, of those that were looked at.
    pub(crate) fn find(&self, name: &StepName) -> Option<StepId>
        ensures { result ≡ told_of self.now name.now }
    {
        self.steps.get(name).copied()
    }

    /// The first step of an axiom, of those that were looked at.
    pub(crate) fn find_axiom(
        &self,
        alloc: Global,
        name: &AxiomName,
    ) -> Result<Option<StepId>, Memory>
        ensures { IfOk result (λ found. found ≡ told_of self.now (Axiom name.now)) }
    {
        let key = StepName::Axiom(name.copy(alloc)?);
        Ok(self.find(&key))
    }

    /// Tells a step with its name, where it has one and no step before it is called so.
    fn put_if(&mut self, name: Option<StepName>, step: StepId) -> Result<(), Memory>
        ensures put { OnOk result (IsPut name step self.old self.new) }
        ensures err { OnErr result (IsSameNames self.old self.new) }
    {
        match name {
            Some(name) => self.put(name, step),
            None => Ok(()),
        }
    }

    /// Tells a step with its name, where no step before it is called so.
    fn put(&mut self, name: StepName, step: StepId) -> Result<(), Memory>
        ensures put { OnOk result (IsPut (Some name) step self.old self.new) }
        ensures err { OnErr result (IsSameNames self.old self.new) }
    {
        let told = self.steps.get(&name).is_some();
        if told {
            return Ok(());
        }
        self.steps.insert(name, step)?;
        Ok(())
    }

    /// Looks at one step more.
    fn note(&mut self, origin: StepSource, step: StepId) -> Result<(), Memory>
        requires { step ≡ self.old.seen + 1 }
        ensures noted { OnOk result (IsNoted origin step self.old self.new) }
        ensures err { OnErr result (IsSameNames self.old self.new) }
    {
        let name = name_of(origin);
        self.put_if(name, step)?;
        self.seen += 1;
        Ok(())
    }

    /// Looks at the steps of a log that were not looked at yet.
    pub(crate) fn look(&mut self, alloc: Global, solver: &AtomSolver) -> Result<(), Memory>
        requires { AreNamed self.old solver.now.log.steps }
        ensures named { AreNamed self.new solver.now.log.steps }
        ensures seen { OnOk result (self.new.seen ≡ length solver.now.log.steps) }
    {
        while self.seen < solver.len() {
            let step = StepId::new(self.seen as u32 + 1);
            let origin = solver.origin(alloc, step)?;
            self.note(origin, step)?;
        }
        Ok(())
    }
}
