//! A propagator that is built anew from some steps of a log.

ghost use Rattle.std.specs.Prelude.{◌≡◌, ℕ, List, [], ◌∷◌, ◌++◌, Contains, IfOk, OnOk};
ghost use Rattle.hinted_log.specs.Logs.{Step, IsStepOf};
ghost use Rattle.sleeping_clauses.specs.declared.sleepers.Sleeper.{Sleeper};
ghost use Rattle.sleeping_clauses.specs.Sleeping.{AreSleepers, AreLoaded};

use crate::sleepers::{Sleeper, levels_at, sleeper_of};
use hinted_log::Log;
use lists::Memory;
use plain_lits::{Lit, PackedLit, StepId};
use std::alloc::Global;
use unit_propagate::Propagator;

/// A propagator with the steps that its clauses are, their numbers of levels, and the steps that sleep.
#[derive(Drop)]
pub struct Loaded {
    pub search: Propagator,
    pub awake: Vec<StepId>,
    pub levels: Vec<u32>,
    pub asleep: Vec<Sleeper>,
}

/// The literals of a clause.
pub fn unpacked(alloc: Global, clause: &[PackedLit]) -> Result<Vec<Lit>, Memory>
    ensures { IfOk result (λ lits. lits.items ≡ clause.now) }
{
    let mut lits = Vec::new(alloc);
    for packed in clause {
        lits.push(packed.lit())?;
    }
    Ok(lits)
}

/// Notes the number of levels of a clause that is about to come.
pub fn push_levels(levels: &mut Vec<u32>, number: u32) -> Result<(), Memory> {
    levels.push(number)?;
    Ok(())
}

impl Loaded {
    /// No clause, and the steps that sleep already.
    fn open(alloc: Global, asleep: &[Sleeper]) -> Result<Loaded, Memory>
        ensures { IfOk result (λ loaded. (steps : List Step) → AreSleepers steps asleep.now
            → AreLoaded loaded asleep.now [] steps) }
    {
        let search = Propagator::open(alloc)?;
        let asleep = Vec::from_slice(alloc, asleep)?;
        Ok(Loaded {
            search,
            awake: Vec::new(alloc),
            levels: Vec::new(alloc),
            asleep,
        })
    }

    /// Adds the clause of a step.
    fn admit(&mut self, alloc: Global, log: &Log, step: StepId, levels: u32) -> Result<(), Memory>
        requires { IsStepOf log.now.steps step }
        ensures { OnOk result ((asleep : List Sleeper) (done : List ℕ) → AreLoaded self.old asleep done log.now.steps
            → AreLoaded self.new asleep (done ++ step ∷ []) log.now.steps) }
    {
        let lits = unpacked(alloc, log.clause(step))?;
        self.awake.reserve(1)?;
        push_levels(&mut self.levels, levels)?;
        let _ = self.search.add(&lits)?;
        let _ = self.awake.push(step);
        Ok(())
    }

    /// Has a step sleep, where it may and is derived, or adds its clause.
    fn place(
        &mut self,
        alloc: Global,
        log: &Log,
        counts: &[u32],
        step: StepId,
        levels: u32,
        sleeps: bool,
    ) -> Result<(), Memory>
        requires { IsStepOf log.now.steps step }
        ensures { OnOk result ((asleep : List Sleeper) (done : List ℕ) → AreLoaded self.old asleep done log.now.steps
            → AreLoaded self.new asleep (done ++ step ∷ []) log.now.steps) }
    {
        if !sleeps {
            return self.admit(alloc, log, step, levels);
        }
        match sleeper_of(log, counts, step) {
            Some(sleeper) => {
                self.asleep.push(sleeper)?;
                Ok(())
            }
            None => self.admit(alloc, log, step, levels),
        }
    }
}

/// A propagator with the steps of a list, but for those that fall asleep: derived ones with so many levels.
pub fn load(
    alloc: Global,
    log: &Log,
    awake: &[StepId],
    levels: &[u32],
    asleep: &[Sleeper],
    counts: &[u32],
    bar: u32,
) -> Result<Loaded, Memory>
    requires steps { (number : ℕ) → Contains awake.now number → IsStepOf log.now.steps number }
    requires asleep { AreSleepers log.now.steps asleep.now }
    ensures { IfOk result (λ loaded. AreLoaded loaded asleep.now awake.now log.now.steps) }
{
    let mut loaded = Loaded::open(alloc, asleep)?;
    for index in 0..awake.len() {
        let levels = levels_at(levels, index);
        loaded.place(alloc, log, counts, awake[index], levels, levels >= bar)?;
    }
    Ok(loaded)
}
