//! The search: it decides, propagates and learns from conflicts.

ghost use Rattle.std.specs.Prelude.{◌≡◌, ◌≢◌, ◌↔◌, ℕ, ◌<◌, ◌≤◌, [], length, Contains, IfOk, IfSome, OnOk, OnErr};
ghost use Rattle.std.specs.Prelude.{IfErr, Ok, None};
ghost use Rattle.plain_lits.specs.declared.lit.Lit.{Lit};
ghost use Rattle.plain_lits.specs.Literals.{negation};
ghost use Rattle.hinted_log.specs.declared.log.TheConstants.{MAX_STEPS};
ghost use Rattle.unit_propagate.specs.Search.{IsConflict};
ghost use Rattle.sat_core.specs.Solving.{IsUnitOf, EndsCore, HasSearched, AddsTo, IsRejected, Keeps, Derives};
ghost use Rattle.sat_core.specs.Solving.{begun, with_unit};
ghost use Rattle.sat_core.specs.Turns.{state_of, IsKept, IsAtRest, IsReady, Runs, IsAsserting, IsTurn, HasRun, StopsAt};
ghost use Rattle.sat_core.specs.Turns.{Resolves, NotEnded, HasRested, Tells};

use crate::answer::{Added, Solved, UnaddedClause};
use crate::decision_loop::{DecisionLoop, bump_all};
use crate::fronts::{begins_with, has_false, size_of_front};
use crate::logged_clauses::{
    LoggedClauses, derive, record, steps_of, subsuming_sleeper, subsuming_step,
};
use conflict_learn::{Core, Learned, Learner};
use hinted_log::{Log, LogFault, MAX_STEPS};
use lists::{Items, Memory};
use plain_lits::{Budget, Clause, Halt, Lit, StepId, Trail};
use sleeping_clauses::{
    Loaded, bar_of, counts_of, levels_of, load, push_levels, sleeper_at, unpacked,
};
use std::alloc::Global;
use unit_propagate::Propagator;

/// How many conflicts come before clauses fall asleep for the first time, and how many more each further time.
const CONFLICTS_AWAKE: u64 = 2000;

const MORE_CONFLICTS: u64 = 300;

/// How a search ends: all is true, or a step refutes the assumptions, or it stops.
#[derive(Drop)]
pub(crate) enum End {
    Satisfied,
    Refuted(StepId),
    Stopped(Halt),
}

/// What comes of a conflict: a clause is learned, or a step is woken that serves as well, or the search ends.
#[derive(Drop)]
pub(crate) enum Resolved {
    Learned,
    Woken,
    Ended(End),
}

/// Conflict-driven clause learning (Marques-Silva and Sakallah, GRASP, 1996) under assumptions (Eén and Sörensson, An
/// extensible SAT-solver, 2003), with a log of what is learned. The first level has the front, some of the assumptions,
/// and what follows; it stays from one search to the next. The second level has the others.

pub(crate) struct Cdcl {
    pub(crate) alloc: Global,
    pub(crate) decisions: DecisionLoop,
    pub(crate) logged: LoggedClauses,
    pub(crate) learner: Learner,
    pub(crate) pending: Option<UnaddedClause>,
    pub(crate) front: Vec<Lit>,
    pub(crate) tired: u64,
    pub(crate) naps: u64,
}

// By hand, so that a drop is one call (docs/PROVING.md).
impl Drop for Cdcl {
    fn drop(self) {
        let Cdcl {
            alloc: _,
            decisions: _,
            logged: _,
            learner: _,
            pending: _,
            front: _,
            tired: _,
            naps: _,
        } = self;
    }
}

/// The greater of a level and the second one.
fn kept_level(level: usize) -> usize
    ensures positive { 1 < result }
    ensures kept { level ≤ result }
    ensures low { (n : ℕ) → 1 < n → n < result → n < level }
    ensures within { (n : ℕ) → 2 < n → level < n → result < n }
{
    if level <= 2 {
        return 2;
    }
    level
}

/// The number of levels of the clause that was learned last.
fn last_of(levels: &[u32]) -> u32 {
    match levels {
        [] => 0,
        [.., last] => *last,
    }
}

/// What the end of a search tells.
fn solved_of(alloc: Global, search: &Propagator, end: End) -> Result<Solved, Halt>
    ensures { Tells search.now.lits end result }
{
    match end {
        End::Satisfied => match Vec::from_slice(alloc, search.lits()) {
            Ok(lits) => Ok(Solved::Model(Items::from_vec(lits))),
            Err(_) => Err(Halt::Memory),
        },
        End::Refuted(step) => Ok(Solved::Core(step)),
        End::Stopped(halt) => Err(halt),
    }
}

impl Cdcl {
    /// No clause, and a log for at most so many steps.
    pub(crate) fn open(alloc: Global, log_limit: u64) -> Result<Cdcl, Memory>
        requires { log_limit ≤ MAX_STEPS }
        ensures rest { IfOk result IsAtRest }
        ensures limit { IfOk result (λ c. c.logged.log.limit ≡ log_limit) }
        ensures steps { IfOk result (λ c. c.logged.log.steps ≡ []) }
        ensures active { IfOk result (λ c. c.logged.active.items ≡ []) }
        ensures pending { IfOk result (λ c. c.pending ≡ None) }
    {
        let search = Propagator::open(alloc)?;
        let log = Log::open(alloc, log_limit)?;
        Ok(Cdcl {
            alloc,
            decisions: DecisionLoop::new(alloc, search),
            logged: LoggedClauses {
                log,
                active: Vec::new(alloc),
                awake: Vec::new(alloc),
                levels: Vec::new(alloc),
                asleep: Vec::new(alloc),
                falsified: Trail::new(alloc),
            },
            learner: Learner::new(alloc),
            pending: None,
            front: Vec::new(alloc),
            tired: 0,
            naps: 0,
        })
    }

    /// Takes a learned clause: the log gains it, and at the level where it is unit its literal becomes true.
    #[tactic(auto, using(crate::proofs::Keeping::derives_logs))]
    fn take(
        &mut self,
        assumptions: &[Lit],
        learned: &Learned,
        hints: &[StepId],
        levels: u32,
    ) -> Result<(), Memory>
        requires kept { IsKept self.old }
        requires run { Runs assumptions.now self.old }
        requires deep { 2 < length self.old.decisions.search.starts }
        requires room { length self.old.logged.log.steps ≡ self.old.logged.log.limit → ⊥ }
        requires shown { IsUnitOf (state_of self.old) assumptions.now learned.now.clause hints.now }
        requires asserting { IsAsserting self.old.decisions.search learned.now.level learned.now.clause
            learned.now.asserting }
        ensures kept { IsKept self.new }
        ensures derives { Derives (state_of self.old) (state_of self.new) }
        ensures run { OnOk result (Runs assumptions.now self.new) }
        ensures state { OnOk result (state_of self.new ≡ with_unit (state_of self.old) learned.now.clause hints.now) }
    {
        let _before = self.decisions.search.vars();
        self.logged.active.reserve(1)?;
        self.logged.awake.reserve(1)?;
        push_levels(&mut self.logged.levels, levels)?;
        let clause = learned.clause.copy(self.alloc)?;
        let step = derive(&mut self.logged.log, clause, hints)?;
        self.decisions.back_to(kept_level(learned.level));
        let _form = self.decisions.search.vars();
        let _ = self
            .decisions
            .search
            .add_learned(learned.clause.as_slice(), learned.asserting)?;
        let _ = self.logged.active.push(step);
        let _ = self.logged.awake.push(step);
        Ok(())
    }

    /// Learns from a conflict above the second level, where the budget has a unit for that.
    #[tactic(auto, using(crate::proofs::Keeping::derives_logs))]
    fn learn_from(
        &mut self,
        assumptions: &[Lit],
        conflict: u32,
        budget: &mut Budget,
    ) -> Result<Resolved, Halt>
        requires kept { IsKept self.old }
        requires run { Runs assumptions.now self.old }
        requires deep { 2 < length self.old.decisions.search.starts }
        requires conflict { IsConflict self.old.decisions.search.clauses self.old.decisions.search.lits conflict }
        ensures kept { IsKept self.new }
        ensures derives { Derives (state_of self.old) (state_of self.new) }
        ensures goes { IfOk result (Resolves (state_of self.old) (length self.old.logged.asleep.items) self.new
            assumptions.now budget.old budget.new) }
        ensures goes_on { IfOk result NotEnded }
        ensures run { OnOk result (Runs assumptions.now self.new) }
        ensures stops { IfErr result (StopsAt (state_of self.old) self.new assumptions.now budget.old budget.new) }
        ensures limit { budget.new.limit ≡ budget.old.limit }
    {
        let _form = self.decisions.search.vars();
        let learned = self.learner.learn(&self.decisions.search, conflict)?;
        let vars = self.decisions.search.vars();
        let found = subsuming_sleeper(
            &self.logged.log,
            &self.logged.asleep,
            &mut self.logged.falsified,
            learned.clause.as_slice(),
            vars,
        )?;
        match found {
            Some(index) => {
                self.wake(assumptions, index)?;
                return Ok(Resolved::Woken);
            }
            None => {}
        }
        let hints = steps_of(self.alloc, &self.logged.awake, learned.hints.as_slice())?;
        if self.logged.log.is_full() {
            return Err(Halt::LogFull);
        }
        if !budget.spend() {
            self.pending = Some(UnaddedClause {
                clause: learned.clause,
                hints,
            });
            return Err(Halt::Spent(budget.used()));
        }
        bump_all(
            &self.decisions.search,
            &mut self.decisions.order,
            learned.hints.as_slice(),
        );
        let levels = levels_of(
            self.alloc,
            &self.decisions.search,
            learned.clause.as_slice(),
        )?;
        self.take(assumptions, &learned, hints.as_slice(), levels)?;
        Ok(Resolved::Learned)
    }

    /// Ends a search by a step that refutes the assumptions: one that is there, or one that is derived.
    #[tactic(auto, using(crate::proofs::Keeping::derives_logs))]
    fn derive_core(&mut self, assumptions: &[Lit], conflict: u32) -> Result<StepId, Halt>
        requires kept { IsKept self.old }
        requires run { Runs assumptions.now self.old }
        requires shallow { length self.old.decisions.search.starts ≤ 2 }
        requires conflict { IsConflict self.old.decisions.search.clauses self.old.decisions.search.lits conflict }
        ensures kept { IsKept self.new }
        ensures derives { Derives (state_of self.old) (state_of self.new) }
        ensures core { IfOk result (EndsCore (state_of self.old) (state_of self.new) assumptions.now) }
        ensures full { result ≡ Err Halt.LogFull → (state_of self.new ≡ state_of self.old)
            × (length self.new.logged.log.steps ≡ self.new.logged.log.limit) }
        ensures unspent { (count : ℕ) → result ≡ Err (Halt.Spent count) → ⊥ }
    {
        let vars = self.decisions.search.vars();
        let Core { clause, hints } = self.learner.final_core(&self.decisions.search, conflict)?;
        let subsuming = subsuming_step(
            &self.logged.log,
            &mut self.logged.falsified,
            clause.as_slice(),
            vars,
        )?;
        match subsuming {
            Some(step) => return Ok(step),
            None => {}
        }
        if self.logged.log.is_full() {
            return Err(Halt::LogFull);
        }
        let hints = steps_of(self.alloc, &self.logged.awake, hints.as_slice())?;
        let step = derive(&mut self.logged.log, clause, hints.as_slice())?;
        Ok(step)
    }

    /// Resolves a conflict: it ends the search on the first two levels, and else a clause is learned or a step woken.
    #[tactic(auto, using(crate::proofs::Keeping::derives_logs))]
    fn resolve(&mut self, assumptions: &[Lit], conflict: u32, budget: &mut Budget) -> Resolved
        requires kept { IsKept self.old }
        requires run { Runs assumptions.now self.old }
        requires conflict { IsConflict self.old.decisions.search.clauses self.old.decisions.search.lits conflict }
        ensures kept { IsKept self.new }
        ensures derives { Derives (state_of self.old) (state_of self.new) }
        ensures resolves { Resolves (state_of self.old) (length self.old.logged.asleep.items) self.new assumptions.now
            budget.old budget.new result }
        ensures limit { budget.new.limit ≡ budget.old.limit }
    {
        if self.decisions.search.starts().len() <= 2 {
            return match self.derive_core(assumptions, conflict) {
                Ok(step) => Resolved::Ended(End::Refuted(step)),
                Err(halt) => Resolved::Ended(End::Stopped(halt)),
            };
        }
        match self.learn_from(assumptions, conflict, budget) {
            Ok(resolved) => {
                self.decisions
                    .count_conflict(last_of(self.logged.levels.as_slice()));
                resolved
            }
            Err(halt) => Resolved::Ended(End::Stopped(halt)),
        }
    }

    /// Goes on until a conflict is resolved or all variables have values.
    #[tactic(auto, using(crate::proofs::Keeping::derives_logs))]
    fn attempt(&mut self, assumptions: &[Lit], budget: &mut Budget) -> Resolved
        requires kept { IsKept self.old }
        requires run { Runs assumptions.now self.old }
        ensures kept { IsKept self.new }
        ensures derives { Derives (state_of self.old) (state_of self.new) }
        ensures resolves { Resolves (state_of self.old) (length self.old.logged.asleep.items) self.new assumptions.now
            budget.old budget.new result }
        ensures limit { budget.new.limit ≡ budget.old.limit }
    {
        match self.decisions.decide_until_conflict() {
            Some(conflict) => self.resolve(assumptions, conflict, budget),
            None => {
                let _form = self.decisions.search.vars();
                let _log = self.logged.log.len();
                Resolved::Ended(End::Satisfied)
            }
        }
    }

    /// Goes on until a clause is learned or the search ends. Each step that is woken meanwhile is one fewer asleep.
    #[tactic(auto, using(crate::proofs::Keeping::derives_logs))]
    fn turn(&mut self, assumptions: &[Lit], budget: &mut Budget) -> Option<End>
        requires kept { IsKept self.old }
        requires run { Runs assumptions.now self.old }
        ensures kept { IsKept self.new }
        ensures derives { Derives (state_of self.old) (state_of self.new) }
        ensures turn { IsTurn (state_of self.old) self.new assumptions.now budget.old budget.new result }
        ensures limit { budget.new.limit ≡ budget.old.limit }
    {
        'sleepers: loop {
            match self.attempt(assumptions, budget) {
                Resolved::Learned => return self.nap_if_tired(assumptions),
                Resolved::Woken => {}
                Resolved::Ended(end) => return Some(end),
            }
        }
    }

    /// Has clauses fall asleep after so many conflicts, where memory allows.
    fn nap_if_tired(&mut self, assumptions: &[Lit]) -> Option<End>
        requires kept { IsKept self.old }
        requires run { Runs assumptions.now self.old }
        ensures kept { IsKept self.new }
        ensures state { state_of self.new ≡ state_of self.old }
        ensures rested { HasRested self.new assumptions.now result }
    {
        self.tired = self.tired.saturating_add(1);
        if self.tired
            < self
                .naps
                .saturating_mul(MORE_CONFLICTS)
                .saturating_add(CONFLICTS_AWAKE)
        {
            return None;
        }
        self.tired = 0;
        self.naps = self.naps.saturating_add(1);
        match self.nap(assumptions) {
            Ok(()) => None,
            Err(_) => Some(End::Stopped(Halt::Memory)),
        }
    }

    /// Takes all back, has clauses fall asleep, and begins again.
    fn nap(&mut self, assumptions: &[Lit]) -> Result<(), Memory>
        requires kept { IsKept self.old }
        requires run { Runs assumptions.now self.old }
        ensures kept { IsKept self.new }
        ensures state { state_of self.new ≡ state_of self.old }
        ensures run { OnOk result (Runs assumptions.now self.new) }
    {
        let _form = self.decisions.search.vars();
        let size = self.front.len().min(assumptions.len());
        self.give_up_front();
        let _ = self.load_some();
        self.begin(assumptions, size)
    }

    /// Builds the propagator anew with half of the clauses that were learned. Where memory fails, all stays as it is.
    fn load_some(&mut self) -> Result<(), Memory>
        requires rest { IsAtRest self.old }
        requires front { self.old.front.items ≡ [] }
        ensures rest { IsAtRest self.new }
        ensures state { state_of self.new ≡ state_of self.old }
    {
        let vars = self.decisions.search.vars();
        let log = &self.logged.log;
        let bar = bar_of(self.alloc, &self.logged.levels)?;
        let counts = counts_of(
            self.alloc,
            log,
            &self.logged.awake,
            &self.logged.levels,
            bar,
            vars,
        )?;
        let loaded = load(
            self.alloc,
            log,
            &self.logged.awake,
            &self.logged.levels,
            &self.logged.asleep,
            &counts,
            bar,
        )?;
        if loaded.search.vars() < vars {
            return Err(Memory);
        }
        let Loaded {
            search,
            awake,
            levels,
            asleep,
        } = loaded;
        self.decisions.search = search;
        self.logged.awake = awake;
        self.logged.levels = levels;
        self.logged.asleep = asleep;
        Ok(())
    }

    /// Takes all back, the front too.
    fn give_up_front(&mut self)
        requires kept { IsKept self.old }
        ensures rest { IsAtRest self.new }
        ensures state { state_of self.new ≡ state_of self.old }
        ensures asleep { self.new.logged.asleep.items ≡ self.old.logged.asleep.items }
        ensures front { self.new.front.items ≡ [] }
    {
        self.decisions.back_to(0);
        self.front.clear();
    }

    /// Wakes a sleeper: its clause comes to the propagator.
    fn rouse(&mut self, index: usize) -> Result<(), Memory>
        requires rest { IsAtRest self.old }
        requires within { index < length self.old.logged.asleep.items }
        ensures rest { IsAtRest self.new }
        ensures state { state_of self.new ≡ state_of self.old }
        ensures fewer { OnOk result (length self.new.logged.asleep.items < length self.old.logged.asleep.items) }
    {
        let sleeper = sleeper_at(&self.logged.asleep, index);
        let lits = unpacked(self.alloc, self.logged.log.clause(sleeper.step))?;
        self.logged.awake.reserve(1)?;
        push_levels(&mut self.logged.levels, 0)?;
        let _form = self.decisions.search.vars();
        let _ = self.decisions.search.add(&lits)?;
        let _ = self.logged.asleep.remove(index);
        let _ = self.logged.awake.push(sleeper.step);
        Ok(())
    }

    /// Takes all back, wakes a sleeper and begins again.
    fn wake(&mut self, assumptions: &[Lit], index: usize) -> Result<(), Memory>
        requires kept { IsKept self.old }
        requires run { Runs assumptions.now self.old }
        requires within { index < length self.old.logged.asleep.items }
        ensures kept { IsKept self.new }
        ensures state { state_of self.new ≡ state_of self.old }
        ensures run { OnOk result (Runs assumptions.now self.new) }
        ensures fewer { OnOk result (length self.new.logged.asleep.items < length self.old.logged.asleep.items) }
    {
        let _form = self.decisions.search.vars();
        let size = self.front.len().min(assumptions.len());
        self.give_up_front();
        self.rouse(index)?;
        self.begin(assumptions, size)
    }

    /// Searches until an end. Each turn but the last spends a unit of the budget.
    #[tactic(auto, using(crate::proofs::Keeping::derives_logs))]
    pub(crate) fn run(&mut self, assumptions: &[Lit], budget: &mut Budget) -> End
        requires kept { IsKept self.old }
        requires run { Runs assumptions.now self.old }
        ensures kept { IsKept self.new }
        ensures derives { Derives (state_of self.old) (state_of self.new) }
        ensures run { HasRun (state_of self.old) self.new assumptions.now budget.old budget.new result }
        ensures limit { budget.new.limit ≡ budget.old.limit }
    {
        'conflicts: loop {
            match self.turn(assumptions, budget) {
                None => {
                    let _within = budget.used();
                }
                Some(end) => return end,
            }
        }
    }

    /// Adds a clause to the log and to the propagator, or to neither.
    #[tactic(auto, using(crate::proofs::Keeping::keeps_logs))]
    pub(crate) fn add(&mut self, clause: Clause, how: Added) -> Result<StepId, LogFault>
        requires rest { IsAtRest self.old }
        ensures rest { IsAtRest self.new }
        ensures keeps { Keeps (state_of self.old) (state_of self.new) }
        ensures ok { IfOk result (AddsTo (state_of self.old) (state_of self.new) clause how) }
        ensures full { (result ≡ Err LogFault.LogFull) ↔ (length self.old.logged.log.steps ≡
            self.old.logged.log.limit) }
        ensures rejected { (place : ℕ) → result ≡ Err (LogFault.Rejected place)
            → IsRejected self.old.logged.log clause how place }
        ensures refused { OnErr result (state_of self.new ≡ state_of self.old) }
    {
        if self.logged.log.is_full() {
            return Err(LogFault::LogFull);
        }
        match self.logged.active.reserve(1) {
            Ok(()) => {}
            Err(_) => return Err(LogFault::Memory),
        }
        match self.logged.awake.reserve(1) {
            Ok(()) => {}
            Err(_) => return Err(LogFault::Memory),
        }
        match push_levels(&mut self.logged.levels, 0) {
            Ok(()) => {}
            Err(_) => return Err(LogFault::Memory),
        }
        let _form = self.decisions.search.vars();
        let kept = clause.copy(self.alloc)?;
        let step = record(&mut self.logged.log, clause, how)?;
        match self.decisions.search.add(kept.as_slice()) {
            Ok(_) => {}
            Err(_) => {
                self.logged.log.take_back();
                return Err(LogFault::Memory);
            }
        }
        let _ = self.logged.active.push(step);
        let _ = self.logged.awake.push(step);
        Ok(step)
    }

    /// Takes the assumptions back, and all that came behind them.
    fn take_back(&mut self)
        requires kept { IsKept self.old }
        ensures rest { IsAtRest self.new }
        ensures state { state_of self.new ≡ state_of self.old }
    {
        self.decisions.back_to_front();
    }

    /// Has the first level have another front, and nothing else but what follows later.
    fn set_front(&mut self, block: &[Lit]) -> Result<(), Memory>
        requires rest { IsAtRest self.old }
        requires plain { (l : Lit) → Contains block.now l → Contains block.now (negation l) → ⊥ }
        ensures rest { IsAtRest self.new }
        ensures state { state_of self.new ≡ state_of self.old }
        ensures asleep { self.new.logged.asleep.items ≡ self.old.logged.asleep.items }
        ensures one { OnOk result (length self.new.decisions.search.starts ≡ 1) }
        ensures front { OnOk result (self.new.front.items ≡ block.now) }
        ensures lits { OnOk result ((l : Lit) → Contains self.new.decisions.search.lits l → Contains block.now l) }
    {
        let front = Vec::from_slice(self.alloc, block)?;
        self.decisions.back_to(0);
        let _form = self.decisions.search.vars();
        self.front.clear();
        self.decisions.search.assume_block(block)?;
        self.front = front;
        Ok(())
    }

    /// Keeps the front that is there, if the assumptions begin with it and it has at least so many literals. Else so
    /// many of them become the front.
    fn keep_front(&mut self, assumptions: &[Lit], size: usize) -> Result<(), Memory>
        requires rest { IsAtRest self.old }
        requires plain { (l : Lit) → Contains assumptions.now l → Contains assumptions.now (negation l) → ⊥ }
        requires within { size ≤ length assumptions.now }
        ensures rest { IsAtRest self.new }
        ensures state { state_of self.new ≡ state_of self.old }
        ensures asleep { self.new.logged.asleep.items ≡ self.old.logged.asleep.items }
        ensures ready { OnOk result (IsReady assumptions.now self.new) }
    {
        if self.decisions.search.starts().len() == 1
            && self.front.len() >= size
            && begins_with(assumptions, self.front.as_slice())
        {
            return Ok(());
        }
        self.set_front(&assumptions[..size])
    }

    /// Gives the front up where an assumption is false by what follows from it.
    fn give_up_false(&mut self, assumptions: &[Lit]) -> Result<(), Memory>
        requires ready { IsReady assumptions.now self.old }
        ensures rest { IsAtRest self.new }
        ensures state { state_of self.new ≡ state_of self.old }
        ensures asleep { self.new.logged.asleep.items ≡ self.old.logged.asleep.items }
        ensures ready { OnOk result (IsReady assumptions.now self.new) }
        ensures not_false { OnOk result ((l : Lit) → Contains assumptions.now l
            → Contains self.new.decisions.search.lits (negation l) → ⊥) }
    {
        if !has_false(&self.decisions.search, assumptions) {
            return Ok(());
        }
        self.set_front(&[])?;
        Ok(())
    }

    /// Begins the second level with the assumptions, on a front of at least so many of them.
    fn begin(&mut self, assumptions: &[Lit], size: usize) -> Result<(), Memory>
        requires rest { IsAtRest self.old }
        requires plain { (l : Lit) → Contains assumptions.now l → Contains assumptions.now (negation l) → ⊥ }
        requires within { size ≤ length assumptions.now }
        ensures rest { OnErr result (IsAtRest self.new) }
        ensures state { state_of self.new ≡ state_of self.old }
        ensures asleep { self.new.logged.asleep.items ≡ self.old.logged.asleep.items }
        ensures kept { OnOk result (IsKept self.new) }
        ensures run { OnOk result (Runs assumptions.now self.new) }
        ensures two { OnOk result (length self.new.decisions.search.starts ≡ 2) }
    {
        self.keep_front(assumptions, size)?;
        let _ = self.decisions.propagate();
        self.give_up_false(assumptions)?;
        let _form = self.decisions.search.vars();
        self.decisions.search.assume_block(assumptions)?;
        Ok(())
    }

    /// Ends a look by propagation that met a false clause: a step that refutes the assumptions, or None where the log
    /// is full.
    #[tactic(auto, using(crate::proofs::Keeping::derives_logs))]
    fn derive_core_with_room(
        &mut self,
        assumptions: &[Lit],
        conflict: u32,
    ) -> Result<Option<StepId>, Memory>
        requires kept { IsKept self.old }
        requires run { Runs assumptions.now self.old }
        requires shallow { length self.old.decisions.search.starts ≤ 2 }
        requires conflict { IsConflict self.old.decisions.search.clauses self.old.decisions.search.lits conflict }
        ensures kept { IsKept self.new }
        ensures derives { Derives (state_of self.old) (state_of self.new) }
        ensures refuted { IfOk result (λ found. IfSome found
            (EndsCore (state_of self.old) (state_of self.new) assumptions.now)) }
        ensures none { result ≡ Ok None → state_of self.new ≡ state_of self.old }
    {
        match self.derive_core(assumptions, conflict) {
            Ok(step) => Ok(Some(step)),
            Err(Halt::LogFull) => Ok(None),
            Err(Halt::Memory) => Err(Memory),
            Err(Halt::Spent(_)) => unreachable!(),
        }
    }

    /// Propagates the assumptions: a step that refutes them, or None.
    #[tactic(auto, using(crate::proofs::Keeping::derives_logs))]
    fn refute_begun(&mut self, assumptions: &[Lit]) -> Result<Option<StepId>, Memory>
        requires kept { IsKept self.old }
        requires run { Runs assumptions.now self.old }
        requires shallow { length self.old.decisions.search.starts ≤ 2 }
        ensures kept { IsKept self.new }
        ensures derives { Derives (state_of self.old) (state_of self.new) }
        ensures refuted { IfOk result (λ found. IfSome found
            (EndsCore (state_of self.old) (state_of self.new) assumptions.now)) }
        ensures none { result ≡ Ok None → state_of self.new ≡ state_of self.old }
    {
        match self.decisions.propagate() {
            Some(conflict) => self.derive_core_with_room(assumptions, conflict),
            None => Ok(None),
        }
    }

    /// Looks whether propagation refutes assumptions, which are taken back whatever comes of it.
    #[tactic(auto, using(crate::proofs::Keeping::derives_logs))]
    pub(crate) fn refute(&mut self, assumptions: &[Lit]) -> Result<Option<StepId>, Memory>
        requires rest { IsAtRest self.old }
        requires plain { (l : Lit) → Contains assumptions.now l → Contains assumptions.now (negation l) → ⊥ }
        ensures rest { IsAtRest self.new }
        ensures derives { Derives (state_of self.old) (state_of self.new) }
        ensures refuted { IfOk result (λ found. IfSome found
            (EndsCore (begun (state_of self.old)) (state_of self.new) assumptions.now)) }
        ensures none { result ≡ Ok None → state_of self.new ≡ begun (state_of self.old) }
    {
        self.pending = None;
        self.begin(assumptions, 0)?;
        let told = self.refute_begun(assumptions);
        self.take_back();
        told
    }

    /// Searches under assumptions, which are taken back whatever comes of it.
    #[tactic(auto, using(crate::proofs::Keeping::derives_logs))]
    pub(crate) fn solve(&mut self, assumptions: &[Lit], budget: &mut Budget) -> Result<Solved, Halt>
        requires rest { IsAtRest self.old }
        requires plain { (l : Lit) → Contains assumptions.now l → Contains assumptions.now (negation l) → ⊥ }
        ensures rest { IsAtRest self.new }
        ensures derives { Derives (state_of self.old) (state_of self.new) }
        ensures searched { result ≢ Err Halt.Memory → HasSearched (state_of self.old) (state_of self.new)
            assumptions.now budget.old budget.new result }
        ensures limit { budget.new.limit ≡ budget.old.limit }
    {
        self.pending = None;
        self.tired = 0;
        let vars = self.decisions.search.vars();
        self.decisions.order.make_room(vars)?;
        let size = size_of_front(self.front.as_slice(), assumptions);
        self.begin(assumptions, size)?;
        let end = self.run(assumptions, budget);
        let told = solved_of(self.alloc, &self.decisions.search, end);
        self.take_back();
        told
    }
}
