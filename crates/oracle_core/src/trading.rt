//! Entries that an engine takes from a trade before it searches.

ghost use Rattle.std.specs.Prelude.{◌≡◌, ◌≢◌, [], Err, IfOk, List, None, OnOk, Option, Some, false};
ghost use mathlib.Core.List.{IsPrefix};
ghost use Rattle.edit_rules.specs.Kinds.{framework_of};
ghost use Rattle.oracle_face.specs.Goals.{AreGoals, IsSide};
ghost use Rattle.oracle_face.specs.Growing.{HasRun, IsFound, NoSide, Obliges, OnlySide, closes, halt_of};
ghost use Rattle.oracle_face.specs.Logs.{IsKept};
ghost use Rattle.oracle_face.specs.declared.entry.Entry.{Entry as AnEntry};
ghost use Rattle.plain_lits.specs.Units.{Units};
ghost use Rattle.framework_solver.specs.Solvers.{AreInForce, IsWhole};
ghost use Rattle.session_log.specs.Ends.{LoopInHand};
ghost use Rattle.oracle_core.specs.Engines.{forgotten};
ghost use Rattle.framework_solver.specs.Stepping.{GoesOnBySteps};
ghost use Rattle.oracle_core.specs.Trading.{IsEmptied, TakesAll, Trades};

use crate::engine::Engine;
use crate::sharing::offer_from;
use framework_solver::FrameworkSolver;
use lists::Memory;
use meaning_atoms::AtomLit;
use oracle_face::{AskId, ClauseTrade, Found, Oracle};
use plain_lits::{Budget, Halt};
use set_lists::NumSet;
use std::alloc::Global;

/// How many entries are taken at most before one search.
pub const MAX_TAKEN: usize = 1_024;

/// Takes what a trade gives, until it gives nothing, at most so many entries.
pub(crate) fn take_all<T: ClauseTrade>(
    alloc: Global,
    own: u32,
    parts: &mut FrameworkSolver,
    trade: &mut T,
) -> Result<(), Memory>
    requires whole { IsWhole parts.old }
    requires in_force { AreInForce (framework_of parts.old.framework) parts.old.solver.log }
    ensures whole { IsWhole parts.new }
    ensures framework { parts.new.framework ≡ parts.old.framework }
    ensures run { (units : Units) → HasRun NoSide 0 (framework_of parts.old.framework) parts.old.solver.log
        parts.new.solver.log parts.new.solver.pending units units None }
    ensures steps { GoesOnBySteps (framework_of parts.old.framework) own (T.gave trade.new) parts.old.solver.log
        parts.new.solver.log }
    ensures gave { IsPrefix (T.gave trade.old) (T.gave trade.new) }
    ensures follows { T.follows trade.old trade.new }
    ensures all { OnOk result ((waiting : List AnEntry) → T.left trade.old ≡ Some waiting
        → TakesAll (framework_of parts.old.framework) own waiting (T.left trade.new) parts.old.solver.log
        parts.new.solver.log) }
{
    let mut count = 0;
    while count < MAX_TAKEN {
        let Some(entry) = trade.take()? else {
            return Ok(());
        };
        parts.import_entry(alloc, own, &entry)?;
        count += 1;
    }
    Ok(())
}

impl Engine {
    /// Puts the axioms that the framework needs in force.
    fn add_needed_axioms(&mut self, alloc: Global) -> Result<(), Halt>
        ensures in_force { OnOk result (AreInForce self.new.framework self.new.log) }
        ensures run { (units : Units) → HasRun NoSide 0 self.old.framework self.old.log self.new.log self.new.pending
            units units (halt_of result) }
        ensures steps { GoesOnBySteps self.old.framework self.old.number [] self.old.log self.new.log }
        ensures number { self.new.number ≡ self.old.number }
        ensures framework { self.new.framework ≡ self.old.framework }
        ensures kept { IsKept self.new.framework self.new.log }
    {
        self.parts.add_needed_axioms(alloc)
    }

    /// Takes what a trade gives, until it gives nothing, at most so many entries.
    fn take_all<T: ClauseTrade>(&mut self, alloc: Global, trade: &mut T) -> Result<(), Memory>
        requires { AreInForce self.old.framework self.old.log }
        ensures all { OnOk result ((waiting : List AnEntry) → T.left trade.old ≡ Some waiting
            → TakesAll self.old.framework self.old.number waiting (T.left trade.new) self.old.log self.new.log) }
        ensures run { (units : Units) → HasRun NoSide 0 self.old.framework self.old.log self.new.log self.new.pending
            units units None }
        ensures steps { GoesOnBySteps self.old.framework self.old.number (T.gave trade.new) self.old.log self.new.log }
        ensures gave { IsPrefix (T.gave trade.old) (T.gave trade.new) }
        ensures follows { T.follows trade.old trade.new }
        ensures number { self.new.number ≡ self.old.number }
        ensures framework { self.new.framework ≡ self.old.framework }
        ensures kept { IsKept self.new.framework self.new.log }
    {
        take_all(alloc, self.number, &mut self.parts, trade)
    }

    /// Puts the axioms in force and takes what a trade gives. The flag is raised where memory is refused while entries are
    /// taken: one may be lost then.
    fn force_and_take<T: ClauseTrade>(
        &mut self,
        alloc: Global,
        trade: &mut T,
        out_of_memory: &mut bool,
    ) -> Result<(), Halt>
        ensures trades { Trades self.old self.new (T.left trade.old) (T.left trade.new) (T.gave trade.old)
            (T.gave trade.new) out_of_memory.old out_of_memory.new }
        ensures follows { T.follows trade.old trade.new }
        ensures all { OnOk result ((waiting : List AnEntry) → T.left trade.old ≡ Some waiting
            → IsEmptied waiting (T.left trade.new)) }
        ensures only_out_of_memory { result ≢ Err Halt.Memory → out_of_memory.new ≡ out_of_memory.old }
        ensures run { (units : Units) → HasRun NoSide 0 self.old.framework self.old.log self.new.log self.new.pending
            units units (halt_of result) }
    {
        self.add_needed_axioms(alloc)?;
        let taken = self.take_all(alloc, trade);
        if taken.is_err() {
            *out_of_memory = true;
            return Err(Halt::Memory);
        }
        Ok(())
    }

    /// Forgets the clause in hand.
    fn forget(&mut self)
        ensures forgotten { self.new ≡ forgotten self.old }
        ensures kept { IsKept self.new.framework self.new.log }
    {
        self.parts.solver.take_pending();
    }

    /// Puts the axioms in force and takes what a trade gives, behind which no clause is in hand. The flag is raised where
    /// memory is refused while entries are taken: one may be lost then.
    pub(crate) fn prepare<T: ClauseTrade>(
        &mut self,
        alloc: Global,
        trade: &mut T,
        out_of_memory: &mut bool,
    ) -> Result<(), Halt>
        ensures trades { Trades self.old self.new (T.left trade.old) (T.left trade.new) (T.gave trade.old)
            (T.gave trade.new) out_of_memory.old out_of_memory.new }
        ensures follows { T.follows trade.old trade.new }
        ensures all { OnOk result ((waiting : List AnEntry) → T.left trade.old ≡ Some waiting
            → IsEmptied waiting (T.left trade.new)) }
        ensures only_out_of_memory { result ≢ Err Halt.Memory → out_of_memory.new ≡ out_of_memory.old }
        ensures run { (units : Units) → HasRun NoSide 0 self.old.framework self.old.log self.new.log self.new.pending
            units units (halt_of result) }
        ensures pending { self.new.pending ≡ None }
        ensures kept { IsKept self.new.framework self.new.log }
    {
        let end = self.force_and_take(alloc, trade, out_of_memory);
        self.forget();
        end
    }
}

impl Engine {
    /// One search, behind which a trade is offered what was derived. The flag is raised where memory is refused.
    fn find_and_offer<T: ClauseTrade>(
        &mut self,
        alloc: Global,
        goals: &[AtomLit],
        budget: &mut Budget,
        trade: &mut T,
        out_of_memory: &mut bool,
    ) -> Result<Found, Halt>
        requires { AreGoals self.old.framework self.old.log.sides goals.now }
        ensures found { IfOk result (IsFound self.old.framework self.new.log goals.now) }
        ensures run { HasRun NoSide (closes result) self.old.framework self.old.log self.new.log self.new.pending
            budget.old budget.new (halt_of result) }
        ensures trades { Trades self.old self.new (T.left trade.old) (T.left trade.new) (T.gave trade.old)
            (T.gave trade.new) out_of_memory.old out_of_memory.new }
        ensures follows { T.follows trade.old trade.new }
        ensures kept { IsKept self.new.framework self.new.log }
        ensures in_hand { LoopInHand self.new.log self.new.pending }
    {
        let end = self.parts.find_settled(alloc, goals, budget, out_of_memory);
        self.offered = offer_from(alloc, self.number, &self.parts, self.offered, trade);
        end
    }

    /// The number of a side clause. The flag is raised where memory is refused.
    fn oblige_settled(
        &mut self,
        alloc: Global,
        side: &[AtomLit],
        from: &NumSet,
        budget: &mut Budget,
        out_of_memory: &mut bool,
    ) -> Result<AskId, Halt>
        requires { IsSide side.now }
        ensures obliges { IfOk result (Obliges side.now self.old.log self.new.log) }
        ensures run { HasRun (OnlySide side.now from.now) 0 self.old.framework self.old.log self.new.log
            self.new.pending budget.old budget.new (halt_of result) }
        ensures trades { (left : Option (List AnEntry)) (gave : List AnEntry)
            → Trades self.old self.new left left gave gave out_of_memory.old out_of_memory.new }
        ensures kept { IsKept self.new.framework self.new.log }
        ensures in_hand { LoopInHand self.new.log self.new.pending }
    {
        self.parts
            .oblige_settled(alloc, side, from, budget, out_of_memory)
    }
}

/// An engine with the trade of a query: before each search the trade gives what it has, and behind it the trade is offered
/// what was derived.
#[derive(Drop)]
pub(crate) struct Trading<'a, T: ClauseTrade> {
    pub(crate) engine: &'a mut Engine,
    pub(crate) trade: &'a mut T,
    /// Whether the trade gave what it has for the next search already.
    pub(crate) has_imported: bool,
    /// Whether memory was refused on the way: an entry may be lost then, and steps may have come that nothing tells.
    pub(crate) out_of_memory: bool,
}

impl<'a, T: ClauseTrade> Oracle for Trading<'a, T> {
    ghost use Rattle.oracle_core.specs.InHand.{ServesInHand};
    ghost use Rattle.oracle_core.specs.InHand.{in_hand_joined, in_hand_none};
    ghost use Rattle.oracle_core.specs.Trading.{Trades};
    ghost use Rattle.oracle_core.specs.TradingLaws.{trades_none, trades_joined};
    ghost use Rattle.std.proofs.Common.{◌≡◌, ◌∙◌, refl};

    ghost framework = { λ t. t.engine.now.framework };

    ghost log = { λ t. t.engine.now.log };

    ghost pending = { λ t. t.engine.now.pending };

    ghost follows = { λ before after. (after.engine.ghost_name ≡ before.engine.ghost_name)
        × (after.trade.ghost_name ≡ before.trade.ghost_name)
        × Trades before.engine.now after.engine.now (T.left before.trade.now) (T.left after.trade.now)
        (T.gave before.trade.now) (T.gave after.trade.now) before.out_of_memory after.out_of_memory
        × ServesInHand before.engine.now after.engine.now
        × T.follows before.trade.now after.trade.now };

    fn members(&self) -> &NumSet {
        self.engine.members()
    }

    fn is_aba(&self) -> bool {
        self.engine.is_aba()
    }

    fn find(
        &mut self,
        alloc: Global,
        goals: &[AtomLit],
        budget: &mut Budget,
    ) -> Result<Found, Halt> {
        if self.has_imported {
            self.has_imported = false;
            return self
                .engine
                .find_and_offer(alloc, goals, budget, self.trade, &mut self.out_of_memory);
        }
        self.engine
            .prepare(alloc, self.trade, &mut self.out_of_memory)?;
        self.engine
            .find_and_offer(alloc, goals, budget, self.trade, &mut self.out_of_memory)
    }

    fn oblige(
        &mut self,
        alloc: Global,
        side: &[AtomLit],
        from: &NumSet,
        budget: &mut Budget,
    ) -> Result<AskId, Halt> {
        self.engine
            .oblige_settled(alloc, side, from, budget, &mut self.out_of_memory)
    }

    fn range(&self, alloc: Global, set: &NumSet) -> Result<NumSet, Memory> {
        self.engine.range(alloc, set)
    }

    fn admissible_part(
        &self,
        alloc: Global,
        set: &NumSet,
        without: &NumSet,
    ) -> Result<NumSet, Memory> {
        self.engine.admissible_part(alloc, set, without)
    }

    fn accepts(&self, alloc: Global, goal: u32, set: &NumSet) -> Result<bool, Memory> {
        self.engine.accepts(alloc, goal, set)
    }

    ghost stays = { λ t. (
      refl,
      refl,
      trades_none t.engine.now (T.left t.trade.now) (T.gave t.trade.now) t.out_of_memory,
      in_hand_none t.engine.now,
      T.stays t.trade.now,
    ) };

    ghost joins = { λ before between after first second. (
      second.0 ∙ first.0,
      second.1 ∙ first.1,
      trades_joined before.engine.now between.engine.now after.engine.now (T.left before.trade.now)
          (T.left between.trade.now) (T.left after.trade.now) (T.gave before.trade.now) (T.gave between.trade.now)
          (T.gave after.trade.now) before.out_of_memory between.out_of_memory after.out_of_memory first.2 second.2,
      in_hand_joined before.engine.now between.engine.now after.engine.now first.3 second.3,
      T.joins before.trade.now between.trade.now after.trade.now first.4 second.4,
    ) };
}
