//! Answers to queries.

ghost use Rattle.std.specs.Prelude.{◌≡◌, ◌≢◌, ◌+◌, ◌*◌, ◌≤◌, true, false, length, IfErr, IfOk, OnOk, List, Some};
ghost use Rattle.std.specs.Prelude.{Err, ℕ};
ghost use Rattle.edit_rules.specs.Fitting.{Fits};
ghost use Rattle.certificate_making.specs.Cuts.{AreCut};
ghost use Rattle.oracle_face.specs.Growing.{HasRun, halt_of};
ghost use Rattle.oracle_face.specs.declared.entry.Entry.{Entry as AnEntry};
ghost use Rattle.session_log.specs.Ends.{IsShownBy as IsShownByLog, LoopInHand, MadeFor, is_by_grounded};
ghost use Rattle.query_answers.specs.Answers.{IsEvidence, IsOutcome};
ghost use Rattle.oracle_core.specs.Answers.{IsShownBy};
ghost use Rattle.framework_solver.specs.Stepping.{GoesOnBySteps};
ghost use Rattle.oracle_core.specs.Trading.{IsEmptied, TakesFrom};
ghost use Rattle.oracle_core.specs.Answering.{IsCause, NeedsSearch, halt_behind};

use crate::by_grounded::answer_by_grounded;
use crate::engine::Engine;
use crate::reply::{AnswerStop, Answered};
use crate::trading::Trading;
use certificate_making::certificate_for;
use edit_rules::query_fits;
use iccma_tasks::{Answer, Query};
use lists::{Items, Memory};
use oracle_face::ClauseTrade;
use plain_lits::{Budget, Halt, StepId};
use query_answers::{Evidence, SearchOutcome, answer};
use set_lists::NumSet;
use std::alloc::Global;

impl Engine {
    /// The answer with the certificate that steps of the log make.
    fn certified(
        &self,
        alloc: Global,
        query: &Query,
        evidence: Evidence,
        units: u64,
    ) -> Result<Answered, Memory>
        requires { IsEvidence self.now.framework query.now self.now.log evidence }
        ensures shown { IfOk result (λ a. IsShownBy self.now.framework query.now a.answer a.certificate) }
        ensures by_log { IfOk result (λ a.
            IsShownByLog self.now.framework query.now a.answer a.certificate.sets self.now.log) }
        ensures units { IfOk result (λ a. a.units ≡ units) }
        ensures cut { IfOk result (λ a. AreCut self.now.log a.certificate.refutations) }
    {
        let (answer, sets, steps) = evidence.into_parts();
        self.certified_by(alloc, query, answer, sets, steps, units)
    }

    /// The answer with the certificate that these sets and steps make.
    fn certified_by(
        &self,
        alloc: Global,
        query: &Query,
        answer: Answer,
        sets: Items<NumSet>,
        steps: Items<StepId>,
        units: u64,
    ) -> Result<Answered, Memory>
        requires { IsEvidence self.now.framework query.now self.now.log
            (record { answer = answer; sets = sets; steps = steps }) }
        ensures shown { IfOk result (λ a. IsShownBy self.now.framework query.now a.answer a.certificate) }
        ensures by_log { IfOk result (λ a.
            IsShownByLog self.now.framework query.now a.answer a.certificate.sets self.now.log) }
        ensures units { IfOk result (λ a. a.units ≡ units) }
        ensures cut { IfOk result (λ a. AreCut self.now.log a.certificate.refutations) }
    {
        let _form = self.parts.framework.kind();
        let certificate = certificate_for(
            alloc,
            self,
            &self.parts.framework,
            query,
            &answer,
            sets,
            steps.as_slice(),
        )?;
        Ok(Answered {
            answer,
            certificate,
            units,
        })
    }

    /// What the loops find where the trade gives its entries before each search.
    fn search<T: ClauseTrade>(
        &mut self,
        alloc: Global,
        query: &Query,
        budget: &mut Budget,
        limit: u32,
        trade: &mut T,
    ) -> Result<SearchOutcome, Halt>
        requires { NeedsSearch self.old.framework query.now }
        ensures outcome { IfOk result (IsOutcome self.old.framework query.now limit self.new.log) }
        ensures run { HasRun (MadeFor self.old.framework query.now) (2 * length self.new.log.sides + 2)
            self.old.framework self.old.log self.new.log self.new.pending budget.old budget.new (halt_of result) }
        ensures framework { self.new.framework ≡ self.old.framework }
        ensures number { self.new.number ≡ self.old.number }
        ensures steps { result ≢ Err Halt.Memory
            → GoesOnBySteps self.old.framework self.old.number (T.gave trade.new) self.old.log self.new.log }
        ensures follows { T.follows trade.old trade.new }
        ensures in_hand { LoopInHand self.new.log self.new.pending }
        ensures trade { result ≢ Err Halt.Memory → (waiting : List AnEntry) → T.left trade.old ≡ Some waiting
            → TakesFrom self.old.framework self.old.number waiting (T.left trade.new) self.old.log self.new.log }
        ensures emptied { OnOk result ((waiting : List AnEntry) → T.left trade.old ≡ Some waiting
            → IsEmptied waiting (T.left trade.new)) }
    {
        let mut out_of_memory = false;
        self.prepare(alloc, trade, &mut out_of_memory)?;
        let mut trading = Trading {
            engine: self,
            trade,
            has_imported: true,
            out_of_memory,
        };
        let end = answer(alloc, &mut trading, budget, query, limit as usize);
        if trading.out_of_memory {
            return Err(Halt::Memory);
        }
        end
    }

    /// The answer that a search shows.
    fn answer_by_search<T: ClauseTrade>(
        &mut self,
        alloc: Global,
        query: &Query,
        budget: &mut Budget,
        limit: u32,
        trade: &mut T,
    ) -> Result<Answered, AnswerStop>
        requires { NeedsSearch self.old.framework query.now }
        ensures shown { IfOk result (λ a. IsShownBy self.old.framework query.now a.answer a.certificate) }
        ensures by_log { IfOk result (λ a.
            IsShownByLog self.old.framework query.now a.answer a.certificate.sets self.new.log) }
        ensures units { IfOk result (λ a. a.units ≡ budget.new.used) }
        ensures cut { IfOk result (λ a. AreCut self.new.log a.certificate.refutations) }
        ensures cause { IfErr result (IsCause self.old.framework query.now limit self.new.log) }
        ensures run { HasRun (MadeFor self.old.framework query.now) (2 * length self.new.log.sides + 2)
            self.old.framework self.old.log self.new.log self.new.pending budget.old budget.new (halt_behind result) }
        ensures framework { self.new.framework ≡ self.old.framework }
        ensures number { self.new.number ≡ self.old.number }
        ensures steps { result ≢ Err AnswerStop.Memory
            → GoesOnBySteps self.old.framework self.old.number (T.gave trade.new) self.old.log self.new.log }
        ensures follows { T.follows trade.old trade.new }
        ensures in_hand { LoopInHand self.new.log self.new.pending }
        ensures trade { result ≢ Err AnswerStop.Memory → (waiting : List AnEntry) → T.left trade.old ≡ Some waiting
            → TakesFrom self.old.framework self.old.number waiting (T.left trade.new) self.old.log self.new.log }
        ensures emptied { OnOk result ((waiting : List AnEntry) → T.left trade.old ≡ Some waiting
            → IsEmptied waiting (T.left trade.new)) }
    {
        match self.search(alloc, query, budget, limit, trade)? {
            SearchOutcome::Shown(evidence) => {
                let answered = self.certified(alloc, query, evidence, budget.used())?;
                Ok(answered)
            }
            SearchOutcome::TooMany => Err(AnswerStop::TooMany),
        }
    }

    /// Answers a query, with the certificate that shows the answer and the units that it took. All extensions are listed
    /// where they are at most so many. Where the grounded set answers, no step is taken, and neither `Spent` nor `LogFull`
    /// comes. What is added to the log serves the query: each unit was new when it came, and the side clauses are those that
    /// its certificate may have. Each refutation of the certificate is made of just those steps of the log that its last one
    /// reaches. Axioms that the framework doesn't need, and clauses of others, come by the entries that the trade gave
    /// alone. The engine stays usable whatever comes; after a stop other than `Query` its log may be longer.
    pub fn answer<T: ClauseTrade>(
        &mut self,
        alloc: Global,
        query: &Query,
        budget: &mut Budget,
        limit: u32,
        trade: &mut T,
    ) -> Result<Answered, AnswerStop>
        requires { budget.old.used ≡ 0 }
        ensures fits { OnOk result (Fits self.old.framework query.now) }
        ensures shown { IfOk result (λ a. IsShownBy self.old.framework query.now a.answer a.certificate) }
        ensures by_log { IfOk result (λ a.
            IsShownByLog self.old.framework query.now a.answer a.certificate.sets self.new.log) }
        ensures units { IfOk result (λ a. a.units ≡ budget.new.used) }
        ensures within { budget.new.used ≤ budget.new.limit }
        ensures cut { IfOk result (λ a. AreCut self.new.log a.certificate.refutations) }
        ensures cause { IfErr result (IsCause self.old.framework query.now limit self.new.log) }
        ensures run { HasRun (MadeFor self.old.framework query.now) (2 * length self.new.log.sides + 2)
            self.old.framework self.old.log self.new.log self.new.pending budget.old budget.new (halt_behind result) }
        ensures by_grounded { is_by_grounded query.now.task.problem query.now.task.semantics ≡ true
            → (self.new ≡ self.old) × (budget.new ≡ budget.old) }
        ensures framework { self.new.framework ≡ self.old.framework }
        ensures number { self.new.number ≡ self.old.number }
        ensures steps { result ≢ Err AnswerStop.Memory
            → GoesOnBySteps self.old.framework self.old.number (T.gave trade.new) self.old.log self.new.log }
        ensures follows { T.follows trade.old trade.new }
        ensures in_hand { (count : ℕ) → result ≡ Err (AnswerStop.Spent count)
            → LoopInHand self.new.log self.new.pending }
        ensures trade { result ≢ Err AnswerStop.Memory → (waiting : List AnEntry) → T.left trade.old ≡ Some waiting
            → TakesFrom self.old.framework self.old.number waiting (T.left trade.new) self.old.log self.new.log }
        ensures emptied { OnOk result (is_by_grounded query.now.task.problem query.now.task.semantics ≡ false
            → (waiting : List AnEntry) → T.left trade.old ≡ Some waiting → IsEmptied waiting (T.left trade.new)) }
    {
        query_fits(&self.parts.framework, query)?;
        if let Some(answered) = answer_by_grounded(alloc, &self.parts.framework, query)? {
            return Ok(answered);
        }
        let end = self.answer_by_search(alloc, query, budget, limit, trade);
        let _within = budget.used();
        end
    }
}
