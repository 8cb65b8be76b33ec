//! Answers to queries.

ghost use Rattle.std.specs.Prelude.{◌↔◌, IfOk, IsTrue};
ghost use Rattle.semantics.specs.declared.limits.TheConstants.{MAX_EXTENSIONS};
ghost use Rattle.core_machine.specs.Steps.{IsStep, answer};
ghost use Rattle.core_answers.specs.Outcomes.{ending_of};
ghost use Rattle.core_events.specs.Answering.{MayAnswer};
ghost use Rattle.core_events.specs.AtHand.{core_of};
ghost use Rattle.core_events.specs.Seats.{IsSeatAt};
ghost use Rattle.core_events.specs.Stops.{Comes};

use crate::at_hand::CoreAtHand;
use crate::needs::{front, replay};
use crate::stop::StepStop;
use core_answers::{Outcome, may_end};
use iccma_tasks::Query;
use lists::Memory;
use oracle_face::Pending;
use semantics::MAX_EXTENSIONS;
use std::alloc::Global;

impl CoreAtHand {
    /// Whether the session of a seat may answer a query so.
    fn may_answer(
        &self,
        alloc: Global,
        session: u32,
        index: usize,
        query: &Query,
        budget: u64,
        pending: &Option<Pending>,
        outcome: &Outcome,
    ) -> Result<bool, Memory>
        requires { IsSeatAt self.now.seats.items session index }
        ensures { IfOk result (λ may. IsTrue may
            ↔ MayAnswer (core_of self.now) session query.now budget pending.now outcome.now) }
    {
        let seat = &self.seats[index];
        let seen = front(self.history.as_slice(), seat.session.seen);
        let framework = replay(alloc, &self.opening, seen)?;
        let log = seat.session.log.log();
        let answered = seat.session.answered;
        may_end(
            alloc,
            &framework,
            query,
            MAX_EXTENSIONS,
            log,
            answered,
            budget,
            pending,
            outcome,
        )
    }

    /// A session answers a query, with a clause in hand.
    pub(crate) fn answer(
        &mut self,
        alloc: Global,
        session: u32,
        query: &Query,
        budget: u64,
        pending: &Option<Pending>,
        outcome: &Outcome,
    ) -> Result<(), StepStop>
        ensures { Comes (IsStep (core_of self.old)
            (answer session query.now MAX_EXTENSIONS budget pending.now (ending_of outcome.now)))
            (core_of self.old) (core_of self.new) result }
    {
        let index = self.seat(alloc, session)?;
        if !self.may_answer(alloc, session, index, query, budget, pending, outcome)? {
            return Err(StepStop::NotAStep);
        }
        let answered = self.seats[index].session.log.steps().len();
        self.seats[index].session.answered = answered;
        Ok(())
    }
}
