//! The core of one framework, that at hand.

ghost use Rattle.std.specs.Prelude.{◌≡◌, ◌↔◌, IfOk, IsTrue};
ghost use Rattle.meaning_atoms.specs.AxiomNames.{IsAxiomName};
ghost use Rattle.oracle_face.specs.Logs.{by_axiom, by_hints, is_loop};
ghost use Rattle.session_log.specs.OwnSteps.{IsWanted};
ghost use Rattle.core_machine.specs.Steps.{IsCalledFor, IsStep, learn, side, take_in};
ghost use Rattle.core_events.specs.AtHand.{IsUnused, core_of};
ghost use Rattle.core_events.specs.Seats.{IsSeatAt};
ghost use Rattle.core_events.specs.Stops.{Comes};

use crate::log_events::{derive, keep_side, take_axiom};
use crate::naming::import;
use crate::needs::{front, is_axiom_of, is_named, is_needed_among};
use crate::places::{IndexedEntry, find_entry};
use crate::seats::{MachineSeat, seat_of};
use crate::stop::StepStop;
use certificate_claims::clause_of_axiom;
use core_logs::checking::is_new;
use core_logs::sources::is_loop_clause;
use dung_notions::AfPlain;
use edit_history::HistoryEntry;
use edit_rules::Framework;
use lists::Memory;
use meaning_atoms::{AtomLit, AxiomName};
use plain_lits::StepId;
use set_lists::NumSet;
use std::alloc::Global;

/// The core of the framework at hand: how it was at the beginning, how many edits there may be, how long a session's
/// log may be, the edits that were taken, the number of turns, the pool, and the sessions.
pub struct CoreAtHand {
    pub(crate) opening: Framework,
    pub(crate) limit: u64,
    pub(crate) log_limit: u64,
    pub(crate) history: Vec<HistoryEntry>,
    pub(crate) turns: u64,
    pub(crate) pool: Vec<IndexedEntry>,
    pub(crate) seats: Vec<MachineSeat>,
}

impl Drop for CoreAtHand {
    fn drop(self) {
        let CoreAtHand {
            opening: _,
            limit: _,
            log_limit: _,
            history: _,
            turns: _,
            pool: _,
            seats: _,
        } = self;
    }
}

impl CoreAtHand {
    /// The core with no framework at hand: nothing is in the pool, and no session has done anything.
    pub(crate) fn without_framework(
        alloc: Global,
        limit: u64,
        log_limit: u64,
    ) -> Result<CoreAtHand, Memory>
        ensures { IfOk result (IsUnused limit log_limit) }
    {
        let nothing = AfPlain::of_lists(alloc, &[], &[])?;
        Ok(CoreAtHand {
            opening: Framework::Af(nothing),
            limit,
            log_limit,
            history: Vec::new(alloc),
            turns: 0,
            pool: Vec::new(alloc),
            seats: Vec::new(alloc),
        })
    }

    /// The index of a session's seat, which is made if there is none. What the machine means stays.
    pub(crate) fn seat(&mut self, alloc: Global, session: u32) -> Result<usize, Memory>
        ensures at { IfOk result (IsSeatAt self.new.seats.items session) }
        ensures same { core_of self.new ≡ core_of self.old }
    {
        seat_of(alloc, &mut self.seats, self.log_limit, session)
    }

    /// A session derives a clause by hints.
    pub(crate) fn learn_derived(
        &mut self,
        alloc: Global,
        session: u32,
        clause: &[AtomLit],
        hints: &[StepId],
        closing: bool,
    ) -> Result<(), StepStop>
        ensures { Comes (IsStep (core_of self.old) (learn session clause.now (by_hints hints.now) closing))
            (core_of self.old) (core_of self.new) result }
    {
        let index = self.seat(alloc, session)?;
        derive(
            alloc,
            &mut self.seats[index].session.log,
            clause,
            hints,
            closing,
        )
    }

    /// Whether an axiom of the framework's kind may come: a loop clause where it is new, any other where it is called
    /// for.
    fn is_wanted(
        &self,
        alloc: Global,
        session: u32,
        index: usize,
        name: &AxiomName,
    ) -> Result<bool, Memory>
        requires at { IsSeatAt self.now.seats.items session index }
        requires name { IsAxiomName name.now }
        ensures { IfOk result (λ is. IsTrue is ↔ IsWanted (IsCalledFor (core_of self.now) session)
            ((core_of self.now).sessions session).log name.now (is_loop name.now)) }
    {
        if is_loop_clause(name) {
            let clause = clause_of_axiom(alloc, name)?;
            return Ok(is_new(self.seats[index].session.log.steps(), clause.as_slice()));
        }
        self.is_called_for(alloc, session, index, name)
    }

    /// Whether a framework that the session of a seat has seen needs an axiom, or the pool names it.
    fn is_called_for(
        &self,
        alloc: Global,
        session: u32,
        index: usize,
        name: &AxiomName,
    ) -> Result<bool, Memory>
        requires { IsSeatAt self.now.seats.items session index }
        ensures { IfOk result (λ is. IsTrue is ↔ IsCalledFor (core_of self.now) session name.now) }
    {
        if is_named(self.pool.as_slice(), name) {
            return Ok(true);
        }
        let seen = front(self.history.as_slice(), self.seats[index].session.seen);
        is_needed_among(alloc, &self.opening, seen, name)
    }

    /// A session takes an axiom.
    pub(crate) fn learn_axiom(
        &mut self,
        alloc: Global,
        session: u32,
        clause: &[AtomLit],
        name: &AxiomName,
        closing: bool,
    ) -> Result<(), StepStop>
        ensures { Comes (IsStep (core_of self.old) (learn session clause.now (by_axiom name.now) closing))
            (core_of self.old) (core_of self.new) result }
    {
        if closing || !is_axiom_of(&self.opening, name) {
            return Err(StepStop::NotAStep);
        }
        let index = self.seat(alloc, session)?;
        if !self.is_wanted(alloc, session, index, name)? {
            return Err(StepStop::NotAStep);
        }
        take_axiom(alloc, &mut self.seats[index].session.log, name, clause)
    }

    /// A session keeps a side clause that is made from a set.
    pub(crate) fn keep_side(
        &mut self,
        alloc: Global,
        session: u32,
        set: &NumSet,
        literals: &[AtomLit],
    ) -> Result<(), StepStop>
        ensures { Comes (IsStep (core_of self.old) (side session set.now literals.now))
            (core_of self.old) (core_of self.new) result }
    {
        let index = self.seat(alloc, session)?;
        keep_side(alloc, &mut self.seats[index].session.log, literals, set)
    }

    /// A session takes an entry from the pool.
    pub(crate) fn import(&mut self, alloc: Global, session: u32, place: u64) -> Result<(), StepStop>
        ensures { Comes (IsStep (core_of self.old) (take_in session place)) (core_of self.old) (core_of self.new) result }
    {
        let index = self.seat(alloc, session)?;
        let Some(entry) = find_entry(self.pool.as_slice(), place) else {
            return Err(StepStop::NotAStep);
        };
        let log = &mut self.seats[index].session.log;
        import(alloc, &self.opening, session, log, entry)
    }
}
