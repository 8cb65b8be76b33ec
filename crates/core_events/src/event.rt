//! The events that a machine takes.

ghost use Rattle.std.specs.Prelude.{◌≡◌};
ghost use Rattle.core_machine.specs.Servers.{session_of_event};
ghost use Rattle.core_machine.specs.Steps.{IsStep, learn, refresh};
ghost use Rattle.core_events.specs.Events.{event_of, source_by};
ghost use Rattle.core_events.specs.AtHand.{core_of};
ghost use Rattle.core_events.specs.Stops.{Comes};

use crate::at_hand::CoreAtHand;
use crate::stop::StepStop;
use core_answers::Outcome;
use edit_rules::Edit;
use iccma_tasks::Query;
use lists::Items;
use meaning_atoms::{AtomLit, AxiomName};
use oracle_face::Pending;
use plain_lits::StepId;
use set_lists::NumSet;
use std::alloc::Global;

/// Where a learned clause comes from: it is an axiom's, or it follows from the steps of hints.
#[derive(Drop)]
pub enum Origin {
    Axiom(AxiomName),
    Hints(Items<StepId>),
}

/// What a session does. Sessions are numbered from 1.
pub enum Event {
    /// A session commits a group of edits.
    Commit(u32, Items<Edit>),
    /// A session looks at all edits.
    Refresh(u32),
    /// A session learns a clause; `closing` marks one that only ends a search.
    Learn {
        session: u32,
        clause: Items<AtomLit>,
        origin: Origin,
        closing: bool,
    },
    /// A session keeps a side clause that is made from a set.
    Side {
        session: u32,
        from: NumSet,
        literals: Items<AtomLit>,
    },
    /// A session hands a step's clause to an index of the pool.
    Share {
        session: u32,
        step: StepId,
        index: u64,
    },
    /// A session takes the entry at an index of the pool.
    Import {
        session: u32,
        index: u64,
    },
    /// A session answers a query with so many units at most.
    Answer {
        session: u32,
        query: Query,
        limit: u64,
        pending: Option<Pending>,
        result: Outcome,
    },
}

impl Drop for Event {
    fn drop(self) {
        match self {
            Event::Commit(_, _)
            | Event::Refresh(_)
            | Event::Learn {
                session: _,
                clause: _,
                origin: _,
                closing: _,
            }
            | Event::Side {
                session: _,
                from: _,
                literals: _,
            }
            | Event::Share {
                session: _,
                step: _,
                index: _,
            }
            | Event::Import {
                session: _,
                index: _,
            }
            | Event::Answer {
                session: _,
                query: _,
                limit: _,
                pending: _,
                result: _,
            } => {}
        }
    }
}

impl Event {
    /// The number of the event's session.
    pub(crate) fn session(&self) -> u32
        ensures { result ≡ session_of_event (event_of self.now) }
    {
        match self {
            Event::Commit(session, _)
            | Event::Refresh(session)
            | Event::Learn {
                session,
                clause: _,
                origin: _,
                closing: _,
            }
            | Event::Side {
                session,
                from: _,
                literals: _,
            }
            | Event::Share {
                session,
                step: _,
                index: _,
            }
            | Event::Import { session, index: _ }
            | Event::Answer {
                session,
                query: _,
                limit: _,
                pending: _,
                result: _,
            } => *session,
        }
    }
}

impl CoreAtHand {
    /// Takes an event, if it is a step of the core: `NotAStep` comes exactly where it isn't. After every `Err` the core
    /// means the same state as before. `Memory` says that an allocation was refused.
    pub(crate) fn step(&mut self, alloc: Global, event: &Event) -> Result<(), StepStop>
        ensures { Comes (IsStep (core_of self.old) (event_of event.now)) (core_of self.old) (core_of self.new) result }
    {
        match event {
            Event::Commit(session, edits) => self.commit(alloc, *session, edits.as_slice()),
            Event::Refresh(session) => self.look(alloc, *session),
            Event::Learn {
                session,
                clause,
                origin,
                closing,
            } => self.learn(alloc, *session, clause, origin, *closing),
            Event::Side {
                session,
                from,
                literals,
            } => self.keep_side(alloc, *session, from, literals.as_slice()),
            Event::Share {
                session,
                step,
                index,
            } => self.share(alloc, *session, *step, *index),
            Event::Import { session, index } => self.import(alloc, *session, *index),
            Event::Answer {
                session,
                query,
                limit,
                pending,
                result,
            } => self.answer(alloc, *session, query, *limit, pending, result),
        }
    }

    /// A session looks at all edits.
    fn look(&mut self, alloc: Global, session: u32) -> Result<(), StepStop>
        ensures { Comes (IsStep (core_of self.old) (refresh session)) (core_of self.old) (core_of self.new) result }
    {
        self.refresh(alloc, session)
    }

    /// A session learns a clause.
    fn learn(
        &mut self,
        alloc: Global,
        session: u32,
        clause: &Items<AtomLit>,
        origin: &Origin,
        closing: bool,
    ) -> Result<(), StepStop>
        ensures { Comes (IsStep (core_of self.old) (learn session clause.now (source_by origin.now) closing))
            (core_of self.old) (core_of self.new) result }
    {
        match origin {
            Origin::Axiom(name) => {
                self.learn_axiom(alloc, session, clause.as_slice(), name, closing)
            }
            Origin::Hints(hints) => {
                self.learn_derived(alloc, session, clause.as_slice(), hints.as_slice(), closing)
            }
        }
    }
}
