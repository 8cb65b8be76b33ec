//! A session's life, but for its edits and queries.

ghost use Rattle.std.specs.Prelude.{◌≡◌, ◌≤◌, [], IfErr, IfOk, None, false};
ghost use Rattle.atom_solver.specs.States.{empty_log};
ghost use Rattle.edit_rules.specs.Kinds.{framework_of};
ghost use Rattle.hinted_log.specs.declared.log.TheConstants.{MAX_STEPS};
ghost use Rattle.turn_lock.specs.Seats.{number_of};
ghost use Rattle.session_core.specs.Sessions.{FollowsFrom};

use crate::kept::{Kept, KeptAnswer};
use edit_history::Seat;
use edit_rules::Framework;
use hinted_log::MAX_STEPS;
use oracle_core::Engine;
use std::alloc::Global;

/// One user's session. Contracts see its seat at the hub, with the history that it saw last; its engine; how many
/// entries of that history the engine has followed; the index of the pool up to which the engine has looked at what
/// others share; what is kept of its queries; and whether memory was refused, behind which it answers nothing.
pub struct Session {
    pub(crate) number: u32,
    pub(crate) seat: Seat,
    pub(crate) engine: Engine,
    pub(crate) followed: u64,
    pub(crate) taken: u64,
    pub(crate) answers: Vec<KeptAnswer>,
    pub(crate) out_of_memory: bool,
}

// By hand, so that a drop is one call (docs/PROVING.md).
impl Drop for Session {
    fn drop(self) {
        let Session {
            number: _,
            seat: _,
            engine: _,
            followed: _,
            taken: _,
            answers: _,
            out_of_memory: _,
        } = self;
    }
}

impl Session {
    /// The session of a number on the framework that its hub began with. Its log will have at most so many steps. Where
    /// memory is refused, the seat comes back.
    pub fn open(
        alloc: Global,
        number: u32,
        framework: Framework,
        seat: Seat,
        log_limit: u64,
    ) -> Result<Session, Seat>
        requires number { number ≡ number_of seat }
        requires limit { log_limit ≤ MAX_STEPS }
        ensures number { IfOk result (λ session. session.number ≡ number) }
        ensures seat { IfOk result (λ session. session.seat ≡ seat) }
        ensures engine { IfOk result (λ session. session.engine ≡ record {
          number = number;
          framework = framework_of framework;
          log = empty_log log_limit;
          pending = None;
        }) }
        ensures followed { IfOk result (λ session. session.followed ≡ 0) }
        ensures taken { IfOk result (λ session. session.taken ≡ 0) }
        ensures answers { IfOk result (λ session. session.answers.items ≡ []) }
        ensures out_of_memory { IfOk result (λ session. session.out_of_memory ≡ false) }
        ensures follows { IfOk result (FollowsFrom (framework_of framework)) }
        ensures back { IfErr result (λ back. back ≡ seat) }
    {
        match Engine::new(alloc, number, framework, log_limit) {
            Ok(engine) => Ok(Session {
                number,
                seat,
                engine,
                followed: 0,
                taken: 0,
                answers: Vec::new(alloc),
                out_of_memory: false,
            }),
            Err(_) => Err(seat),
        }
    }

    /// The session's number.
    pub fn number(&self) -> u32
        ensures { result ≡ self.now.number }
    {
        self.number
    }

    /// Gives the seat back, with what is left of the session. It takes no memory.
    pub fn end(self) -> (Seat, Kept)
        ensures seat { result.0 ≡ self.seat }
        ensures engine { result.1.engine ≡ self.engine }
        ensures answers { result.1.answers ≡ self.answers }
    {
        let Session {
            number: _,
            seat,
            engine,
            followed: _,
            taken: _,
            answers,
            out_of_memory: _,
        } = self;
        (seat, Kept { engine, answers })
    }
}
