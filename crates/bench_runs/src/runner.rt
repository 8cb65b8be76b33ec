//! One session of a script.

ghost use Rattle.std.specs.Prelude.{◌≡◌, ℕ, ◌++◌, ◌∷◌, [], List, false, take, IfOk, OnOk};
ghost use Rattle.edit_rules.specs.Kinds.{framework_of};
ghost use Rattle.turn_lock.specs.Seats.{list_of, number_of};
ghost use Rattle.edit_history.specs.Hubs.{IsSeatAt, start_of};
ghost use Rattle.script_text.specs.declared.script.ScriptLine.{ScriptLine as ALine};
ghost use Rattle.clause_pool.specs.declared.pool.Pool.{Pool as APool};
ghost use Rattle.session_core.specs.Sessions.{TakesMore};
ghost use Rattle.bench_runs.specs.Running.{HasServed, IsReady, IsTold};

use crate::sorted::SortedLines;
use argue_outside::{Pace, Point};
use clause_pool::Pool;
use edit_history::{Hub, Seat};
use edit_rules::Framework;
use hinted_log::MAX_STEPS;
use lists::{Items, Memory};
use script_text::{ScriptCommand, ScriptLine};
use session_core::Session;
use session_replies::Reply;
use std::alloc::Global;
use std::sync::Wait;

/// A session, with the replies to the lines that it has done.
pub(crate) struct Runner {
    pub(crate) session: Session,
    pub(crate) replies: Items<Reply>,
}

impl Drop for Runner {
    fn drop(self) {
        let Self { session, replies } = self;
    }
}

impl Runner {
    /// A session at a hub's seat that has seen nothing yet, on the framework that the hub began with.
    pub(crate) fn open(
        alloc: Global,
        hub: &Hub,
        seat: Seat,
        framework: &Framework,
    ) -> Result<Runner, Memory>
        requires seat { IsSeatAt hub.now seat }
        requires fresh { list_of seat ≡ [] }
        requires framework { framework_of framework.now ≡ start_of hub.now }
        ensures served { (pool : APool) (budget : ℕ) → IfOk result (HasServed hub.now pool budget []) }
        ensures number { IfOk result (λ runner. runner.session.number ≡ number_of seat) }
    {
        let opening = framework.copy(alloc)?;
        let number = seat.number();
        match Session::open(alloc, number, opening, seat, MAX_STEPS) {
            Ok(session) => Ok(Runner {
                session,
                replies: Items::new(alloc),
            }),
            Err(_seat) => Err(Memory),
        }
    }

    /// The session and the replies. It takes no memory.
    pub(crate) fn into_parts(self) -> (Session, Items<Reply>)
        ensures session { result.0 ≡ self.session }
        ensures replies { result.1 ≡ self.replies }
    {
        let Runner { session, replies } = self;
        (session, replies)
    }

    /// Does what a line says.
    fn execute<R: Wait, P: Pace>(
        &mut self,
        rt: &R,
        alloc: Global,
        hub: &Hub,
        pool: &Pool,
        command: &ScriptCommand,
        budget: u64,
        pace: &P,
    ) -> Result<Reply, Memory>
        requires { IsReady hub.now self.old.session }
        ensures ready { OnOk result (IsReady hub.now self.new.session) }
        ensures told { IfOk result (IsTold hub.now budget command.now self.old.session self.new.session) }
        ensures pooled { TakesMore pool.now self.old.session self.new.session }
        ensures number { self.new.session.number ≡ self.old.session.number }
        ensures replies { self.new.replies ≡ self.old.replies }
    {
        let number = self.session.number();
        match command {
            ScriptCommand::Edit(group, grouped) => {
                pace.at(number, Point::BeforeEdit);
                let edits = group.as_slice();
                let reply = self.session.commit(rt, alloc, hub, edits, *grouped)?;
                pace.at(number, Point::AfterEdit);
                Ok(reply)
            }
            ScriptCommand::Ask(query) => {
                pace.at(number, Point::BeforeAsk);
                let reply = self.session.ask(rt, alloc, hub, pool, query, budget, pace)?;
                pace.at(number, Point::AfterAsk);
                Ok(reply)
            }
        }
    }

    /// Does a line of the session's.
    fn take_line<R: Wait, P: Pace>(
        &mut self,
        rt: &R,
        alloc: Global,
        hub: &Hub,
        pool: &Pool,
        line: &ScriptLine,
        budget: u64,
        pace: &P,
    ) -> Result<(), Memory>
        requires ready { IsReady hub.now self.old.session }
        requires own { line.now.session ≡ self.old.session.number }
        ensures served { (before : List ALine) → HasServed hub.now pool.now budget before self.old
            → OnOk result (HasServed hub.now pool.now budget (before ++ line.now ∷ []) self.new) }
        ensures number { self.new.session.number ≡ self.old.session.number }
    {
        let reply = self.execute(rt, alloc, hub, pool, &line.command, budget, pace)?;
        self.replies.push(reply)?;
        Ok(())
    }

    /// Does the session's lines in order. After `Memory` a part of them may be done.
    pub(crate) fn serve<R: Wait, P: Pace>(
        &mut self,
        rt: &R,
        alloc: Global,
        hub: &Hub,
        pool: &Pool,
        lines: &SortedLines<'_>,
        budget: u64,
        pace: &P,
    ) -> Result<(), Memory>
        requires { HasServed hub.now pool.now budget [] self.old }
        ensures served { OnOk result (HasServed hub.now pool.now budget lines.now self.new) }
        ensures number { self.new.session.number ≡ self.old.session.number }
    {
        let own = lines.own(self.session.number());
        for line in own {
            self.take_line(rt, alloc, hub, pool, *line, budget, pace)?;
        }
        Ok(())
    }
}
