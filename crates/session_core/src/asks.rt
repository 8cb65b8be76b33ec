//! A session's queries.

ghost use Rattle.std.specs.Prelude.{◌≡◌, ◌<◌, true, false, IfOk, IsErr, OnErr, OnOk};
ghost use Rattle.turn_lock.specs.Seats.{number_of, turns_of};
ghost use Rattle.edit_history.specs.Hubs.{GainsOthers, IsSeatAt, start_of};
ghost use Rattle.oracle_core.specs.Trading.{AnySide};
ghost use Rattle.oracle_face.specs.Growing.{Grows};
ghost use Rattle.oracle_face.specs.Logs.{IsKept};
ghost use Rattle.session_core.specs.Following.{HasFollowed};
ghost use Rattle.session_core.specs.Sessions.{Follows, IsAsked, TakesMore, seen_by};
ghost use Rattle.session_core.specs.Telling.{HasTold, HasTurn, IsCaughtUp};

use crate::answering::answer_query;
use crate::following::follow;
use crate::session::Session;
use argue_outside::{Pace, Point};
use clause_pool::{Pool, PoolTrade};
use edit_history::{Fresh, Hub};
use iccma_tasks::Query;
use lists::Memory;
use oracle_face::Oracle;
use session_replies::{Body, Reply};
use std::alloc::Global;
use std::sync::Wait;

impl Session {
    /// Sees the whole history at one turn, brings the engine to the framework after it, and tells its length.
    fn catch_up<R: Wait>(&mut self, rt: &R, alloc: Global, hub: &Hub) -> Result<u64, Memory>
        requires seat { IsSeatAt hub.now self.old.seat }
        requires followed { HasFollowed (start_of hub.now) (seen_by self.old) self.old.followed self.old.engine }
        ensures turn { HasTurn hub.now self.old self.new }
        ensures ok { IfOk result (IsCaughtUp (start_of hub.now) self.old self.new) }
        ensures grows { Grows AnySide self.old.engine.log self.new.engine.log }
        ensures numbers { (self.new.number ≡ self.old.number) × (self.new.engine.number ≡ self.old.engine.number) }
        ensures answers { self.new.answers ≡ self.old.answers }
        ensures taken { self.new.taken ≡ self.old.taken }
        ensures out_of_memory { self.new.out_of_memory ≡ self.old.out_of_memory }
    {
        let Fresh { entries, front } = hub.refresh(rt, alloc, &mut self.seat, self.followed)?;
        follow(alloc, &mut self.engine, entries.as_slice())?;
        self.followed = front;
        Ok(front)
    }

    /// Answers a query on the framework that the engine is for, and keeps where its work stands in the log. Room for
    /// that is made first. Clauses come from the pool and go there meanwhile; the tokens of those that came are kept.
    fn answer<R: Wait>(
        &mut self,
        rt: &R,
        alloc: Global,
        pool: &Pool,
        query: &Query,
        limit: u64,
    ) -> Result<Body, Memory>
        ensures ok { IfOk result (HasTold query.now limit self.old self.new) }
        ensures grows { Grows AnySide self.old.engine.log self.new.engine.log }
        ensures framework { self.new.engine.framework ≡ self.old.engine.framework }
        ensures numbers { (self.new.number ≡ self.old.number) × (self.new.engine.number ≡ self.old.engine.number) }
        ensures answers { OnErr result (self.new.answers.items ≡ self.old.answers.items) }
        ensures pooled { TakesMore pool.now self.old self.new }
        ensures seat { self.new.seat ≡ self.old.seat }
        ensures followed { self.new.followed ≡ self.old.followed }
        ensures out_of_memory { self.new.out_of_memory ≡ self.old.out_of_memory }
    {
        self.answers.reserve(1)?;
        let trade = PoolTrade::new(rt, alloc, pool, self.taken);
        let told = answer_query(alloc, &mut self.engine, trade, query, limit)?;
        let next = told.next;
        self.answers.push(told.kept)?;
        self.taken = next;
        Ok(told.body)
    }

    /// The reply to a query, for a session that was never refused memory.
    fn reply_to<R: Wait, P: Pace>(
        &mut self,
        rt: &R,
        alloc: Global,
        hub: &Hub,
        pool: &Pool,
        query: &Query,
        limit: u64,
        pace: &P,
    ) -> Result<Reply, Memory>
        requires seat { IsSeatAt hub.now self.old.seat }
        requires followed { HasFollowed (start_of hub.now) (seen_by self.old) self.old.followed self.old.engine }
        ensures turn { HasTurn hub.now self.old self.new }
        ensures ok { IfOk result (IsAsked hub.now query.now limit self.old self.new) }
        ensures grows { Grows AnySide self.old.engine.log self.new.engine.log }
        ensures numbers { (self.new.number ≡ self.old.number) × (self.new.engine.number ≡ self.old.engine.number) }
        ensures answers { OnErr result (self.new.answers.items ≡ self.old.answers.items) }
        ensures pooled { TakesMore pool.now self.old self.new }
        ensures out_of_memory { self.new.out_of_memory ≡ self.old.out_of_memory }
    {
        let front = self.catch_up(rt, alloc, hub)?;
        pace.at(self.number, Point::InAsk);
        let body = self.answer(rt, alloc, pool, query, limit)?;
        Ok(Reply { front, body })
    }

    /// Answers a query by at most so many units of new clauses. The session sees the whole history at one turn, and the
    /// reply is about the framework after it; its front is the history's length then. Others may edit meanwhile, since
    /// nothing is locked while the query is answered. Before each search the engine takes in what others share through
    /// the pool, where it may come in. Each step of the log stands beside those before it, be it one's own or taken
    /// from another's entry: what came so, and each axiom that the framework doesn't need, is of entries that the pool
    /// gave, of which the tokens are kept. `Unknown` comes only where the units were spent on clauses that
    /// were new and serve the query and a further one was in hand, `LogFull` only where the log is full, neither where
    /// the grounded set answers; `TooMany` where there are more than [`MAX_EXTENSIONS`](semantics::MAX_EXTENSIONS)
    /// extensions to list. After `Memory` the session answers nothing any more.
    pub fn ask<R: Wait, P: Pace>(
        &mut self,
        rt: &R,
        alloc: Global,
        hub: &Hub,
        pool: &Pool,
        query: &Query,
        limit: u64,
        pace: &P,
    ) -> Result<Reply, Memory>
        requires seat { IsSeatAt hub.now self.old.seat }
        requires follows { Follows hub.now self.old }
        ensures seat { IsSeatAt hub.now self.new.seat × (number_of self.new.seat ≡ number_of self.old.seat) }
        ensures later { self.old.out_of_memory ≡ false → turns_of self.old.seat < turns_of self.new.seat }
        ensures gained { GainsOthers (number_of self.old.seat) (seen_by self.old) (seen_by self.new) }
        ensures ok { IfOk result (IsAsked hub.now query.now limit self.old self.new) }
        ensures grows { Grows AnySide self.old.engine.log self.new.engine.log }
        ensures numbers { (self.new.number ≡ self.old.number) × (self.new.engine.number ≡ self.old.engine.number) }
        ensures answers { OnErr result (self.new.answers.items ≡ self.old.answers.items) }
        ensures pooled { TakesMore pool.now self.old self.new }
        ensures follows { Follows hub.now self.new }
        ensures stands { IsKept self.new.engine.framework self.new.engine.log }
        ensures kept { OnOk result (self.new.out_of_memory ≡ false) }
        ensures out_of_memory { OnErr result (self.new.out_of_memory ≡ true) }
        ensures still_out_of_memory { self.old.out_of_memory ≡ true → IsErr result × (self.new ≡ self.old) }
    {
        if self.out_of_memory {
            let _stands = self.engine.members();
            return Err(Memory);
        }
        let told = self.reply_to(rt, alloc, hub, pool, query, limit, pace);
        let _stands = self.engine.members();
        match told {
            Ok(reply) => Ok(reply),
            Err(_) => {
                self.out_of_memory = true;
                Err(Memory)
            }
        }
    }
}
