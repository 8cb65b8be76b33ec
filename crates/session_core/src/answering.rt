//! The reply to a query, on the framework that the engine is for.

ghost use Rattle.std.specs.Prelude.{◌≡◌, [], IfOk};
ghost use Rattle.clause_pool.specs.Pools.{AreInRow, AreTokensOf};
ghost use Rattle.oracle_core.specs.Trading.{AnySide};
ghost use Rattle.oracle_face.specs.Growing.{Grows};
ghost use Rattle.session_core.specs.Telling.{IsBodyOf, IsTold, clause_kept};

use crate::kept::KeptAnswer;
use clause_pool::PoolTrade;
use iccma_tasks::Query;
use lists::Memory;
use oracle_core::{AnswerStop, Answered, Engine};
use oracle_face::Pending;
use plain_lits::Budget;
use semantics::MAX_EXTENSIONS;
use session_replies::Body;
use std::alloc::Global;
use std::sync::Wait;

/// What a query came to.
#[derive(Drop)]
pub(crate) struct QueryEnd {
    pub(crate) body: Body,
    pub(crate) kept: KeptAnswer,
    /// The index of the next entry that the pool has to give.
    pub(crate) next: u64,
}

/// What a reply says where the engine answered so.
fn body_of(end: Result<Answered, AnswerStop>) -> Result<Body, Memory>
    ensures { IfOk result (IsBodyOf end) }
{
    match end {
        Ok(answered) => Ok(Body::Answered(answered.answer, answered.certificate)),
        Err(AnswerStop::Query(fault)) => Ok(Body::QueryRefused(fault)),
        Err(AnswerStop::Spent(count)) => Ok(Body::Unknown(count)),
        Err(AnswerStop::TooMany) => Ok(Body::TooMany),
        Err(AnswerStop::LogFull) => Ok(Body::LogFull),
        Err(AnswerStop::Memory) => Err(Memory),
    }
}

/// The clause that is kept of a query with this reply.
fn clause_of(alloc: Global, engine: &Engine, body: &Body) -> Result<Option<Pending>, Memory>
    ensures { IfOk result (λ kept. kept ≡ clause_kept body.now engine.now.pending) }
{
    match body {
        Body::Unknown(_) => engine.pending(alloc),
        _ => Ok(None),
    }
}

/// Answers a query by at most so many units, without any lock. Clauses come and go meanwhile by a trade over the pool,
/// which has given none yet.
pub(crate) fn answer_query<R: Wait>(
    alloc: Global,
    engine: &mut Engine,
    mut trade: PoolTrade<'_, R>,
    query: &Query,
    limit: u64,
) -> Result<QueryEnd, Memory>
    requires { trade.taken ≡ [] }
    ensures told { IfOk result (IsTold engine.old.framework engine.old.number query.now limit engine.old.log
        engine.new.log) }
    ensures tokens { IfOk result (λ told. AreTokensOf trade.entry.pool.now told.kept.tokens) }
    ensures row { IfOk result (λ told. AreInRow trade.entry.next told.kept.tokens told.next) }
    ensures framework { engine.new.framework ≡ engine.old.framework }
    ensures number { engine.new.number ≡ engine.old.number }
    ensures grows { Grows AnySide engine.old.log engine.new.log }
{
    let before = engine.steps() as u64;
    let mut budget = Budget::new(limit);
    let end = engine.answer(alloc, query, &mut budget, MAX_EXTENSIONS, &mut trade);
    let body = body_of(end)?;
    let pending = clause_of(alloc, engine, &body)?;
    let after = engine.steps() as u64;
    let next = trade.next();
    Ok(QueryEnd {
        body,
        kept: KeptAnswer {
            before,
            after,
            pending,
            tokens: trade.into_taken(),
        },
        next,
    })
}
