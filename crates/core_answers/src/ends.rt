//! Whether a query may end with an outcome.

ghost use Rattle.std.specs.Prelude.{◌≡◌, ◌↔◌, ◌≤◌, ◌*◌, ◌+◌, count_by, drop, false, length, IfOk, IsTrue};
ghost use Rattle.edit_rules.specs.Fitting.{Fits, IsFaultOf};
ghost use Rattle.edit_rules.specs.Kinds.{framework_of};
ghost use Rattle.oracle_face.specs.Growing.{IsSpent};
ghost use Rattle.oracle_face.specs.Logs.{is_unit};
ghost use Rattle.session_log.specs.Ends.{LoopInHand, MadeFor, MayStop, is_by_grounded};
ghost use Rattle.core_answers.specs.Outcomes.{Comes, EndsFit, EndsSo};
ghost use Rattle.core_logs.specs.Tests.{AreNamed};
ghost use Rattle.core_answers.specs.Serving.{HasServed};

use crate::counts::{Count, number_of};
use crate::outcome::Outcome;
use crate::pending::is_further;
use crate::serving::{in_hand_serves, sides_serve, steps_serve};
use crate::showing::{are_too_many, is_shown};
use core_logs::CoreLog;
use edit_rules::{Framework, QueryFault, query_fits};
use iccma_tasks::{Problem, Query, Semantics, Task};
use lists::Memory;
use oracle_face::Pending;
use std::alloc::Global;

/// Whether a query's first fault is this one.
fn is_fault(framework: &Framework, query: &Query, fault: QueryFault) -> bool
    ensures { IsTrue result ↔ IsFaultOf (framework_of framework.now) query.now fault }
{
    match query_fits(framework, query) {
        Ok(()) => false,
        Err(first) => first == fault,
    }
}

/// Whether a query fits a framework.
fn fits(framework: &Framework, query: &Query) -> bool
    ensures { IsTrue result ↔ Fits (framework_of framework.now) query.now }
{
    match query_fits(framework, query) {
        Ok(()) => true,
        Err(_) => false,
    }
}

/// Whether the grounded set doesn't answer a task, so that a spent budget or a full log may stop its queries.
fn may_stop(task: Task) -> bool
    ensures { IsTrue result ↔ (is_by_grounded task.problem task.semantics ≡ false) }
{
    match (task.problem, task.semantics) {
        (Problem::AllExtensions, _) => true,
        (_, Semantics::Grounded) => false,
        (Problem::Sceptical | Problem::SomeExtension, Semantics::Complete) => false,
        _ => true,
    }
}

/// Whether there are at most twice as many closing steps as side clauses, and two more.
fn are_few(closings: usize, sides: usize) -> bool
    ensures { IsTrue result ↔ (closings ≤ 2 * sides + 2) }
{
    closings as u128 <= 2 * sides as u128 + 2
}

/// Whether what came behind so many steps serves a query.
fn has_served(
    alloc: Global,
    framework: &Framework,
    query: &Query,
    log: &CoreLog,
    from: usize,
) -> Result<bool, Memory>
    requires within { from ≤ length log.now.steps }
    requires names { AreNamed log.now.steps }
    ensures { IfOk result (λ served. IsTrue served
        ↔ HasServed (framework_of framework.now) query.now log.now from) }
{
    let steps = log.steps();
    let closings = number_of(Count::Closings, &steps[from..]);
    if !are_few(closings, log.sides().len()) {
        return Ok(false);
    }
    let before = number_of(Count::Sides, &steps[..from]);
    let sides = sides_serve(alloc, framework, query, log.sides(), before)?;
    if !sides {
        return Ok(false);
    }
    let served = steps_serve(alloc, framework, steps, from)?;
    Ok(served)
}

/// Whether the budget was spent at a count, with a further clause in hand.
fn is_spent(
    alloc: Global,
    framework: &Framework,
    query: &Query,
    log: &CoreLog,
    used: u64,
    budget: u64,
    pending: &Option<Pending>,
    count: u64,
) -> Result<bool, Memory>
    ensures { IfOk result (λ spent. IsTrue spent ↔ IsSpent (MadeFor (framework_of framework.now) query.now)
        (framework_of framework.now) log.now pending.now (record { limit = budget; used = used }) count) }
{
    if count != budget {
        return Ok(false);
    }
    if count != used {
        return Ok(false);
    }
    match pending {
        None => Ok(false),
        Some(in_hand) => Ok(is_further(alloc, framework, query, log, in_hand)?),
    }
}

/// Whether a query is unknown at a count of units: the budget was spent, and a loop clause in hand serves the query.
fn is_unknown(
    alloc: Global,
    framework: &Framework,
    query: &Query,
    log: &CoreLog,
    used: u64,
    budget: u64,
    pending: &Option<Pending>,
    count: u64,
) -> Result<bool, Memory>
    ensures { IfOk result (λ is. IsTrue is ↔ (IsSpent (MadeFor (framework_of framework.now) query.now)
        (framework_of framework.now) log.now pending.now (record { limit = budget; used = used }) count
        × MayStop query.now × LoopInHand log.now pending.now)) }
{
    if !may_stop(query.task()) {
        return Ok(false);
    }
    let spent = is_spent(alloc, framework, query, log, used, budget, pending, count)?;
    if !spent {
        return Ok(false);
    }
    let serves = in_hand_serves(alloc, log.steps(), pending)?;
    Ok(serves)
}

/// Whether a log is full.
fn is_full(log: &CoreLog) -> bool
    ensures { IsTrue result ↔ (length log.now.steps ≡ log.now.limit) }
{
    log.steps().len() as u64 == log.limit()
}

/// Whether the rest of an outcome is so, where the query fits and this many units were used.
fn ends_so(
    alloc: Global,
    framework: &Framework,
    query: &Query,
    most: u32,
    log: &CoreLog,
    used: u64,
    budget: u64,
    pending: &Option<Pending>,
    outcome: &Outcome,
) -> Result<bool, Memory>
    ensures { IfOk result (λ so. IsTrue so ↔ EndsSo (framework_of framework.now) query.now most log.now pending.now
        (record { limit = budget; used = used }) outcome.now) }
{
    match outcome {
        Outcome::Refused(_) => Ok(false),
        Outcome::Definite(answer, sets) => {
            let sets = sets.as_slice();
            Ok(is_shown(alloc, framework, query, answer, sets, log)?)
        }
        Outcome::Unknown(count) => {
            let is = is_unknown(alloc, framework, query, log, used, budget, pending, *count)?;
            Ok(is)
        }
        Outcome::TooMany(sets) => {
            let sets = sets.as_slice();
            Ok(are_too_many(alloc, framework, query, most, sets, log)?)
        }
        Outcome::LogFull => Ok(is_full(log) && may_stop(query.task())),
    }
}

/// Whether a query fits, and ends with an outcome.
fn ends_fit(
    alloc: Global,
    framework: &Framework,
    query: &Query,
    most: u32,
    log: &CoreLog,
    from: usize,
    budget: u64,
    pending: &Option<Pending>,
    outcome: &Outcome,
) -> Result<bool, Memory>
    requires within { from ≤ length log.now.steps }
    requires names { AreNamed log.now.steps }
    ensures { IfOk result (λ ends. IsTrue ends
        ↔ EndsFit (framework_of framework.now) query.now most log.now from pending.now
        (record { limit = budget; used = count_by is_unit (drop from log.now.steps) }) outcome.now) }
{
    if !fits(framework, query) {
        return Ok(false);
    }
    let used = number_of(Count::Units, &log.steps()[from..]) as u64;
    if used > budget {
        return Ok(false);
    }
    let so = ends_so(
        alloc, framework, query, most, log, used, budget, pending, outcome,
    )?;
    if !so {
        return Ok(false);
    }
    let served = has_served(alloc, framework, query, log, from)?;
    Ok(served)
}

/// Whether a query may end with an outcome on a framework, by what a log has gained since it had `answered` steps, with
/// `budget` units at most, a clause in hand, and `most` extensions at most in a list. It is so exactly where the
/// outcome is an ending that the definition allows. `Memory` says that an allocation was refused.
pub fn may_end(
    alloc: Global,
    framework: &Framework,
    query: &Query,
    most: u32,
    log: &CoreLog,
    answered: usize,
    budget: u64,
    pending: &Option<Pending>,
    outcome: &Outcome,
) -> Result<bool, Memory>
    requires { AreNamed log.now.steps }
    ensures { IfOk result (λ ends. IsTrue ends
        ↔ Comes (framework_of framework.now) query.now most log.now answered budget pending.now outcome.now) }
{
    if let Outcome::Refused(fault) = outcome {
        return Ok(is_fault(framework, query, *fault));
    }
    let from = answered.min(log.steps().len());
    let ends = ends_fit(
        alloc, framework, query, most, log, from, budget, pending, outcome,
    )?;
    Ok(ends)
}
