//! The sessions that have done something, each under its number.

ghost use Rattle.std.specs.Prelude.{◌≡◌, ◌+◌, ◌<◌, length, OnErr, OnOk, IfOk, IfSome, IfNone, take, slice_index_or};
ghost use Rattle.core_events.specs.Seats.{HasNoSeat, IsSeatAt, fresh, session_of, sessions_of};

use core_logs::NamedLog;
use lists::Memory;
use plain_lits::StepId;
use std::alloc::Global;

/// How much of the history a session has seen, its log, the steps that it handed to the pool, the last one first, and the
/// length of its log at its last answer.
#[derive(Drop)]
pub struct SessionState {
    pub(crate) seen: usize,
    pub(crate) log: NamedLog,
    pub(crate) shared: Vec<StepId>,
    pub(crate) answered: usize,
}

/// A session under its number.
#[derive(Drop)]
pub struct MachineSeat {
    pub(crate) number: u32,
    pub(crate) session: SessionState,
}

/// A session that has done nothing.
fn fresh_session(alloc: Global, log_limit: u64) -> SessionState
    ensures { session_of result ≡ fresh log_limit }
{
    SessionState {
        seen: 0,
        log: NamedLog::new(alloc, log_limit),
        shared: Vec::new(alloc),
        answered: 0,
    }
}

/// The index of the first seat of a number.
fn find_seat(seats: &[MachineSeat], number: u32) -> Option<usize>
    ensures some { IfSome result (IsSeatAt seats.now number) }
    ensures none { IfNone result (HasNoSeat seats.now number) }
{
    for index in 0..seats.len() {
        if seats[index].number == number {
            return Some(index);
        }
    }
    None
}

/// The index of the first seat of a number, which is made if there is none. What sessions mean stays.
pub(crate) fn seat_of(
    alloc: Global,
    seats: &mut Vec<MachineSeat>,
    log_limit: u64,
    number: u32,
) -> Result<usize, Memory>
    ensures ok { IfOk result (IsSeatAt seats.new.items number) }
    ensures same { sessions_of log_limit seats.new.items ≡ sessions_of log_limit seats.old.items }
{
    if let Some(index) = find_seat(seats.as_slice(), number) {
        return Ok(index);
    }
    let index = seats.len();
    let session = fresh_session(alloc, log_limit);
    seats.push(MachineSeat { number, session })?;
    Ok(index)
}
