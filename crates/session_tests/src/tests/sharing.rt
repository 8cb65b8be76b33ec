//! What one session learned comes into the log of another.

ghost use Rattle.std.specs.Prelude.{◌≡◌, All, IfSome};
ghost use Rattle.edit_rules.specs.Kinds.{framework_of};
ghost use Rattle.edit_history.specs.Hubs.{IsSeatAt, start_of};
ghost use Rattle.bench_runs.specs.session_core.specs.Sessions.{Follows};
ghost use Rattle.session_tests.specs.Seats.{IsNewSeat};

use argue_outside::NoPace;
use clause_pool::Pool;
use dung_notions::AfPlain;
use edit_history::{Hub, Seat};
use edit_rules::Framework;
use iccma_tasks::{Query, Task};
use lists::Memory;
use oracle_core::Engine;
use plain_lits::StepId;
use session_core::Session;
use std::alloc::Global;
use std::mem::forget;
use std::sync::Wait;
use std::test::Fail;

/// How many steps of a log were taken from entries, and how many went to others.
#[derive(Clone, Copy)]
struct Marks {
    imported: u32,
    shared: u32,
}

/// The marks of a log.
fn marks_of(alloc: Global, engine: &Engine) -> Result<Marks, Memory> {
    let mut marks = Marks {
        imported: 0,
        shared: 0,
    };
    let Ok(steps) = u32::try_from(engine.steps()) else {
        return Err(Memory);
    };
    for number in 0..steps {
        let step = StepId::new(number + 1);
        let imported = engine.imported(alloc, step)?.is_some();
        let shared = engine.is_shared(alloc, step)?;
        marks.imported = marks.imported.saturating_add(imported as u32);
        marks.shared = marks.shared.saturating_add(shared as u32);
    }
    Ok(marks)
}

/// The marks of a session's log behind a query for a stable set. What the session keeps is left to the end of the tests.
fn asked<R: Wait>(
    rt: &R,
    alloc: Global,
    hub: &Hub,
    pool: &Pool,
    session: Session,
    query: &Query,
) -> Result<Marks, Memory>
    requires seat { IsSeatAt hub.now session.seat }
    requires follows { Follows hub.now session }
{
    let mut session = session;
    let told = session.ask(rt, alloc, hub, pool, query, 1_000, &NoPace);
    let (seat, kept) = session.end();
    let marks = marks_of(alloc, &kept.engine);
    forget(kept);
    forget(seat);
    told?;
    marks
}

/// The same of a session that is opened at a seat.
fn asked_at<R: Wait>(
    rt: &R,
    alloc: Global,
    hub: &Hub,
    pool: &Pool,
    seat: Option<Seat>,
    framework: &Framework,
    query: &Query,
) -> Result<Marks, Fail>
    requires seat { IfSome seat (IsNewSeat hub.now) }
    requires framework { framework_of framework.now ≡ start_of hub.now }
{
    let opening = framework.copy(alloc)?;
    let seat = seat.ok_or("seat")?;
    match Session::open(alloc, seat.number(), opening, seat, 1_000) {
        Ok(session) => Ok(asked(rt, alloc, hub, pool, session, query)?),
        Err(_seat) => Err("open")?,
    }
}

/// The marks of two sessions at the last two of some seats, of which the second asks when the first is done.
fn both<R: Wait>(
    rt: &R,
    alloc: Global,
    hub: &Hub,
    pool: &Pool,
    seats: Vec<Seat>,
    framework: &Framework,
) -> Result<(Marks, Marks), Fail>
    requires seats { All (IsNewSeat hub.now) seats.items }
    requires framework { framework_of framework.now ≡ start_of hub.now }
{
    let query = Query::new(Task::read(b"SE-ST")?, None).ok_or("query")?;
    let mut left = seats;
    let two = left.pop();
    let one = left.pop();
    let first = asked_at(rt, alloc, hub, pool, one, framework, &query)?;
    let second = asked_at(rt, alloc, hub, pool, two, framework, &query)?;
    Ok((first, second))
}

/// The same at the two seats of a hub.
fn marks_on<R: Wait>(
    rt: &R,
    alloc: Global,
    pool: &Pool,
    framework: &Framework,
) -> Result<(Marks, Marks), Fail> {
    let opening = framework.copy(alloc)?;
    let (hub, seats) = Hub::open(rt, alloc, opening, 9, 2)?;
    let marks = both(rt, alloc, &hub, pool, seats, framework);
    forget(hub);
    marks
}

/// The same on three arguments in a ring.
fn in_a_ring<R: Wait>(rt: &R, alloc: Global) -> Result<(Marks, Marks), Fail> {
    let plain = AfPlain::of_lists(alloc, &[1, 2, 3], &[(1, 2), (2, 3), (3, 1)])?;
    let framework = Framework::Af(plain);
    let pool = Pool::open(alloc)?;
    let marks = marks_on(rt, alloc, &pool, &framework);
    forget(pool);
    forget(framework);
    marks
}

/// Session 1 asks for a stable set, and then session 2 does.
#[test]
fn taken_from_the_other(rt: HostRuntime) -> Result<(), Fail> {
    let (one, two) = in_a_ring(&rt, rt.alloc())?;
    assert!(rt; one.imported == 0 && one.shared > 0);
    assert!(rt; two.imported > 0);
    Ok(())
}
