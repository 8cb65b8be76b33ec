//! A session at its limits: its log has no room, and then the history is full. It still edits and is answered where it
//! can be.

ghost use Rattle.std.specs.Prelude.{◌≡◌, All, IfSome};
ghost use Rattle.edit_rules.specs.Kinds.{framework_of};
ghost use Rattle.edit_history.specs.Hubs.{IsSeatAt, start_of};
ghost use Rattle.bench_runs.specs.session_core.specs.Sessions.{Follows};
ghost use Rattle.session_tests.specs.Seats.{IsNewSeat};

use argue_outside::NoPace;
use clause_pool::Pool;
use dung_notions::AfPlain;
use edit_history::{Hub, Seat};
use edit_rules::{Edit, Framework};
use iccma_tasks::{Query, Task};
use lists::Bytes;
use session_core::Session;
use session_replies::{Reply, session_text};
use std::alloc::Global;
use std::mem::forget;
use std::sync::Wait;
use std::test::Fail;

/// The reply to an edit joins the others.
fn edit<R: Wait>(
    rt: &R,
    alloc: Global,
    hub: &Hub,
    session: &mut Session,
    replies: &mut Vec<Reply>,
    edit: Edit,
) -> Result<(), Fail>
    requires seat { IsSeatAt hub.now session.old.seat }
    requires follows { Follows hub.now session.old }
    ensures seat { IsSeatAt hub.now session.new.seat }
    ensures follows { Follows hub.now session.new }
{
    let reply = session.edit(rt, alloc, hub, edit)?;
    Ok(replies.push(reply)?)
}

/// The reply to a query joins the others.
fn ask<R: Wait>(
    rt: &R,
    alloc: Global,
    hub: &Hub,
    pool: &Pool,
    session: &mut Session,
    replies: &mut Vec<Reply>,
    task: &str,
    number: Option<u32>,
) -> Result<(), Fail>
    requires seat { IsSeatAt hub.now session.old.seat }
    requires follows { Follows hub.now session.old }
    ensures seat { IsSeatAt hub.now session.new.seat }
    ensures follows { Follows hub.now session.new }
{
    let query = Query::new(Task::read(task.as_bytes())?, number).ok_or("query")?;
    let reply = session.ask(rt, alloc, hub, pool, &query, 1_000, &NoPace)?;
    Ok(replies.push(reply)?)
}

/// The replies to a query that wants a step, an edit, queries by the grounded set, and an edit at a full history.
fn tell<R: Wait>(
    rt: &R,
    alloc: Global,
    hub: &Hub,
    pool: &Pool,
    session: &mut Session,
    replies: &mut Vec<Reply>,
) -> Result<(), Fail>
    requires seat { IsSeatAt hub.now session.old.seat }
    requires follows { Follows hub.now session.old }
{
    ask(rt, alloc, hub, pool, session, replies, "SE-ST", None)?;
    edit(rt, alloc, hub, session, replies, Edit::AttackDrop(3, 1))?;
    ask(rt, alloc, hub, pool, session, replies, "SE-GR", None)?;
    edit(rt, alloc, hub, session, replies, Edit::AttackAdd(3, 1))?;
    ask(rt, alloc, hub, pool, session, replies, "DC-GR", Some(2))
}

/// The text of what a session at a seat is told, whose log may have no step.
fn told_at<R: Wait>(
    rt: &R,
    alloc: Global,
    hub: &Hub,
    pool: &Pool,
    seat: Option<Seat>,
    framework: &Framework,
) -> Result<Bytes, Fail>
    requires seat { IfSome seat (IsNewSeat hub.now) }
    requires framework { framework_of framework.now ≡ start_of hub.now }
{
    let opening = framework.copy(alloc)?;
    let seat = seat.ok_or("seat")?;
    let Ok(mut session) = Session::open(alloc, seat.number(), opening, seat, 0) else {
        return Err("open")?;
    };
    let mut replies = Vec::new(alloc);
    let done = tell(rt, alloc, hub, pool, &mut session, &mut replies);
    forget(session);
    done?;
    Ok(session_text(alloc, 1, &replies)?)
}

/// The same at one of some seats.
fn told_first<R: Wait>(
    rt: &R,
    alloc: Global,
    hub: &Hub,
    pool: &Pool,
    seats: Vec<Seat>,
    framework: &Framework,
) -> Result<Bytes, Fail>
    requires seats { All (IsNewSeat hub.now) seats.items }
    requires framework { framework_of framework.now ≡ start_of hub.now }
{
    let mut left = seats;
    let seat = left.pop();
    told_at(rt, alloc, hub, pool, seat, framework)
}

/// The same at the seat of a hub whose history may have one entry.
fn told_of<R: Wait>(
    rt: &R,
    alloc: Global,
    pool: &Pool,
    framework: &Framework,
) -> Result<Bytes, Fail> {
    let opening = framework.copy(alloc)?;
    let (hub, seats) = Hub::open(rt, alloc, opening, 1, 1)?;
    let told = told_first(rt, alloc, &hub, pool, seats, framework);
    forget(hub);
    told
}

/// The same on three arguments in a ring.
fn in_a_ring<R: Wait>(rt: &R, alloc: Global) -> Result<Bytes, Fail> {
    let plain = AfPlain::of_lists(alloc, &[1, 2, 3], &[(1, 2), (2, 3), (3, 1)])?;
    let framework = Framework::Af(plain);
    let pool = Pool::open(alloc)?;
    let told = told_of(rt, alloc, &pool, &framework);
    forget(pool);
    forget(framework);
    told
}

/// That the ring has no stable set takes a step to show; the grounded set takes none.
#[test]
fn no_room(rt: HostRuntime) -> Result<(), Fail> {
    let told = in_a_ring(&rt, rt.alloc())?;
    let wanted =
        "session 1\nat 0\nLIMIT LogFull\nat 1\nOK\nat 1\nw 1 3\nat 1\nLIMIT HistoryFull\nat 1\nNO\n";
    assert!(rt; told.as_slice() == wanted.as_bytes());
    Ok(())
}
