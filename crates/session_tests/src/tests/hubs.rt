//! Sessions share one history of edits, one after another and in threads.

ghost use Rattle.std.specs.Prelude.{◌≡◌, ◌<◌, All, map};
ghost use Rattle.std.specs.Thread.{IsSync};
ghost use Rattle.turn_lock.specs.Seats.{number_of};
ghost use Rattle.edit_history.specs.Hubs.{IsSeatAt};

use dung_notions::AfPlain;
use edit_history::{Change, CommitFault, Committed, Fresh, GroupCommitted, History, Hub, Seat};
use edit_rules::{Edit, EditFault, Framework};
use lists::{Items, Memory};
use std::alloc::Global;
use std::sync::Wait;
use std::test::Fail;
use std::thread::{Threads, join_mut};

/// 1 and 2 attack each other, and 2 attacks 3.
fn worked(alloc: Global) -> Result<Framework, Memory> {
    let plain = AfPlain::of_lists(alloc, &[1, 2, 3], &[(1, 2), (2, 1), (2, 3)])?;
    Ok(Framework::Af(plain))
}

/// How a commit has to end: at which front, or why not.
type Ending = Result<u64, CommitFault>;

/// Whether a refusal is the one that is wanted.
fn is_refused_so(fault: CommitFault, wanted: Ending) -> bool {
    match (fault, wanted) {
        (CommitFault::HistoryFull(front), Err(CommitFault::HistoryFull(other))) => front == other,
        (CommitFault::Edit(place, fault, front), Err(CommitFault::Edit(at, other, end))) => place
            == at
            && fault == other
            && front == end,
        _ => false,
    }
}

/// Whether a commit ended so.
fn ends_so(told: Result<Committed, CommitFault>, wanted: Ending) -> bool {
    match told {
        Ok(done) => matches!(wanted, Ok(front) if front == done.front),
        Err(fault) => is_refused_so(fault, wanted),
    }
}

/// Whether the change is this edit alone.
fn is_only(change: &Change, edit: &Edit) -> bool {
    match change.effects.as_slice() {
        [effect] => effect.edit == *edit,
        _ => false,
    }
}

/// Whether the change is one edit, with which this attack alone went.
fn takes_away(change: &Change, attack: (u32, u32)) -> bool {
    match change.effects.as_slice() {
        [effect] => effect.dropped.as_slice() == [attack].as_slice(),
        _ => false,
    }
}

/// Whether the changes are one attack that the session dropped.
fn is_dropped(changes: &[Change], session: u32, edit: &Edit) -> bool {
    match changes {
        [change] => change.session == session && is_only(change, edit),
        _ => false,
    }
}

/// One seat: a commit, another at the full history, and what it sees then.
fn fill<R: Wait>(rt: &R, alloc: Global, hub: &Hub, seat: &mut Seat) -> bool
    requires { IsSeatAt hub.now seat.old }
    ensures { IsSeatAt hub.now seat.new × (number_of seat.new ≡ number_of seat.old) }
{
    let first = hub.commit(rt, alloc, seat, Edit::AttackDrop(2, 1));
    let second = hub.commit(rt, alloc, seat, Edit::AttackDrop(2, 1));
    let fresh = hub.refresh(rt, alloc, seat, 0);
    ends_so(first, Ok(1))
        && ends_so(second, Err(CommitFault::HistoryFull(1)))
        && sees_drop(fresh, 1)
}

/// Whether a refresh told the one attack that session 1 dropped, at this front.
fn sees_drop(fresh: Result<Fresh, Memory>, front: u64) -> bool {
    match fresh {
        Ok(fresh) => {
            fresh.front == front && is_dropped(fresh.entries.as_slice(), 1, &Edit::AttackDrop(2, 1))
        }
        Err(_) => false,
    }
}

/// The same with the first of some seats.
fn fill_first<R: Wait>(rt: &R, alloc: Global, hub: &Hub, seats: &mut [Seat]) -> bool
    requires { All (IsSeatAt hub.now) seats.old }
    ensures { All (IsSeatAt hub.now) seats.new × (map number_of seats.new ≡ map number_of seats.old) }
{
    match seats.split_first_mut() {
        Some((first, _rest)) => fill(rt, alloc, hub, first),
        None => false,
    }
}

#[test]
fn full_at_one_entry(rt: HostRuntime) -> Result<(), Fail> {
    let alloc = rt.alloc();
    let (hub, mut seats) = Hub::open(&rt, alloc, worked(alloc)?, 1, 1)?;
    assert!(rt; fill_first(&rt, alloc, &hub, seats.as_mut_slice()));
    let history = hub.close(seats);
    assert!(rt; is_dropped(&history.entries, 1, &Edit::AttackDrop(2, 1)));
    Ok(())
}

/// Two seats: what the second commits comes between what the first saw and what it commits. Whether each call ended as
/// it has to.
fn cross<R: Wait>(rt: &R, alloc: Global, hub: &Hub, one: &mut Seat, two: &mut Seat) -> bool
    requires one { IsSeatAt hub.now one.old }
    requires two { IsSeatAt hub.now two.old }
    ensures one { IsSeatAt hub.now one.new × (number_of one.new ≡ number_of one.old) }
    ensures two { IsSeatAt hub.now two.new × (number_of two.new ≡ number_of two.old) }
{
    let empty = hub.refresh(rt, alloc, one, 0);
    let dropped = hub.commit(rt, alloc, two, Edit::ArgDrop(3));
    let refused = hub.commit(rt, alloc, one, Edit::AttackAdd(3, 1));
    let taken = hub.commit(rt, alloc, one, Edit::AttackDrop(2, 1));
    let seen = two.seen();
    let fresh = hub.refresh(rt, alloc, two, seen);
    let unknown = EditFault::UnknownArgument(3);
    empty.is_ok()
        && ends_so(dropped, Ok(1))
        && ends_so(refused, Err(CommitFault::Edit(1, unknown, 1)))
        && ends_so(taken, Ok(2))
        && sees_drop(fresh, 2)
}

/// The same with the first two of some seats.
fn cross_first<R: Wait>(rt: &R, alloc: Global, hub: &Hub, seats: &mut [Seat]) -> bool
    requires { All (IsSeatAt hub.now) seats.old }
    ensures { All (IsSeatAt hub.now) seats.new × (map number_of seats.new ≡ map number_of seats.old) }
{
    if let Some((one, rest)) = seats.split_first_mut() {
        if let Some((two, _others)) = rest.split_first_mut() {
            return cross(rt, alloc, hub, one, two);
        }
    }
    false
}

#[test]
fn came_between(rt: HostRuntime) -> Result<(), Fail> {
    let alloc = rt.alloc();
    let (hub, mut seats) = Hub::open(&rt, alloc, worked(alloc)?, 9, 2)?;
    assert!(rt; cross_first(&rt, alloc, &hub, seats.as_mut_slice()));
    let history = hub.close(seats);
    assert!(rt; history.entries.len() == 2);
    assert!(rt; takes_away(&history.entries[0], (2, 3)));
    Ok(())
}

/// How a commit of a group ended: the front, and how many effects it told.
fn group_ends_so(
    told: Result<GroupCommitted, CommitFault>,
    wanted: Ending,
    effects: usize,
) -> bool {
    match told {
        Ok(done) => matches!(wanted, Ok(front) if front == done.front)
            && done.effects.as_slice().len() == effects,
        Err(fault) => is_refused_so(fault, wanted),
    }
}

/// One seat: a group is taken, one is refused at its third edit and changes nothing, and one finds no room.
fn group<R: Wait>(rt: &R, alloc: Global, hub: &Hub, seat: &mut Seat) -> Result<bool, Memory>
    requires { IsSeatAt hub.now seat.old }
    ensures { IsSeatAt hub.now seat.new × (number_of seat.new ≡ number_of seat.old) }
{
    let taken = vec![in alloc; Edit::AttackDrop(2, 1), Edit::AttackAdd(3, 1)]?;
    let refused = vec![in alloc;
        Edit::AttackAdd(2, 1),
        Edit::AttackDrop(3, 1),
        Edit::AttackDrop(3, 1),
    ]?;
    let many = vec![in alloc;
        Edit::AttackAdd(2, 1),
        Edit::AttackDrop(3, 1),
        Edit::AttackAdd(3, 1),
        Edit::ArgDrop(3),
    ]?;
    let first = hub.commit_group(rt, alloc, seat, Items::from_vec(taken));
    let second = hub.commit_group(rt, alloc, seat, Items::from_vec(refused));
    let third = hub.commit_group(rt, alloc, seat, Items::from_vec(many));
    let last = hub.commit(rt, alloc, seat, Edit::AttackAdd(2, 1));
    let gone = EditFault::NoSuchAttack;
    Ok(
        group_ends_so(first, Ok(1), 2)
            && group_ends_so(second, Err(CommitFault::Edit(3, gone, 1)), 0)
            && group_ends_so(third, Err(CommitFault::HistoryFull(1)), 0)
            && ends_so(last, Ok(2)),
    )
}

/// The same with the first of some seats.
fn group_first<R: Wait>(
    rt: &R,
    alloc: Global,
    hub: &Hub,
    seats: &mut [Seat],
) -> Result<bool, Memory>
    requires { All (IsSeatAt hub.now) seats.old }
    ensures { All (IsSeatAt hub.now) seats.new × (map number_of seats.new ≡ map number_of seats.old) }
{
    match seats.split_first_mut() {
        Some((first, _rest)) => group(rt, alloc, hub, first),
        None => Ok(false),
    }
}

#[test]
fn whole_groups(rt: HostRuntime) -> Result<(), Fail> {
    let alloc = rt.alloc();
    let (hub, mut seats) = Hub::open(&rt, alloc, worked(alloc)?, 5, 1)?;
    let ended = group_first(&rt, alloc, &hub, seats.as_mut_slice());
    let history = hub.close(seats);
    assert!(rt; ended?);
    assert!(rt; history.entries.len() == 2);
    assert!(rt; history.entries[0].effects.as_slice().len() == 2);
    Ok(())
}

/// Adds the seat's argument and drops it again, one after the other; whether each edit was taken.
fn toggle<R: Wait>(rt: &R, alloc: Global, hub: &Hub, seat: &mut Seat, times: u32) -> bool
    requires { IsSeatAt hub.now seat.old }
    ensures { IsSeatAt hub.now seat.new × (number_of seat.new ≡ number_of seat.old) }
{
    let mut taken = true;
    for turn in 0..times {
        let told = hub.commit(rt, alloc, seat, toggled(seat.number(), turn));
        taken = told.is_ok() && taken;
    }
    taken
}

/// What a session does at its turns 0, 1, ..: it adds its argument and drops it again.
fn toggled(session: u32, turn: u32) -> Edit {
    let argument = session.saturating_add(3);
    if turn % 2 == 0 {
        Edit::ArgAdd(argument)
    } else {
        Edit::ArgDrop(argument)
    }
}

/// Looks at what is new, so many times; whether each look told an effect for each new entry.
fn watch<R: Wait>(rt: &R, alloc: Global, hub: &Hub, seat: &mut Seat, times: u32) -> bool
    requires { IsSeatAt hub.now seat.old }
    ensures { IsSeatAt hub.now seat.new × (number_of seat.new ≡ number_of seat.old) }
{
    let mut whole = true;
    for _ in 0..times {
        let from = seat.seen();
        let told = match hub.refresh(rt, alloc, seat, from) {
            Ok(fresh) => fresh.front.saturating_sub(from) == fresh.entries.len() as u64,
            Err(_) => false,
        };
        whole = told && whole;
    }
    whole
}

/// One session's work: the reader looks, each other one commits.
fn work<R: Wait>(rt: &R, alloc: Global, hub: &Hub, seat: &mut Seat, times: u32, reader: u32) -> bool
    requires { IsSeatAt hub.now seat.old }
    ensures { IsSeatAt hub.now seat.new × (number_of seat.new ≡ number_of seat.old) }
{
    if seat.number() == reader {
        return watch(rt, alloc, hub, seat, times);
    }
    toggle(rt, alloc, hub, seat, times)
}

/// All sessions work side by side, each in a thread of its own.
fn work_all<R: Threads + Wait + Sync>(
    rt: &R,
    alloc: Global,
    hub: &Hub,
    seats: &mut [Seat],
    times: u32,
    reader: u32,
) -> bool
    requires { All (IsSeatAt hub.now) seats.old }
    ensures { All (IsSeatAt hub.now) seats.new × (map number_of seats.new ≡ map number_of seats.old) }
{
    let Some((first, rest)) = seats.split_first_mut() else {
        return true;
    };
    let (one, others) = join_mut(
        rt,
        &mut ||
            requires { IsSeatAt hub.now first.now }
            ensures { IsSeatAt hub.entry.now first.exit.now × (number_of first.exit.now ≡ number_of first.entry.now) }
        { work(rt, alloc, hub, first, times, reader) },
        &mut ||
            requires sync { IsSync R.row }
            requires seats { All (IsSeatAt hub.now) rest.now }
            ensures { All (IsSeatAt hub.entry.now) rest.exit.now
                × (map number_of rest.exit.now ≡ map number_of rest.entry.now) }
        { work_all(rt, alloc, hub, rest, times, reader) },
    );
    one && others
}

/// How many entries a session has; none unless they are what it does at its turns.
fn entries_of(entries: &[Change], session: u32) -> Option<u32> {
    let mut count = 0u32;
    for change in entries {
        if change.session == session {
            if !is_only(change, &toggled(session, count)) {
                return None;
            }
            count = count.saturating_add(1);
        }
    }
    Some(count)
}

/// The history that the sessions 1 to n make in threads.
fn history_made<R: Threads + Wait + Sync>(
    rt: &R,
    alloc: Global,
    n: u32,
    times: u32,
    reader: u32,
) -> Result<History, Fail>
    requires { 0 < n }
{
    let (hub, mut seats) = Hub::open(rt, alloc, worked(alloc)?, 1_000_000, n)?;
    let done = work_all(rt, alloc, &hub, seats.as_mut_slice(), times, reader);
    let history = hub.close(seats);
    if done {
        return Ok(history);
    }
    Err("not all was taken")?
}

#[test]
fn two_in_threads(rt: HostRuntime) -> Result<(), Fail> {
    let history = history_made(&rt, rt.alloc(), 2, 2_000, 0)?;
    let entries = &history.entries;
    assert!(rt; entries.len() == 4_000);
    assert!(rt; entries_of(entries, 1) == Some(2_000));
    assert!(rt; entries_of(entries, 2) == Some(2_000));
    Ok(())
}

#[test]
fn seven_and_a_reader(rt: HostRuntime) -> Result<(), Fail> {
    let history = history_made(&rt, rt.alloc(), 8, 200, 8)?;
    let entries = &history.entries;
    assert!(rt; entries.len() == 1_400);
    for session in 1..8u32 {
        assert!(rt; entries_of(entries, session) == Some(200));
    }
    Ok(())
}
