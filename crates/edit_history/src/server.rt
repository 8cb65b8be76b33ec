//! Several histories side by side, one for each framework.

ghost use Rattle.std.specs.Prelude.{◌≡◌, ◌-◌, ◌<◌, ◌≤◌, ◌++◌, All, length, slice_index_or, IfOk, IfErr};
ghost use Rattle.edit_history.specs.Closing.{AreRooms, EndsLast, IsLastOf, IsRoom};
ghost use Rattle.edit_history.specs.Hubs.{sessions_of};
ghost use Rattle.edit_history.specs.Servers.{AreNewSeatsBy, AreSeatsBy, EndTogether, IsServerOf, hubs_of};
ghost use Rattle.edit_history.specs.declared.hub.Hub.{Hub as AHub};

use crate::hub::{History, Hub, Seat};
use edit_rules::Framework;
use lists::Memory;
use std::alloc::Global;
use std::sync::Wait;

/// A hub for each of some frameworks, in their order.
pub struct Server {
    pub(crate) hubs: Vec<Hub>,
}

impl Drop for Server {
    fn drop(self) {
        let Self { hubs } = self;
    }
}

/// A server that wasn't closed for want of memory, and its seats, as they were.
pub struct ServerRefused {
    /// The server.
    pub server: Server,
    /// All its seats.
    pub seats: Vec<Seat>,
}

impl Drop for ServerRefused {
    fn drop(self) {
        let Self { server, seats } = self;
    }
}

impl Server {
    /// Opens a hub for each framework, with so many seats as the count beside it says. Each history will have `limit`
    /// edits at most. The seats are those of the first hub, then those of the second, and so on, each hub's in the order
    /// of their numbers. `Err` comes only for want of memory.
    pub fn open<R: Wait>(
        rt: &R,
        alloc: Global,
        frameworks: Vec<Framework>,
        limit: u64,
        counts: &[u32],
    ) -> Result<(Server, Vec<Seat>), Memory>
        requires counts { length counts.now ≡ length frameworks.items }
        requires some { All (λ n. 0 < n) counts.now }
        ensures server { IfOk result (λ opened. IsServerOf frameworks.items limit counts.now opened.0) }
        ensures seats { IfOk result (λ opened. AreNewSeatsBy (hubs_of opened.0) opened.1.items) }
    {
        let mut left = frameworks;
        let mut hubs = Vec::new(alloc);
        let mut seats = Vec::new(alloc);
        for count in counts {
            let framework = left.remove(0);
            let (hub, mut own) = Hub::open(rt, alloc, framework, limit, *count)?;
            hubs.push(hub)?;
            seats.append(&mut own)?;
        }
        Ok((Server { hubs }, seats))
    }

    /// The hub of the k-th framework, where the first is 1.
    pub fn hub(&self, k: u32) -> &Hub
        requires { (1 ≤ k) × (k ≤ length (hubs_of self.now)) }
        ensures { (d : AHub) → result.now ≡ slice_index_or (hubs_of self.now) (k - 1) d }
    {
        &self.hubs[k as usize - 1]
    }

    /// Ends all hubs, given all their seats in the order in which they came, and gives the histories in the hubs' order.
    /// It doesn't wait. It takes its memory first: `Err` comes for want of it, with everything as it was.
    pub fn close(self, alloc: Global, seats: Vec<Seat>) -> Result<Vec<History>, ServerRefused>
        requires { AreSeatsBy (hubs_of self) seats.items }
        ensures ok { IfOk result (λ histories. EndTogether (hubs_of self) seats.items histories.items) }
        ensures refused { IfErr result (λ refused. (refused.server ≡ self) × (refused.seats ≡ seats)) }
    {
        match rooms_for(alloc, self.hubs.len(), seats.len()) {
            Ok((parts, histories)) => {
                let Server { hubs } = self;
                Ok(close_all(hubs, seats, parts, histories))
            }
            Err(Memory) => Err(ServerRefused {
                server: self,
                seats,
            }),
        }
    }
}

/// Takes the memory for closing so many hubs with so many seats: a room for each hub's seats, and one for the histories.
fn rooms_for(
    alloc: Global,
    hubs: usize,
    seats: usize,
) -> Result<(Vec<Vec<Seat>>, Vec<History>), Memory>
    ensures parts { IfOk result (λ rooms. AreRooms hubs seats rooms.0.items) }
    ensures histories { IfOk result (λ rooms. IsRoom hubs rooms.1) }
{
    let parts = parts_for(alloc, hubs, seats)?;
    let histories = Vec::with_capacity(alloc, hubs)?;
    Ok((parts, histories))
}

/// Empty lists, each with room for so many seats.
fn parts_for(alloc: Global, hubs: usize, seats: usize) -> Result<Vec<Vec<Seat>>, Memory>
    ensures { IfOk result (λ parts. AreRooms hubs seats parts.items) }
{
    let mut parts = Vec::new(alloc);
    for _ in 0..hubs {
        let part = Vec::with_capacity(alloc, seats)?;
        parts.push(part)?;
    }
    Ok(parts)
}

/// Moves the last seats, so many, into a room.
fn take_last(seats: &mut Vec<Seat>, room: Vec<Seat>, count: u32) -> Vec<Seat>
    requires enough { count ≤ length seats.old.items }
    requires room { IsRoom count room }
    ensures whole { seats.old.items ≡ seats.new.items ++ result.items }
    ensures count { length result.items ≡ count }
{
    let mut own = room;
    for _ in 0..count {
        match seats.pop() {
            Some(seat) => own.push_reserved(seat),
            None => unreachable!(),
        }
    }
    own.reverse();
    own
}

/// How many seats the last hub has: its last seat has the greatest number.
fn count_of(hub: &Hub, seats: &[Seat]) -> u32
    requires { IsLastOf hub.now seats.now }
    ensures { result ≡ sessions_of hub.now }
{
    match seats.last() {
        Some(seat) => seat.number(),
        None => unreachable!(),
    }
}

/// Ends the last hub, whose seats are the last ones.
fn close_last(hub: Hub, seats: &mut Vec<Seat>, room: Vec<Seat>) -> History
    requires last { IsLastOf hub seats.old.items }
    requires room { IsRoom (length seats.old.items) room }
    ensures { EndsLast hub seats.old.items seats.new.items result }
{
    let count = count_of(&hub, seats.as_slice());
    let own = take_last(seats, room, count);
    hub.close(own)
}

/// Ends all hubs, from the last to the first.
fn close_all(
    hubs: Vec<Hub>,
    seats: Vec<Seat>,
    parts: Vec<Vec<Seat>>,
    histories: Vec<History>,
) -> Vec<History>
    requires seats { AreSeatsBy hubs.items seats.items }
    requires parts { AreRooms (length hubs.items) (length seats.items) parts.items }
    requires histories { IsRoom (length hubs.items) histories }
    ensures { EndTogether hubs.items seats.items result.items }
{
    let mut left = hubs;
    let mut seats = seats;
    let mut parts = parts;
    let mut ended = histories;
    while let Some(hub) = left.pop() {
        match parts.pop() {
            Some(part) => ended.push_reserved(close_last(hub, &mut seats, part)),
            None => unreachable!(),
        }
    }
    ended.reverse();
    ended
}
