//! Counts of faults, which never fall.

ghost use Rattle.std.specs.Prelude.{◌≡◌, ℕ, ◌+◌, ◌<◌, ◌≤◌, ◌↔◌, length, Contains, IsTrue};
ghost use Rattle.argue_outside.specs.declared.Role.{Role as ARole};
ghost use Rattle.argue_outside.specs.Outside.{IsRole, FaultCounted, OtherCountsKept, next_call};
ghost use Rattle.argue_outside.specs.Counted.{index_of, count_at};

use crate::Role;
use lists::Items;

/// The counters of 16 frameworks and six other roles. That of a framework without number stays unused.
const COUNTERS: usize = 23;

/// The faults of reading, for each role apart.
#[derive(Drop)]
pub(crate) struct Counts {
    pub(crate) counts: [u64; COUNTERS],
}

impl Counts {
    /// No fault yet.
    pub(crate) fn new() -> Counts
        ensures { (role : ARole) → count_at result.counts role ≡ 0 }
    {
        Counts {
            counts: [0; COUNTERS],
        }
    }

    /// The faults of this role.
    pub(crate) fn of(&self, role: Role) -> u64
        ensures { result ≡ count_at self.now.counts role }
    {
        let index = index_of_role(role);
        if index < COUNTERS {
            self.counts[index]
        } else {
            0
        }
    }

    /// Counts a fault of this role.
    pub(crate) fn raise(&mut self, role: Role)
        requires { IsRole role }
        ensures later { count_at self.old.counts role ≤ count_at self.new.counts role }
        ensures counted { FaultCounted (count_at self.old.counts role) (count_at self.new.counts role) }
        ensures others { OtherCountsKept role (count_at self.old.counts) (count_at self.new.counts) }
    {
        let index = index_of_role(role);
        self.counts[index] = raised(self.counts[index]);
    }
}

/// The index of a role's count.
fn index_of_role(role: Role) -> usize
    ensures { result ≡ index_of role }
{
    match role {
        Role::Script => 0,
        Role::Answer => 1,
        Role::Certificate => 2,
        Role::List => 3,
        Role::Cnf => 4,
        Role::Lrat => 5,
        Role::Framework(k) => 6 + k as usize,
    }
}

/// One fault more, or the counter's last value.
pub(crate) fn raised(count: u64) -> u64
    ensures value { result ≡ next_call count }
    ensures later { count ≤ result }
    ensures counted { FaultCounted count result }
{
    count.saturating_add(1)
}

/// The numbers of the calls that are to fail, and how many calls there were.
#[derive(Drop)]
pub(crate) struct Plan {
    pub(crate) failing: Items<u64>,
    pub(crate) calls: u64,
}

impl Plan {
    /// The calls with these numbers fail, counted from 1.
    pub(crate) fn new(failing: Items<u64>) -> Plan
        ensures failing { result.failing ≡ failing }
        ensures calls { result.calls ≡ 0 }
    {
        Plan { failing, calls: 0 }
    }

    /// Counts a call, and says whether it is to fail.
    pub(crate) fn fails(&mut self) -> bool
        ensures says { IsTrue result ↔ Contains self.old.failing (next_call self.old.calls) }
        ensures counted { self.new.calls ≡ next_call self.old.calls }
        ensures same { self.new.failing ≡ self.old.failing }
    {
        self.calls = raised(self.calls);
        is_listed(self.failing.as_slice(), self.calls)
    }
}

fn is_listed(numbers: &[u64], number: u64) -> bool
    ensures { IsTrue result ↔ Contains numbers.now number }
{
    numbers.contains(&number)
}
