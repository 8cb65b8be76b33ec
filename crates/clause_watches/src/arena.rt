//! Clauses in one array, and the watched pair of each.

ghost use Rattle.std.specs.Prelude.{◌≡◌, ◌-◌, ◌<◌, ◌≤◌, ◌^◌, [], ◌∷◌, ◌++◌, length, slice_set, OnOk, OnErr, IfOk};
ghost use Rattle.std.specs.Prelude.{Contains};
ghost use Rattle.plain_lits.specs.HintCheck.{clause_at, IsNamed};
ghost use Rattle.plain_lits.specs.declared.lit.Lit.{Lit};
ghost use Rattle.clause_watches.specs.Arenas.{pair_of};
ghost use Rattle.clause_watches.specs.Picks.{FindsWatch};

use crate::finding::{NewWatch, find_around};
use crate::pair::Pair;
use lists::Memory;
use plain_lits::{Lit, PackedLit, Rows, Trail};
use std::alloc::Global;
use std::marker::Model;

/// A clause's watched pair, and the index at which a look for another literal to watch begins.
#[derive(Clone, Copy)]
struct Watched {
    pair: Pair,
    begin: u32,
}

/// The clauses by their ids, which count from 1, and what is watched of each. That lies by itself, close together: most
/// visits of a clause need no more.

pub struct Arena {
    rows: Rows<PackedLit>,
    watched: Vec<Watched>,
}

// By hand, so that a drop is one call (docs/PROVING.md).
impl Drop for Arena {
    fn drop(self) {
        let Self { rows, watched } = self;
    }
}

impl Model for Arena {
    ghost use Rattle.std.specs.Prelude.{◌≡◌, length};
    ghost use Rattle.clause_watches.specs.Arenas.{Store, pairs_in};

    ghost Value = { Store };

    ghost view = { λ a. record { clauses = a.rows; pairs = pairs_in a.watched.items } };

    ghost invariant = { λ a. length a.watched.items ≡ length a.rows };
}

/// The literals of a clause, packed.
fn packed_all(alloc: Global, clause: &[Lit]) -> Result<Vec<PackedLit>, Memory>
    requires { (l : Lit) → Contains clause.now l → l.var < 2 ^ 31 }
    ensures { IfOk result (λ row. row.items ≡ clause.now) }
{
    let mut row = Vec::new(alloc);
    for lit in clause {
        row.push(PackedLit::pack(*lit))?;
    }
    Ok(row)
}

/// An index in four bytes; one that doesn't fit is 0.
fn short_index(at: usize) -> u32 {
    if at > u32::MAX as usize {
        return 0;
    }
    at as u32
}

/// An index of a look that is within so many literals, or 0.
fn begin_within(begin: u32, count: usize) -> usize
    ensures { result ≤ count }
{
    if begin as usize > count {
        return 0;
    }
    begin as usize
}

impl Arena {
    /// No clause, which takes no memory.
    pub fn new(alloc: Global) -> Arena
        ensures clauses { result.clauses ≡ [] }
        ensures pairs { result.pairs ≡ [] }
    {
        Arena {
            rows: Rows::new(alloc),
            watched: Vec::new(alloc),
        }
    }

    /// The number of clauses.
    pub fn len(&self) -> usize
        ensures { result ≡ length self.now.clauses }
    {
        self.rows.len()
    }

    /// The literals of a clause.
    pub fn clause(&self, id: u32) -> &[PackedLit]
        requires { IsNamed self.now.clauses id }
        ensures { result.now ≡ clause_at self.now.clauses id }
    {
        self.rows.row(id as usize - 1)
    }

    /// The watched pair of a clause.
    pub fn pair(&self, id: u32) -> Pair
        requires { IsNamed self.now.clauses id }
        ensures { result ≡ pair_of self.now.pairs id }
    {
        let watched = self.watched.as_slice();
        watched[id as usize - 1].pair
    }

    /// A literal of a clause that isn't false and isn't the other watched one, whose code is given. The look begins
    /// where the clause's last one ended.
    pub fn find_watch(&self, trail: &Trail, id: u32, other: usize) -> Option<NewWatch>
        requires { IsNamed self.now.clauses id }
        ensures { FindsWatch trail.now.lits (clause_at self.now.clauses id) other result }
    {
        let watched = self.watched.as_slice();
        let clause = self.rows.row(id as usize - 1);
        let begin = begin_within(watched[id as usize - 1].begin, clause.len());
        find_around(trail, clause, begin, other)
    }

    /// Has a clause watch another pair, and begin its next look at an index.
    pub fn set_pair(&mut self, id: u32, pair: Pair, begin: usize)
        requires { IsNamed self.old.clauses id }
        ensures clauses { self.new.clauses ≡ self.old.clauses }
        ensures pairs { self.new.pairs ≡ slice_set self.old.pairs (id - 1) pair }
    {
        let index = id as usize - 1;
        self.watched[index] = Watched {
            pair,
            begin: short_index(begin),
        };
    }

    /// Adds a clause with its pair. After `Memory` nothing has changed.
    pub fn push(&mut self, alloc: Global, clause: &[Lit], pair: Pair) -> Result<(), Memory>
        requires { (l : Lit) → Contains clause.now l → l.var < 2 ^ 31 }
        ensures clauses { OnOk result (self.new.clauses ≡ self.old.clauses ++ clause.now ∷ []) }
        ensures pairs { OnOk result (self.new.pairs ≡ self.old.pairs ++ pair ∷ []) }
        ensures same_clauses { OnErr result (self.new.clauses ≡ self.old.clauses) }
        ensures same_pairs { OnErr result (self.new.pairs ≡ self.old.pairs) }
    {
        let row = packed_all(alloc, clause)?;
        self.watched.reserve(1)?;
        self.rows.push(row.as_slice())?;
        let _ = self.watched.push(Watched { pair, begin: 0 });
        Ok(())
    }
}
