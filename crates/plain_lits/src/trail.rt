//! An assignment of variables by levels, as propagation builds it up and takes it back.

ghost use Rattle.std.specs.Prelude.{◌≡◌, ◌<◌, [], ◌∷◌, ◌++◌, length, take, max, Contains, OnOk, OnErr};
ghost use Rattle.std.specs.Prelude.{slice_get};
ghost use Rattle.plain_lits.specs.Values.{IsValueIn};
ghost use Rattle.plain_lits.specs.Trails.{IsTrailState, level_start};

use crate::assignment::Assignment;
use crate::lit::Lit;
use crate::value::Value;
use lists::Memory;
use std::alloc::Global;
use std::marker::Model;

/// The literals that are true, in the order in which they came, and the levels that they came at. A
/// literal's value and its position take constant time, and so does each literal that is taken back. Room is
/// made for variables beforehand; then `push` and `decide` take no memory. What goes along with the literals,
/// as the reason for each, can be kept in a list beside it, by their positions.
#[derive(Drop)]
pub struct Trail {
    assignment: Assignment,
    starts: Vec<usize>,
}

impl Model for Trail {
    ghost use Rattle.std.specs.Prelude.{length, vec_capacity};
    ghost use Rattle.plain_lits.specs.Trails.{TrailState};
    ghost use Rattle.plain_lits.specs.TrailArrays.{IsTrail};

    ghost Value = { TrailState };

    ghost view = { λ t. record {
      lits = t.assignment.lits;
      starts = t.starts.items;
      vars = t.assignment.vars;
    } };

    ghost invariant = { λ t. IsTrail t.starts.items (length t.assignment.lits) t.assignment.vars (vec_capacity t.starts) };
}

impl Trail {
    /// No true literal, level 0 alone, and room for no variable. It takes no memory.
    pub fn new(alloc: Global) -> Trail
        ensures lits { result.lits ≡ [] }
        ensures starts { result.starts ≡ [] }
        ensures vars { result.vars ≡ 0 }
    {
        Trail {
            assignment: Assignment::new(alloc),
            starts: Vec::new(alloc),
        }
    }

    /// Makes room for the variables below `vars`. After `Memory` the assignment is as before.
    pub fn make_room(&mut self, vars: usize) -> Result<(), Memory>
        ensures lits { self.new.lits ≡ self.old.lits }
        ensures starts { self.new.starts ≡ self.old.starts }
        ensures ok { OnOk result (self.new.vars ≡ max vars self.old.vars) }
        ensures err { OnErr result (self.new.vars ≡ self.old.vars) }
    {
        self.starts.reserve(vars)?;
        self.assignment.make_room(vars)?;
        Ok(())
    }

    /// The number below which each variable has room.
    pub fn vars(&self) -> usize
        ensures vars { result ≡ self.now.vars }
        ensures form { IsTrailState self.now }
    {
        self.assignment.vars()
    }

    /// The value of a literal.
    pub fn value(&self, lit: Lit) -> Value
        ensures value { IsValueIn self.now.lits lit result }
        ensures form { IsTrailState self.now }
    {
        self.assignment.value(lit)
    }

    /// The true literals, in the order in which they came.
    pub fn lits(&self) -> &[Lit]
        ensures lits { result.now ≡ self.now.lits }
        ensures form { IsTrailState self.now }
    {
        self.assignment.lits()
    }

    /// The number of true literals.
    pub fn len(&self) -> usize
        ensures length { result ≡ length self.now.lits }
        ensures form { IsTrailState self.now }
    {
        self.assignment.lits().len()
    }

    /// The index of a true literal among them.
    pub fn position(&self, lit: Lit) -> usize
        requires { Contains self.now.lits lit }
        ensures position { slice_get self.now.lits result ≡ Some lit }
        ensures form { IsTrailState self.now }
    {
        self.assignment.position(lit)
    }

    /// The present level, which is 0 before the first begins.
    pub fn level(&self) -> usize
        ensures level { result ≡ length self.now.starts }
        ensures form { IsTrailState self.now }
    {
        let _count = self.assignment.vars();
        self.starts.len()
    }

    /// For each level from 1 on, how many literals had come before it.
    pub fn starts(&self) -> &[usize]
        ensures starts { result.now ≡ self.now.starts }
        ensures form { IsTrailState self.now }
    {
        let _count = self.assignment.vars();
        self.starts.as_slice()
    }

    /// Makes a literal true at the present level. Its variable has room and no value.
    pub fn push(&mut self, lit: Lit)
        requires within { lit.var < self.old.vars }
        requires unset { IsValueIn self.old.lits lit Value.Unset }
        ensures lits { self.new.lits ≡ self.old.lits ++ lit ∷ [] }
        ensures starts { self.new.starts ≡ self.old.starts }
        ensures vars { self.new.vars ≡ self.old.vars }
    {
        self.assignment.push(lit);
    }

    /// Begins a level with a literal, whose variable has room and no value.
    pub fn decide(&mut self, lit: Lit)
        requires within { lit.var < self.old.vars }
        requires unset { IsValueIn self.old.lits lit Value.Unset }
        ensures lits { self.new.lits ≡ self.old.lits ++ lit ∷ [] }
        ensures starts { self.new.starts ≡ self.old.starts ++ length self.old.lits ∷ [] }
        ensures vars { self.new.vars ≡ self.old.vars }
    {
        let count = self.assignment.lits().len();
        self.assignment.push(lit);
        let _ = self.starts.push(count);
    }

    /// Begins a level without a literal. After `Memory` the assignment is as before.
    pub fn begin_level(&mut self) -> Result<(), Memory>
        ensures lits { self.new.lits ≡ self.old.lits }
        ensures vars { self.new.vars ≡ self.old.vars }
        ensures ok { OnOk result (self.new.starts ≡ self.old.starts ++ length self.old.lits ∷ []) }
        ensures err { OnErr result (self.new.starts ≡ self.old.starts) }
    {
        let more = self.assignment.vars() + 1;
        self.starts.reserve(more)?;
        let count = self.assignment.lits().len();
        self.starts.push(count)?;
        Ok(())
    }

    /// Takes back every literal and every level.
    pub fn clear(&mut self)
        ensures lits { self.new.lits ≡ [] }
        ensures starts { self.new.starts ≡ [] }
        ensures vars { self.new.vars ≡ self.old.vars }
    {
        self.assignment.keep(0);
        self.starts.truncate(0);
    }

    /// Takes back each level above `level`, with its literals.
    pub fn back_to(&mut self, level: usize)
        ensures lits { self.new.lits ≡ take (level_start self.old level) self.old.lits }
        ensures starts { self.new.starts ≡ take level self.old.starts }
        ensures vars { self.new.vars ≡ self.old.vars }
    {
        let starts = self.starts.as_slice();
        if level >= starts.len() {
            return;
        }
        let count = starts[level];
        self.assignment.keep(count);
        self.starts.truncate(level);
    }
}
