//! The true literals in order, and each variable's value and position in flat arrays.

ghost use Rattle.std.specs.Prelude.{◌≡◌, ◌-◌, ◌<◌, [], ◌∷◌, ◌++◌, length, take, max, Contains, OnOk, OnErr};
ghost use Rattle.std.specs.Prelude.{slice_get};
ghost use Rattle.plain_lits.specs.Values.{IsValueIn};
ghost use Rattle.plain_lits.specs.Trails.{IsAssignmentState};

use crate::lit::Lit;
use crate::value::Value;
use lists::Memory;
use std::alloc::Global;
use std::marker::Model;

/// The true literals in the order in which they came. `values` has the value of each variable, `positions` where
/// its literal stands; there is room in `trail` for a literal of each variable.

pub(crate) struct Assignment {
    trail: Vec<Lit>,
    values: Vec<Value>,
    positions: Vec<usize>,
}

// By hand, so that a drop is one call (docs/PROVING.md).
impl Drop for Assignment {
    fn drop(self) {
        let Assignment {
            trail: _,
            values: _,
            positions: _,
        } = self;
    }
}

impl Model for Assignment {
    ghost use Rattle.std.specs.Prelude.{length, vec_capacity};
    ghost use Rattle.plain_lits.specs.Trails.{AssignmentState};
    ghost use Rattle.plain_lits.specs.TrailArrays.{IsAssignment};

    ghost Value = { AssignmentState };

    ghost view = { λ a. record { lits = a.trail.items; vars = length a.values.items } };

    ghost invariant = { λ a. IsAssignment a.trail.items a.values.items a.positions.items (vec_capacity a.trail) };
}

impl Assignment {
    /// No true literal, and room for none.
    pub(crate) fn new(alloc: Global) -> Assignment
        ensures lits { result.lits ≡ [] }
        ensures vars { result.vars ≡ 0 }
    {
        Assignment {
            trail: Vec::new(alloc),
            values: Vec::new(alloc),
            positions: Vec::new(alloc),
        }
    }

    /// The number below which each variable has room.
    pub(crate) fn vars(&self) -> usize
        ensures vars { result ≡ self.now.vars }
        ensures form { IsAssignmentState self.now }
    {
        self.values.len()
    }

    /// The true literals.
    pub(crate) fn lits(&self) -> &[Lit]
        ensures lits { result.now ≡ self.now.lits }
        ensures form { IsAssignmentState self.now }
    {
        self.trail.as_slice()
    }

    /// The value of a literal.
    pub(crate) fn value(&self, lit: Lit) -> Value
        ensures value { IsValueIn self.now.lits lit result }
        ensures form { IsAssignmentState self.now }
    {
        let values = self.values.as_slice();
        if lit.var >= values.len() {
            return Value::Unset;
        }
        let value = values[lit.var];
        value.for_sign(lit.positive)
    }

    /// The index of a true literal.
    pub(crate) fn position(&self, lit: Lit) -> usize
        requires { Contains self.now.lits lit }
        ensures position { slice_get self.now.lits result ≡ Some lit }
        ensures form { IsAssignmentState self.now }
    {
        let positions = self.positions.as_slice();
        positions[lit.var]
    }

    /// Makes a literal true whose variable has no value.
    pub(crate) fn push(&mut self, lit: Lit)
        requires within { lit.var < self.old.vars }
        requires unset { IsValueIn self.old.lits lit Value.Unset }
        ensures lits { self.new.lits ≡ self.old.lits ++ lit ∷ [] }
        ensures vars { self.new.vars ≡ self.old.vars }
        ensures before { length self.old.lits < self.old.vars }
    {
        let position = self.trail.len();
        let _ = self.trail.push(lit);
        self.values[lit.var] = Value::from_sign(lit.positive);
        self.positions[lit.var] = position;
    }

    /// Takes back the last literal, where there is one.
    pub(crate) fn pop(&mut self)
        ensures lits { self.new.lits ≡ take (length self.old.lits - 1) self.old.lits }
        ensures vars { self.new.vars ≡ self.old.vars }
    {
        if let Some(lit) = self.trail.pop() {
            self.values[lit.var] = Value::Unset;
        }
    }

    /// Takes back all literals but the first `count`.
    pub(crate) fn keep(&mut self, count: usize)
        ensures lits { self.new.lits ≡ take count self.old.lits }
        ensures vars { self.new.vars ≡ self.old.vars }
    {
        while self.lits().len() > count {
            self.pop();
        }
    }

    /// Makes room for the variables below `vars`. After `Memory` nothing has changed.
    pub(crate) fn make_room(&mut self, vars: usize) -> Result<(), Memory>
        ensures lits { self.new.lits ≡ self.old.lits }
        ensures ok { OnOk result (self.new.vars ≡ max vars self.old.vars) }
        ensures err { OnErr result (self.new.vars ≡ self.old.vars) }
    {
        if vars <= self.values.len() {
            return Ok(());
        }
        self.trail.reserve(vars - self.trail.len())?;
        self.positions.resize(vars, 0)?;
        self.values.resize(vars, Value::Unset)?;
        Ok(())
    }
}
