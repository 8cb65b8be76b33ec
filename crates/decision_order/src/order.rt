//! The order of decisions.

ghost use Rattle.std.specs.Prelude.{◌≡◌, ◌<◌, ◌≤◌, IfSome, OnOk, length};

use crate::heap::{sift_down, sift_up};
use lists::Memory;
use plain_lits::Lit;
use std::alloc::Global;
use std::marker::Model;

/// Where a variable stands that isn't in the heap.
const ABSENT: usize = usize::MAX;

/// The step at first. It grows by a twentieth with each conflict, which is as if all activities fell.
const FIRST_STEP: u64 = 1 << 20;

/// Where the step is greater, it and all activities are divided by `2 ^ 36`.
const MAX_STEP: u64 = 1 << 56;

/// The variables that are worth deciding, by activity: how often they stood in the clauses of late conflicts (the
/// rule of Moskewicz and others, Chaff, 2001, with the heap and the growing step of MiniSat, 2003). Each has a phase,
/// the value that it is decided with: its first one, or the one that it had last. All of it is advice, so contracts
/// see no more than the number below which each variable lies.

pub struct DecisionOrder {
    heap: Vec<usize>,
    indices: Vec<usize>,
    activities: Vec<u64>,
    declared: Vec<bool>,
    phases: Vec<bool>,
    initial_phases: Vec<bool>,
    step: u64,
}

// By hand, so that a drop is one call (docs/PROVING.md).
impl Drop for DecisionOrder {
    fn drop(self) {
        let DecisionOrder {
            heap: _,
            indices: _,
            activities: _,
            declared: _,
            phases: _,
            initial_phases: _,
            step: _,
        } = self;
    }
}

impl Model for DecisionOrder {
    ghost use Rattle.std.specs.Prelude.{ℕ, length};
    ghost use Rattle.decision_order.specs.Orders.{IsOrder};

    ghost Value = { ℕ };

    ghost view = { λ o. length o.activities.items };

    ghost invariant = { λ o. IsOrder o.heap.items o.indices.items o.activities.items o.declared.items o.phases.items
        o.initial_phases.items };
}

impl DecisionOrder {
    /// The order of no variables.
    pub fn new(alloc: Global) -> DecisionOrder
        ensures { result ≡ 0 }
    {
        DecisionOrder {
            heap: Vec::new(alloc),
            indices: Vec::new(alloc),
            activities: Vec::new(alloc),
            declared: Vec::new(alloc),
            phases: Vec::new(alloc),
            initial_phases: Vec::new(alloc),
            step: FIRST_STEP,
        }
    }

    /// The number below which each variable lies.
    pub fn vars(&self) -> usize
        ensures { result ≡ self.now }
    {
        self.activities.len()
    }

    /// Makes room for the variables below a number. A new one isn't worth deciding, and its phase is false.
    pub fn make_room(&mut self, vars: usize) -> Result<(), Memory>
        ensures ok { OnOk result (vars ≤ self.new) }
        ensures kept { self.old ≤ self.new }
    {
        if vars <= self.activities.len() {
            return Ok(());
        }
        self.heap.reserve(vars.saturating_sub(self.heap.len()))?;
        self.indices.resize(vars, ABSENT)?;
        self.declared.resize(vars, false)?;
        self.phases.resize(vars, false)?;
        self.initial_phases.resize(vars, false)?;
        self.activities.resize(vars, 0)?;
        Ok(())
    }

    /// Says that a variable is worth deciding, and that its first phase is the literal's sign.
    pub fn declare(&mut self, lit: Lit)
        requires { lit.var < self.old }
        ensures { self.new ≡ self.old }
    {
        self.declared[lit.var] = true;
        self.initial_phases[lit.var] = lit.positive;
        self.phases[lit.var] = lit.positive;
        self.insert(lit.var);
    }

    /// Puts a variable into the heap, where it is worth deciding and isn't there.
    fn insert(&mut self, var: usize)
        requires { var < self.old }
        ensures { self.new ≡ self.old }
    {
        if !self.declared[var] || self.indices[var] != ABSENT {
            return;
        }
        let at = self.heap.len();
        if self.heap.push(var).is_ok() {
            sift_up(&mut self.heap, &mut self.indices, &self.activities, at);
        }
    }

    /// A literal that lost its value: its sign is its variable's phase, and the variable may be decided again.
    pub fn release(&mut self, lit: Lit)
        ensures { self.new ≡ self.old }
    {
        if lit.var >= self.activities.len() {
            return;
        }
        self.phases[lit.var] = lit.positive;
        self.insert(lit.var);
    }

    /// A variable stood in a clause of a conflict.
    pub fn bump(&mut self, var: usize)
        ensures { self.new ≡ self.old }
    {
        if var >= self.activities.len() {
            return;
        }
        let raised = self.activities[var].saturating_add(self.step);
        self.activities[var] = raised;
        let at = self.indices[var];
        if at < self.heap.len() {
            sift_up(&mut self.heap, &mut self.indices, &self.activities, at);
        }
    }

    /// The activity of the variable on the heap's top, which no other in the heap surpasses.
    fn highest(&self) -> u64 {
        match self.heap.as_slice() {
            [top, ..] if *top < self.activities.len() => self.activities[*top],
            _ => 0,
        }
    }

    /// A variable becomes just more active than all that wait to be decided.
    pub fn raise_to_top(&mut self, var: usize)
        ensures { self.new ≡ self.old }
    {
        if var >= self.activities.len() {
            return;
        }
        let raised = self.highest().saturating_add(1);
        self.activities[var] = raised;
        let at = self.indices[var];
        if at < self.heap.len() {
            sift_up(&mut self.heap, &mut self.indices, &self.activities, at);
        }
    }

    /// A conflict is over: later ones count for more.
    pub fn decay(&mut self)
        ensures { self.new ≡ self.old }
    {
        if self.step > MAX_STEP {
            self.rescale();
        }
        self.step = self.step.saturating_add(self.step / 20);
    }

    /// Divides the step and all activities.
    fn rescale(&mut self)
        ensures vars { self.new ≡ self.old }
    {
        for activity in self.activities.iter_mut() {
            *activity >>= 36;
        }
        self.step >>= 36;
    }

    /// Puts the variable that was the heap's last on its top, and gives the one that was there.
    fn replace_top(&mut self, last: usize) -> usize
        requires { last < self.old }
        ensures within { result < self.old }
        ensures kept { self.new ≡ self.old }
    {
        if self.heap.is_empty() {
            return last;
        }
        let top = self.heap[0];
        self.heap[0] = last;
        sift_down(&mut self.heap, &mut self.indices, &self.activities, 0);
        top
    }

    /// Takes the most active variable out of the heap, and gives it with its phase.
    pub fn pop(&mut self) -> Option<Lit>
        ensures within { IfSome result (λ l. l.var < self.old) }
        ensures kept { self.new ≡ self.old }
    {
        let last = self.heap.pop()?;
        let var = self.replace_top(last);
        self.indices[var] = ABSENT;
        Some(Lit {
            var,
            positive: self.phases[var],
        })
    }

    /// The phase of a variable, which is false where it has none.
    pub fn phase(&self, var: usize) -> bool {
        if var >= self.activities.len() {
            return false;
        }
        self.phases[var]
    }

    /// Each phase is the first one again.
    pub fn reset_phases(&mut self)
        ensures { self.new ≡ self.old }
    {
        for var in 0..self.activities.len() {
            self.phases[var] = self.initial_phases[var];
        }
    }
}
