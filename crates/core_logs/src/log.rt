//! The log of a session.

ghost use Rattle.std.specs.Prelude.{◌≡◌, ◌↔◌, ◌<◌, [], ◌∷◌, ◌++◌, IsTrue, OnErr, OnOk, length};

use crate::steps::{CoreSide, CoreStep};
use lists::Memory;
use std::alloc::Global;
use std::marker::Model;

/// How many steps there may be, the steps, and the side clauses. Both are numbered from 1.
#[derive(Drop)]
pub struct CoreLog {
    limit: u64,
    steps: Vec<CoreStep>,
    sides: Vec<CoreSide>,
}

impl Model for CoreLog {
    ghost use Rattle.oracle_face.specs.Logs.{OracleLog};

    ghost Value = { OracleLog };

    ghost view = { λ l. record { limit = l.limit; steps = l.steps.items; sides = l.sides.items } };
}

impl CoreLog {
    /// A log without steps, which takes no memory.
    pub fn new(alloc: Global, limit: u64) -> CoreLog
        ensures { result ≡ record { limit = limit; steps = []; sides = [] } }
    {
        CoreLog {
            limit,
            steps: Vec::new(alloc),
            sides: Vec::new(alloc),
        }
    }

    /// How many steps there may be.
    pub fn limit(&self) -> u64
        ensures { result ≡ self.now.limit }
    {
        self.limit
    }

    /// Whether one step more may come.
    pub fn has_room(&self) -> bool
        ensures { IsTrue result ↔ (length self.now.steps < self.now.limit) }
    {
        (self.steps.len() as u64) < self.limit
    }

    /// The steps.
    pub fn steps(&self) -> &[CoreStep]
        ensures { result.now ≡ self.now.steps }
    {
        self.steps.as_slice()
    }

    /// The side clauses.
    pub fn sides(&self) -> &[CoreSide]
        ensures { result.now ≡ self.now.sides }
    {
        self.sides.as_slice()
    }

    /// Adds a step. After `Memory` the log is as before.
    pub fn push_step(&mut self, step: CoreStep) -> Result<(), Memory>
        ensures ok { OnOk result (self.new ≡ record {
          limit = self.old.limit;
          steps = self.old.steps ++ step ∷ [];
          sides = self.old.sides;
        }) }
        ensures err { OnErr result (self.new ≡ self.old) }
    {
        self.steps.push(step)?;
        Ok(())
    }

    /// Adds a step with its side clause. After `Memory` the log is as before.
    pub fn push_side(&mut self, side: CoreSide, step: CoreStep) -> Result<(), Memory>
        ensures ok { OnOk result (self.new ≡ record {
          limit = self.old.limit;
          steps = self.old.steps ++ step ∷ [];
          sides = self.old.sides ++ side ∷ [];
        }) }
        ensures err { OnErr result (self.new ≡ self.old) }
    {
        self.steps.reserve(1)?;
        self.sides.push(side)?;
        let _ = self.steps.push(step);
        Ok(())
    }
}
