//! Clauses over variables that all have room.

ghost use Rattle.std.specs.Prelude.{◌≡◌, ◌≤◌, IfOk, OnOk};
ghost use Rattle.plain_lits.specs.Checking.{IsPackable};
ghost use Rattle.lrat_text.specs.declared.cnf.TheConstants.{MAX_VARIABLE};
ghost use Rattle.lrat_text.specs.CnfText.{AreWithin, formula};
ghost use Rattle.lrat_text.specs.Tables.{IsBelow, Takes};

use lists::Memory;
use plain_lits::check::check;
use plain_lits::{Lit, PackedLit, Rows, StepId, Trail};
use std::alloc::Global;
use std::marker::Model;

/// Clauses, and room for each variable up to a number, whether it occurs or not. A step costs the literals of its
/// clause and of those that its hints name.
pub(crate) struct Plain {
    vars: u32,
    rows: Rows<PackedLit>,
    trail: Trail,
    packed: Vec<PackedLit>,
}

// By hand, so that a drop is one call (docs/PROVING.md).
impl Drop for Plain {
    fn drop(self) {
        let Plain {
            vars: _,
            rows: _,
            trail: _,
            packed: _,
        } = self;
    }
}

impl Model for Plain {
    ghost use Rattle.lrat_text.specs.CnfText.{Formula, formula};
    ghost use Rattle.lrat_text.specs.Tables.{IsPlain};

    ghost Value = { Formula };

    ghost view = { λ p. formula p.vars p.rows };

    ghost invariant = { λ p. IsPlain p.vars p.rows p.trail.lits p.trail.vars };
}

// Packs the literals of a clause, in place of those that the list has.
fn pack_into(packed: &mut Vec<PackedLit>, clause: &[Lit]) -> Result<(), Memory>
    requires { IsPackable clause.now }
    ensures { OnOk result (packed.new.items ≡ clause.now) }
{
    packed.clear();
    for lit in clause {
        packed.push(PackedLit::pack(*lit))?;
    }
    Ok(())
}

impl Plain {
    /// These clauses. It takes the memory of all variables up to the number.
    pub(crate) fn new(alloc: Global, vars: u32, rows: Rows<PackedLit>) -> Result<Plain, Memory>
        requires few { vars ≤ MAX_VARIABLE }
        requires within { AreWithin vars rows }
        ensures { IfOk result (λ p. p ≡ formula vars rows) }
    {
        let mut trail = Trail::new(alloc);
        trail.make_room(vars as usize + 1)?;
        Ok(Plain {
            vars,
            rows,
            trail,
            packed: Vec::new(alloc),
        })
    }

    /// The number up to which there are variables.
    pub(crate) fn vars(&self) -> u32
        ensures { result ≡ self.now.vars }
    {
        self.vars
    }

    /// Adds a clause if the check of its hints takes it, and answers whether it does.
    pub(crate) fn derive(&mut self, clause: &[Lit], hints: &[StepId]) -> Result<bool, Memory>
        requires { IsBelow self.old.vars clause.now }
        ensures { IfOk result (Takes self.old clause.now hints.now self.new) }
    {
        match check(&mut self.trail, &self.rows, clause, hints) {
            Err(_) => Ok(false),
            Ok(_) => {
                pack_into(&mut self.packed, clause)?;
                self.rows.push(self.packed.as_slice())?;
                Ok(true)
            }
        }
    }
}
