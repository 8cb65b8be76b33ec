//! The table of clauses.

ghost use Rattle.std.specs.Prelude.{◌≡◌, ◌≤◌, IfOk};
ghost use Rattle.lrat_text.specs.declared.cnf.TheConstants.{MAX_VARIABLE};
ghost use Rattle.lrat_text.specs.CnfText.{AreWithin, formula};
ghost use Rattle.lrat_text.specs.Tables.{IsBelow, Takes};
ghost use Rattle.lrat_text.specs.TableFormula.{formula_of};

use crate::plain::Plain;
use crate::spelled::Spelled;
use lists::Memory;
use plain_lits::{Lit, PackedLit, Rows, StepId};
use std::alloc::Global;

/// Clauses over variables up to some number, to which the check of hints adds.
#[derive(Drop)]
pub(crate) enum Table {
    /// Where each variable has room.
    Plain(Plain),
    /// Where a variable gets room as it first occurs.
    Spelled(Spelled),
}

impl Table {
    /// These clauses, with room for each variable or for those that occur.
    pub(crate) fn new(
        alloc: Global,
        vars: u32,
        rows: Rows<PackedLit>,
        is_plain: bool,
    ) -> Result<Table, Memory>
        requires few { vars ≤ MAX_VARIABLE }
        requires within { AreWithin vars rows }
        ensures { IfOk result (λ t. formula_of t ≡ formula vars rows) }
    {
        if is_plain {
            let plain = Plain::new(alloc, vars, rows)?;
            return Ok(Table::Plain(plain));
        }
        let spelled = Spelled::new(alloc, vars, &rows)?;
        Ok(Table::Spelled(spelled))
    }

    /// The number up to which there are variables.
    pub(crate) fn vars(&self) -> u32
        ensures { result ≡ (formula_of self.now).vars }
    {
        match self {
            Table::Plain(plain) => plain.vars(),
            Table::Spelled(spelled) => spelled.vars(),
        }
    }

    /// Adds a clause if the check of its hints takes it, and answers whether it does.
    pub(crate) fn derive(&mut self, clause: &[Lit], hints: &[StepId]) -> Result<bool, Memory>
        requires { IsBelow (formula_of self.old).vars clause.now }
        ensures { IfOk result (Takes (formula_of self.old) clause.now hints.now (formula_of self.new)) }
    {
        match self {
            Table::Plain(plain) => plain.derive(clause, hints),
            Table::Spelled(spelled) => spelled.derive(clause, hints),
        }
    }
}
