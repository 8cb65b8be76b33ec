//! The steps that have passed the hint check.

ghost use Rattle.std.specs.Prelude.{◌≡◌, ℕ, ◌<◌, [], ◌++◌, length, map, IfOk};
ghost use Rattle.std.specs.List.{range_with_len};
ghost use Rattle.lrat_text.specs.Checking.{AreIds, TakenAs, IsLast, step_line, check_state, number_of};
ghost use Rattle.lrat_text.specs.Tables.{IsBelow, Takes};
ghost use Rattle.lrat_text.specs.TableFormula.{formula_of};

use crate::cnf::Cnf;
use crate::ids::name_hints;
use crate::lrat_line::StepText;
use crate::table::Table;
use lists::Memory;
use plain_lits::StepId;
use std::alloc::Global;
use std::marker::Model;

/// What a line of a refutation comes to.
#[derive(Clone, Copy)]
pub(crate) enum Taken {
    /// It fails the hint check.
    Failed,
    /// It passes, and has a literal.
    Passed,
    /// It passes, and has no literal.
    Empty,
}

/// The clauses of a CNF, and behind them those of the lines that passed. Each line is checked over all of them, and
/// costs the literals of its own clause and of those that its hints name. All take the memory of their texts, however
/// many variables the CNF's header tells.
pub(crate) struct Steps {
    count: u32,
    ids: Vec<u32>,
    table: Table,
    named: Vec<StepId>,
}

// By hand, so that a drop is one call (docs/PROVING.md).
impl Drop for Steps {
    fn drop(self) {
        let Steps {
            count: _,
            ids: _,
            table: _,
            named: _,
        } = self;
    }
}

impl Model for Steps {
    ghost use Rattle.lrat_text.specs.Checking.{AreIds, CheckState};
    ghost use Rattle.lrat_text.specs.TableFormula.{formula_of};
    ghost use Rattle.lrat_text.specs.Tables.{state_of};

    ghost Value = { CheckState };

    ghost view = { λ s. state_of s.count s.ids.items (formula_of s.table) };

    ghost invariant = { λ s. AreIds s.count s.ids.items };
}

// Whether variables are so few, beside clauses and the bytes of a refutation, that each can have room.
fn are_few(vars: u32, clauses: usize, bytes: usize) -> bool {
    vars as usize <= clauses.saturating_add(bytes / 8)
}

// Whether a line passes the check, beside the steps that have these ids behind those of the CNF's clauses. Its clause is
// added then. The list is filled anew.
fn check_line(
    ids: &[u32],
    count: u32,
    line: &StepText,
    table: &mut Table,
    named: &mut Vec<StepId>,
) -> Result<bool, Memory>
    requires ids { AreIds count ids.now }
    requires within { IsBelow (formula_of table.old).vars line.now.literals.items }
    ensures { IfOk result (Takes (formula_of table.old) line.now.literals.items
        (map (number_of (range_with_len 1 count ++ ids.now)) line.now.hints.items) (formula_of table.new)) }
{
    name_hints(ids, count, line.hints.as_slice(), named)?;
    let passes = table.derive(line.literals.as_slice(), named.as_slice())?;
    Ok(passes)
}

impl Steps {
    /// The clauses of a CNF, for a refutation of so many bytes.
    pub(crate) fn new(alloc: Global, cnf: Cnf, bytes: usize) -> Result<Steps, Memory>
        ensures { IfOk result (λ s. s ≡ check_state cnf.vars (length cnf.clauses) [] cnf.clauses) }
    {
        let (vars, clauses) = cnf.into_parts();
        let count = clauses.len();
        let table = Table::new(alloc, vars, clauses, are_few(vars, count, bytes))?;
        Ok(Steps {
            count: count as u32,
            ids: Vec::new(alloc),
            table,
            named: Vec::new(alloc),
        })
    }

    /// How many variables there are.
    pub(crate) fn vars(&self) -> u32
        ensures { result ≡ self.now.vars }
    {
        self.table.vars()
    }

    /// The number of the CNF's clauses.
    pub(crate) fn count(&self) -> u32
        ensures { result ≡ self.now.count }
    {
        self.count
    }

    /// Checks a line, and adds its clause where it passes. After `Memory` the clauses are lost.
    pub(crate) fn take(&mut self, id: u32, line: &StepText) -> Result<Taken, Memory>
        requires last { (last : ℕ) × IsLast last self.old × (last < id) }
        requires within { IsBelow self.old.vars line.now.literals.items }
        ensures { IfOk result
            (TakenAs self.old self.new (step_line id line.now.literals.items line.now.hints.items)) }
    {
        let passes = check_line(
            self.ids.as_slice(),
            self.count,
            line,
            &mut self.table,
            &mut self.named,
        )?;
        if !passes {
            return Ok(Taken::Failed);
        }
        self.ids.push(id)?;
        if line.literals.is_empty() {
            return Ok(Taken::Empty);
        }
        Ok(Taken::Passed)
    }
}
