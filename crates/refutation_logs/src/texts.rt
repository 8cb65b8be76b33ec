//! The steps of a refutation as two texts.

ghost use Rattle.std.specs.Prelude.{◌≡◌, ◌<◌, ◌≤◌, ◌+◌, List, length, IfOk};
ghost use Rattle.edit_rules.specs.Kinds.{framework_of};
ghost use Rattle.answer_claims.specs.SideClauses.{sides_of};
ghost use Rattle.atom_table.specs.Numbering.{AreDifferent};
ghost use Rattle.hinted_log.specs.Logs.{Step as LogStep, clauses_of};
ghost use Rattle.lrat_text.specs.declared.cnf.TheConstants.{MAX_VARIABLE};
ghost use Rattle.lrat_writing.specs.Walks.{cnf_clauses};
ghost use Rattle.lrat_writing.specs.Writers.{AreTextsOf, IsWriterOf};
ghost use Rattle.refutation_logs.specs.Logged.{AllHold};
ghost use Rattle.refutation_logs.specs.Exports.{IsExportOf};

use crate::counts::clause_count;
use crate::steps::{Table, add_steps, new_table};
use answer_claims::SideKind;
use certificate_claims::Step;
use edit_rules::Framework;
use hinted_log::MAX_STEPS;
use lists::Memory;
use lrat_text::MAX_VARIABLE;
use lrat_writing::{Writer, Written};
use set_lists::NumSet;
use std::alloc::Global;

/// A refutation as a CNF and LRAT lines.
pub struct Exported {
    /// How many variables there are.
    pub vars: usize,
    /// The texts, and how many clauses and lines there are.
    pub written: Written,
}

// By hand, so that a drop is one call (docs/PROVING.md).
impl Drop for Exported {
    fn drop(self) {
        let Exported {
            vars: _,
            written: _,
        } = self;
    }
}

// The texts of steps that are written, of which the last is at an index.
fn write_table(
    alloc: Global,
    table: &Table,
    writer: Writer,
    index: usize,
) -> Result<Exported, Memory>
    requires index { index < length table.now.clauses }
    requires few { writer.given + writer.lines < 4294967296 }
    requires count { writer.count < 9223372036854775808 }
    ensures vars { IfOk result (λ e. e.vars ≡ length table.now.atoms) }
    ensures few { IfOk result (λ e. e.vars ≤ MAX_VARIABLE) }
    ensures different { AreDifferent table.now.atoms }
    ensures texts { IfOk result (λ e. (logged : List LogStep) → IsWriterOf logged writer
        → table.now.clauses ≡ clauses_of logged → index + 1 ≡ length logged
        → writer.count ≡ length (cnf_clauses logged) → AreTextsOf e.vars logged e.written) }
{
    let vars = table.atoms.len();
    if vars > MAX_VARIABLE as usize {
        return Err(Memory);
    }
    let last = table.clauses.row(index);
    let written = writer.finish(alloc, vars as u32, last)?;
    Ok(Exported { vars, written })
}

/// The texts of a refutation whose steps stand, beside the side clauses of sets. The CNF has the clauses of axioms and
/// sides in order, and then for each literal of the last step its negation; the lines are the derived steps, each with
/// its hints up to the false one, and one without literals. The variables are the atoms of the steps by first
/// appearance. `Memory` says that an allocation was refused, or that there are more steps than
/// [`hinted_log::MAX_STEPS`] or more atoms than [`lrat_text::MAX_VARIABLE`].
pub(crate) fn export_steps(
    alloc: Global,
    framework: &Framework,
    kind: SideKind,
    sets: &[NumSet],
    steps: &[Step],
) -> Result<Exported, Memory>
    requires some { 0 < length steps.now }
    requires hold { AllHold (framework_of framework.now)
        (sides_of (framework_of framework.now) kind sets.now) steps.now }
    ensures { IfOk result (IsExportOf (sides_of (framework_of framework.now) kind sets.now) steps.now) }
{
    if steps.len() as u64 > MAX_STEPS {
        return Err(Memory);
    }
    let last = steps.len() - 1;
    let count = clause_count(alloc, framework, kind, sets, steps, &steps[last])?;
    let mut table = new_table(alloc);
    let mut writer = Writer::new(alloc, count);
    add_steps(alloc, framework, kind, sets, steps, &mut table, &mut writer)?;
    let exported = write_table(alloc, &table, writer, last)?;
    Ok(exported)
}
