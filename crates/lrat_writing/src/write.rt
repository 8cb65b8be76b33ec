//! Writing a log as two texts.

ghost use Rattle.std.specs.Prelude.{◌≡◌, ◌<◌, ◌≤◌, [], length, Ok, IfOk, OnOk};
ghost use Rattle.num_text.specs.declared.limit.TheConstants.{MAX_INPUT};
ghost use Rattle.plain_lits.specs.Checking.{HaveRoomFor};
ghost use Rattle.plain_lits.specs.Literals.{LitsRise};
ghost use Rattle.hinted_log.specs.Logs.{clauses_of};
ghost use Rattle.lrat_text.specs.CnfText.{IsCnfText};
ghost use Rattle.lrat_text.specs.LratText.{IsChecked};
ghost use Rattle.lrat_text.specs.declared.cnf.TheConstants.{MAX_VARIABLE};
ghost use Rattle.lrat_text.specs.declared.verdict.Verdict.TheVariants.{Verified};
ghost use Rattle.lrat_writing.specs.Texts.{cnf_text, lrat_text};
ghost use Rattle.lrat_writing.specs.Walks.{cnf_clauses, formula_of, last_clause, step_lines};
ghost use Rattle.lrat_writing.specs.Writers.{AreTextsOf, IsWriterOf};

use crate::clauses::clause_count;
use crate::writer::{Writer, Written};
use hinted_log::Log;
use lists::Memory;
use plain_lits::StepId;
use std::alloc::Global;

// Writes the steps of a log.
fn push_log(writer: &mut Writer, log: &Log) -> Result<(), Memory>
    requires none { IsWriterOf [] writer.old }
    requires count { writer.old.count < 9223372036854775808 }
    ensures steps { OnOk result (IsWriterOf log.now.steps writer.new) }
    ensures count { OnOk result (writer.new.count ≡ writer.old.count) }
{
    for index in 0..log.len() {
        let step = StepId::new(index as u32 + 1);
        writer.push(log.kind(step), log.clause(step), log.hints(step))?;
    }
    Ok(())
}

// Writes a log.
fn write_log(alloc: Global, log: &Log, vars: u32) -> Result<Written, Memory>
    requires { 0 < length log.now.steps }
    ensures { IfOk result (AreTextsOf vars log.now.steps) }
{
    let last = StepId::new(log.len() as u32);
    let mut writer = Writer::new(alloc, clause_count(log) as u64);
    push_log(&mut writer, log)?;
    let written = writer.finish(alloc, vars, log.clause(last))?;
    Ok(written)
}

/// The texts that stand for a log whose last clause follows from the clauses that are given: a CNF of `vars` variables,
/// of which that of the log's variable v is v + 1, and a refutation of it. The clauses are those of axioms and sides in
/// order, and then for each literal of the last clause its negation. The lines are the derived steps, each with the hints
/// that its check looked at, and the line without literals, whose hints are those negations and then the last step. Where
/// the CNF is no longer than a text may be, it reads as these clauses; and where its refutation is not either, the check
/// tells [`lrat_text::Verdict::Verified`]. `Memory` says that an allocation was refused.
pub fn write_refutation(alloc: Global, log: &Log, vars: u32) -> Result<Written, Memory>
    requires some { 0 < length log.now.steps }
    requires room { HaveRoomFor vars (clauses_of log.now.steps) }
    requires few { vars ≤ MAX_VARIABLE }
    requires rises { LitsRise (last_clause log.now.steps) }
    ensures cnf { IfOk result (λ w. w.cnf ≡ cnf_text (formula_of vars log.now.steps)) }
    ensures lrat { IfOk result (λ w. w.lrat ≡ lrat_text (step_lines log.now.steps)) }
    ensures clauses { IfOk result (λ w. w.clauses ≡ length (cnf_clauses log.now.steps)) }
    ensures lines { IfOk result (λ w. w.lines ≡ length (step_lines log.now.steps)) }
    ensures reads { IfOk result (λ w. length w.cnf ≤ MAX_INPUT → IsCnfText w.cnf (formula_of vars log.now.steps)) }
    ensures verified { IfOk result (λ w. length w.cnf ≤ MAX_INPUT
        → IsChecked (formula_of vars log.now.steps) w.lrat (Ok Verified)) }
{
    let _count = log.len();
    let written = write_log(alloc, log, vars)?;
    Ok(written)
}
