//! The check of a CNF with the text of a refutation.

ghost use Rattle.std.specs.Prelude.{◌≡◌, ◌≤◌, length, Ok, IfOk, IfErr, OnOk};
ghost use Rattle.num_text.specs.declared.limit.TheConstants.{MAX_INPUT};
ghost use Rattle.lrat_text.specs.declared.verdict.Verdict.TheVariants.{Verified};
ghost use Rattle.lrat_text.specs.LratText.{IsChecked, IsJudged, IsFaultOf, AreSomeSteps};
ghost use Rattle.lrat_text.specs.Lines.{lrat_kept};
ghost use Rattle.lrat_text.specs.Checking.{steps_in, IsLast};
ghost use Rattle.lrat_text.specs.Unsatisfiable.{HasNoModel};

use crate::cnf::Cnf;
use crate::fault::LratFault;
use crate::lrat_line::{StepText, read_step};
use crate::skips::next_lrat_line;
use crate::steps::{Steps, Taken};
use crate::verdict::Verdict;
use num_text::{Lines, lines};
use std::alloc::Global;

// Checks line after line, up to the first that fails or has no literals. The lines behind it are left, and its id is
// the last.
fn judge(
    left: &mut Lines<'_>,
    steps: &mut Steps,
    step: &mut StepText,
    last: &mut u32,
) -> Result<Verdict, LratFault>
    requires { IsLast last.old steps.old }
    ensures judged { IfOk result
        (IsJudged steps.old.vars last.old (steps_in steps.old) (lrat_kept left.old) last.new (lrat_kept left.new)) }
    ensures fault { IfErr result (IsFaultOf steps.old.vars last.old (lrat_kept left.old)) }
{
    while let Some(line) = next_lrat_line(left) {
        let id = read_step(&line, steps.vars(), *last, step)?;
        *last = id;
        match steps.take(id, step)? {
            Taken::Passed => {}
            Taken::Failed => return Ok(Verdict::RejectedStep(id)),
            Taken::Empty => return Ok(Verdict::Verified),
        }
    }
    Ok(Verdict::NoEmptyClause)
}

// That the lines that are left have no fault.
fn read_rest(
    mut left: Lines<'_>,
    vars: u32,
    mut last: u32,
    step: &mut StepText,
) -> Result<(), LratFault>
    ensures good { OnOk result (AreSomeSteps vars last (lrat_kept left.entry)) }
    ensures fault { IfErr result (IsFaultOf vars last (lrat_kept left.entry)) }
{
    while let Some(line) = next_lrat_line(&mut left) {
        last = read_step(&line, vars, last, step)?;
    }
    Ok(())
}

/// Checks a refutation of a CNF, line after line. A step is checked by the hints of its line, which name clauses of the
/// CNF by their numbers from 1 on, and earlier lines by their ids.
///
/// `At` tells the first line at which a cause stands, and of the causes that stand there the first in the order of
/// [`crate::LratCause`]; where there is such a line, no check tells more. `Memory` is want of memory, and says nothing of
/// the text.
pub fn check_lrat(alloc: Global, cnf: Cnf, bytes: &[u8]) -> Result<Verdict, LratFault>
    requires { length bytes.now ≤ MAX_INPUT }
    ensures checked { IsChecked cnf bytes.now result }
    ensures sound { result ≡ Ok Verified → HasNoModel cnf.clauses }
{
    let mut left = lines(bytes);
    let mut steps = Steps::new(alloc, cnf, bytes.len())?;
    let mut step = StepText::new(alloc);
    let vars = steps.vars();
    let mut last = steps.count();
    let verdict = judge(&mut left, &mut steps, &mut step, &mut last)?;
    read_rest(left, vars, last, &mut step)?;
    Ok(verdict)
}
