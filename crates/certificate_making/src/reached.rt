//! Marks of the steps that a step reaches.

ghost use Rattle.std.specs.Prelude.{◌<◌, ℕ, length, Contains, IfOk};
ghost use Rattle.oracle_face.specs.Logs.{IsLog, IsNumberOf};
ghost use Rattle.certificate_making.specs.Marks.{AreMarks, MarksHints};

use crate::read_log::ReadLog;
use lists::Memory;
use plain_lits::StepId;
use std::alloc::Global;

/// Marks each hint.
fn mark_hints(marks: &mut Vec<u32>, hints: &[StepId])
    requires { (hint : ℕ) → Contains hints.now hint → hint < length marks.old.items }
    ensures { MarksHints hints.now marks.old.items marks.new.items }
{
    for hint in hints {
        marks[hint.number() as usize] = 1;
    }
}

/// For each number up to a step a 1 where the step reaches that one, and a 0 elsewhere. Hints name earlier steps, so
/// that one walk down the numbers finds all.
pub(crate) fn mark_reached<L: ReadLog>(
    alloc: Global,
    log: &L,
    step: StepId,
) -> Result<Vec<u32>, Memory>
    requires form { IsLog (L.framework log.now) (L.log log.now) }
    requires step { IsNumberOf (L.log log.now).steps step }
    ensures { IfOk result (λ marks. AreMarks (L.log log.now) step marks.items) }
{
    let last = step.number() as usize;
    let mut marks = Vec::new(alloc);
    marks.resize(last + 1, 0)?;
    marks[last] = 1;
    for down in 0..last {
        let number = last - down;
        let mark = marks.as_slice()[number];
        if mark != 0 {
            mark_hints(&mut marks, log.hints(StepId::new(number as u32)));
        }
    }
    Ok(marks)
}
