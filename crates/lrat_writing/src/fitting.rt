//! Whether a log can be written.

ghost use Rattle.std.specs.Prelude.{◌≡◌, ◌<◌, ◌≤◌, ◌-◌, length, slice_index_or};
ghost use Rattle.std.specs.Bool.{OnTrue};
ghost use Rattle.plain_lits.specs.Checking.{HasRoomFor, HaveRoomFor};
ghost use Rattle.plain_lits.specs.Literals.{IsLitBefore, LitsRise};
ghost use Rattle.hinted_log.specs.Logs.{clauses_of};
ghost use Rattle.lrat_text.specs.declared.cnf.TheConstants.{MAX_VARIABLE};
ghost use Rattle.lrat_writing.specs.Walks.{last_clause};

use hinted_log::Log;
use lrat_text::MAX_VARIABLE;
use plain_lits::{Lit, PackedLit, StepId};

// Whether the variables of a clause are below this number.
fn has_room(clause: &[PackedLit], vars: u32) -> bool
    ensures { OnTrue result (HasRoomFor vars clause.now) }
{
    for packed in clause {
        if packed.lit().var >= vars as usize {
            return false;
        }
    }
    true
}

// Whether the variables of a log are.
fn have_room(log: &Log, vars: u32) -> bool
    ensures { OnTrue result (HaveRoomFor vars (clauses_of log.now.steps)) }
{
    for index in 0..log.len() {
        if !has_room(log.clause(StepId::new(index as u32 + 1)), vars) {
            return false;
        }
    }
    true
}

// Whether the one literal comes before the other.
fn is_before(a: Lit, b: Lit) -> bool
    ensures { OnTrue result (IsLitBefore a b) }
{
    if a.var < b.var {
        return true;
    }
    if a.var > b.var {
        return false;
    }
    if a.positive {
        return false;
    }
    b.positive
}

// Whether each literal of a clause comes before the next.
fn rises(clause: &[PackedLit]) -> bool
    ensures { OnTrue result (LitsRise clause.now) }
{
    for index in 1..clause.len() {
        if !is_before(clause[index - 1].lit(), clause[index].lit()) {
            return false;
        }
    }
    true
}

/// Whether a log can be written with so many variables: it has a step, its variables are below that number, which is at
/// most [`lrat_text::MAX_VARIABLE`], and the literals of its last clause are in order.
pub fn can_write(log: &Log, vars: u32) -> bool
    ensures some { OnTrue result (0 < length log.now.steps) }
    ensures room { OnTrue result (HaveRoomFor vars (clauses_of log.now.steps)) }
    ensures few { OnTrue result (vars ≤ MAX_VARIABLE) }
    ensures rises { OnTrue result (LitsRise (last_clause log.now.steps)) }
{
    let count = log.len();
    if count == 0 {
        return false;
    }
    if vars > MAX_VARIABLE {
        return false;
    }
    if !have_room(log, vars) {
        return false;
    }
    rises(log.clause(StepId::new(count as u32)))
}
