//! Lines that ask.

ghost use Rattle.std.specs.Prelude.{◌≡◌, ◌≤◌, ℕ, List, ◌∷◌, [], codes, map, length, IfOk, IfErr, IfSome, IfNone};
ghost use Rattle.std.specs.List.{AllZip};
ghost use Rattle.num_text.specs.Number.{IsNumber};
ghost use Rattle.num_text.specs.Numerals.{IsReadNumber};
ghost use Rattle.script_text.specs.ScriptFaults.{HaveNoNumber, IsFirstCause, StandsOnCommand};
ghost use Rattle.script_text.specs.ScriptText.{AreAskFields, asked_numbers};
ghost use Rattle.script_text.specs.Steps.{IfWrong};

use crate::arguments::{next_text, readings_of};
use crate::fault::{LineStop, ScriptCause};
use iccma_tasks::{Query, Task};
use num_text::Fields;
use std::alloc::Global;

/// The query that the fields behind `ask` spell.
pub(crate) fn query_of(alloc: Global, mut fields: Fields<'_>) -> Result<Query, LineStop>
    ensures query { IfOk result (AreAskFields (codes "ask" ∷ map (λ f. f.text) fields.entry)) }
    ensures wrong { IfErr result (λ halt. IfWrong halt
        (IsFirstCause (StandsOnCommand (codes "ask" ∷ map (λ f. f.text) fields.entry)))) }
{
    let name = next_text(&mut fields).ok_or(ScriptCause::BadCommand)?;
    let readings = readings_of(alloc, fields)?;
    Ok(query_about(name, readings.as_slice())?)
}

// The query of a task's name and of what the fields behind it spell.
fn query_about(name: &[u8], readings: &[Option<u32>]) -> Result<Query, ScriptCause>
    ensures query { (texts : List (List ℕ)) → AllZip IsReadNumber texts readings.now
        → IfOk result (AreAskFields (codes "ask" ∷ name.now ∷ texts)) }
    ensures wrong { (texts : List (List ℕ)) → AllZip IsReadNumber texts readings.now
        → IfErr result (IsFirstCause (StandsOnCommand (codes "ask" ∷ name.now ∷ texts))) }
{
    if readings.len() > 1 {
        return Err(ScriptCause::BadCommand);
    }
    let Ok(task) = Task::read(name) else {
        return Err(ScriptCause::BadTask);
    };
    let number = number_of(readings)?;
    match Query::new(task, number) {
        Some(query) => Ok(query),
        None => Err(ScriptCause::BadQuery),
    }
}

// The number that at most one field spells.
fn number_of(readings: &[Option<u32>]) -> Result<Option<u32>, ScriptCause>
    requires { length readings.now ≤ 1 }
    ensures number { IfOk result (λ number. (texts : List (List ℕ)) → AllZip IsReadNumber texts readings.now
        → AllZip IsNumber texts (asked_numbers number)) }
    ensures wrong { IfErr result (λ cause. (cause ≡ ScriptCause.BadNumber)
        × ((texts : List (List ℕ)) → AllZip IsReadNumber texts readings.now → HaveNoNumber texts)) }
{
    if readings.is_empty() {
        return Ok(None);
    }
    match readings[0] {
        Some(number) => Ok(Some(number)),
        None => Err(ScriptCause::BadNumber),
    }
}
