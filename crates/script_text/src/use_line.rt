//! Lines that put a session on a framework.

ghost use Rattle.std.specs.Prelude.{◌≡◌, ℕ, List, ◌∷◌, codes, map, IfOk, IfErr};
ghost use Rattle.std.specs.List.{AllZip};
ghost use Rattle.num_text.specs.Numerals.{IsReadNumber};
ghost use Rattle.script_text.specs.ScriptFaults.{IsFirstCause, StandsOnCommand};
ghost use Rattle.script_text.specs.ScriptText.{AreUseFields};
ghost use Rattle.script_text.specs.Steps.{IfWrong};

use crate::arguments::readings_of;
use crate::fault::{LineStop, ScriptCause};
use num_text::Fields;
use std::alloc::Global;

/// The number of the framework that the fields behind `use` name.
pub(crate) fn framework_of(alloc: Global, fields: Fields<'_>) -> Result<u32, LineStop>
    ensures framework { IfOk result (AreUseFields (codes "use" ∷ map (λ f. f.text) fields.entry)) }
    ensures wrong { IfErr result (λ halt. IfWrong halt
        (IsFirstCause (StandsOnCommand (codes "use" ∷ map (λ f. f.text) fields.entry)))) }
{
    let readings = readings_of(alloc, fields)?;
    Ok(framework_by(readings.as_slice())?)
}

// The number, by what the fields behind `use` spell.
fn framework_by(readings: &[Option<u32>]) -> Result<u32, ScriptCause>
    ensures framework { (texts : List (List ℕ)) → AllZip IsReadNumber texts readings.now
        → IfOk result (AreUseFields (codes "use" ∷ texts)) }
    ensures wrong { (texts : List (List ℕ)) → AllZip IsReadNumber texts readings.now
        → IfErr result (IsFirstCause (StandsOnCommand (codes "use" ∷ texts))) }
{
    if readings.len() != 1 {
        return Err(ScriptCause::BadCommand);
    }
    match readings[0] {
        Some(framework) => Ok(framework),
        None => Err(ScriptCause::BadNumber),
    }
}
