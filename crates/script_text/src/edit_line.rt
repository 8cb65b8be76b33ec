//! Lines that change the framework.

ghost use Rattle.std.specs.Prelude.{◌≡◌, ◌≤◌, ◌⊎◌, ℕ, ◌∷◌, [], map, length, IfOk, IfErr};
ghost use Rattle.script_text.specs.Changes.{change_name, change_of, edit_numbers, Takes};
ghost use Rattle.script_text.specs.ScriptFaults.{IsFirstCause, StandsOnCommand};
ghost use Rattle.script_text.specs.ScriptText.{AreEditFields};
ghost use Rattle.script_text.specs.Steps.{IfWrong};

use crate::arguments::{numbers_of, readings_of};
use crate::edit_word::EditWord;
use crate::fault::{LineStop, ScriptCause};
use edit_rules::Edit;
use lists::{Items, Memory};
use num_text::Fields;
use std::alloc::Global;

/// The edit that a command of this name makes, with these fields behind the name.
pub(crate) fn edit_of(alloc: Global, change: EditWord, fields: Fields<'_>) -> Result<Edit, LineStop>
    ensures edit { IfOk result (AreEditFields (change_name change ∷ map (λ f. f.text) fields.entry)) }
    ensures wrong { IfErr result (λ halt. IfWrong halt
        (IsFirstCause (StandsOnCommand (change_name change ∷ map (λ f. f.text) fields.entry)))) }
{
    let readings = readings_of(alloc, fields)?;
    if !change.takes(readings.len()) {
        return Err(LineStop::Wrong(ScriptCause::BadCommand));
    }
    let Some(numbers) = numbers_of(alloc, readings.as_slice())? else {
        return Err(LineStop::Wrong(ScriptCause::BadNumber));
    };
    Ok(edit_with(alloc, change, numbers.as_slice())?)
}

// The edit that a command makes with these numbers.
fn edit_with(alloc: Global, change: EditWord, numbers: &[u32]) -> Result<Edit, Memory>
    requires { Takes change (length numbers.now) }
    ensures change { IfOk result (λ edit. change_of edit ≡ change) }
    ensures numbers { IfOk result (λ edit. edit_numbers edit ≡ numbers.now) }
{
    Ok(match change {
        EditWord::Arg => Edit::ArgAdd(numbers[0]),
        EditWord::NoArg => Edit::ArgDrop(numbers[0]),
        EditWord::Att => Edit::AttackAdd(numbers[0], numbers[1]),
        EditWord::NoAtt => Edit::AttackDrop(numbers[0], numbers[1]),
        EditWord::Asm => Edit::AsmAdd(numbers[0], numbers[1]),
        EditWord::NoAsm => Edit::AsmDrop(numbers[0]),
        EditWord::Con => Edit::ConSet(numbers[0], numbers[1]),
        EditWord::AddCon => Edit::ConAdd(numbers[0], numbers[1]),
        EditWord::DelCon => Edit::ConDrop(numbers[0], numbers[1]),
        EditWord::Rule => Edit::RuleAdd(numbers[0], copied(alloc, &numbers[1..])?),
        EditWord::NoRule => Edit::RuleDrop(numbers[0]),
    })
}

// The same numbers, as a list of their own.
fn copied(alloc: Global, numbers: &[u32]) -> Result<Items<u32>, Memory>
    ensures { IfOk result (λ copy. copy ≡ numbers.now) }
{
    Ok(Items::from_vec(Vec::from_slice(alloc, numbers)?))
}
