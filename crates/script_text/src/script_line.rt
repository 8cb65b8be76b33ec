//! What a single line says.

ghost use Rattle.std.specs.Prelude.{◌≡◌, ◌∷◌, [], ℕ, List, map, IfOk, IfErr, OnOk};
ghost use Rattle.num_text.specs.Cuts.{field_texts};
ghost use Rattle.script_text.specs.ScriptFaults.{BeginWithSession, IsFirstCause, StandsOn, StandsOnCommand};
ghost use Rattle.script_text.specs.ScriptText.{AreCommandFields, IsTextLine};
ghost use Rattle.script_text.specs.Steps.{IfWrong, TakesSession};

use crate::arguments::next_text;
use crate::ask::query_of;
use crate::edit_line::edit_of;
use crate::edit_word::EditWord;
use crate::fault::{LineStop, ScriptCause};
use crate::script::MAX_SESSIONS;
use crate::text_line::{LineCommand, TextLine};
use crate::use_line::framework_of;
use num_text::{Fields, Line, fields};
use std::alloc::Global;

/// What the line says.
pub(crate) fn line_of(alloc: Global, line: &Line<'_>) -> Result<TextLine, LineStop>
    ensures line { IfOk result (IsTextLine line.now.text.now) }
    ensures wrong { IfErr result (λ halt. IfWrong halt (IsFirstCause (StandsOn (field_texts line.now.text.now)))) }
{
    let mut parts = fields(line);
    let session = session_of(&mut parts)?;
    let command = command_of(alloc, parts)?;
    Ok(TextLine { session, command })
}

/// The session that the first field names; the others are left.
pub(crate) fn session_of(parts: &mut Fields<'_>) -> Result<u32, ScriptCause>
    ensures session { IfOk result (λ session.
        TakesSession (map (λ f. f.text) parts.old) session (map (λ f. f.text) parts.new)) }
    ensures wrong { IfErr result (λ cause.
        (cause ≡ ScriptCause.BadSession) × ¬ BeginWithSession (map (λ f. f.text) parts.old)) }
{
    let first = parts.next_number().ok_or(ScriptCause::BadSession)?;
    let session = first.number.ok_or(ScriptCause::BadSession)?;
    if session < 1 || session > MAX_SESSIONS {
        return Err(ScriptCause::BadSession);
    }
    Ok(session)
}

// The command that the fields behind the session's number are.
fn command_of(alloc: Global, mut parts: Fields<'_>) -> Result<LineCommand, LineStop>
    ensures command { IfOk result (AreCommandFields (map (λ f. f.text) parts.entry)) }
    ensures wrong { IfErr result (λ halt.
        IfWrong halt (IsFirstCause (StandsOnCommand (map (λ f. f.text) parts.entry)))) }
{
    let name = next_text(&mut parts).ok_or(ScriptCause::BadCommand)?;
    if name == "ask".as_bytes() {
        return Ok(LineCommand::Ask(query_of(alloc, parts)?));
    }
    if name == "begin".as_bytes() {
        nothing_left(&mut parts)?;
        return Ok(LineCommand::Begin);
    }
    if name == "end".as_bytes() {
        nothing_left(&mut parts)?;
        return Ok(LineCommand::End);
    }
    if name == "use".as_bytes() {
        return Ok(LineCommand::Use(framework_of(alloc, parts)?));
    }
    let change = EditWord::read(name).ok_or(ScriptCause::BadCommand)?;
    Ok(LineCommand::Edit(edit_of(alloc, change, parts)?))
}

// Refuses a field that is left.
fn nothing_left(parts: &mut Fields<'_>) -> Result<(), ScriptCause>
    ensures none { OnOk result (map (λ f. f.text) parts.old ≡ []) }
    ensures wrong { IfErr result (λ cause. (cause ≡ ScriptCause.BadCommand)
        × ((text : List ℕ) × (more : List (List ℕ)) × (map (λ f. f.text) parts.old ≡ text ∷ more))) }
{
    match next_text(parts) {
        Some(_) => Err(ScriptCause::BadCommand),
        None => Ok(()),
    }
}
