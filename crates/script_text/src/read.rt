//! Reading a script.

ghost use Rattle.std.specs.Prelude.{◌≡◌, ◌↔◌, ℕ, ◌≤◌, ◌+◌, [], length, IfOk, IfErr, IfSome, IfNone, OnOk, IsTrue};
ghost use Rattle.num_text.specs.Cuts.{field_texts, lines_of};
ghost use Rattle.num_text.specs.Lines.{kept};
ghost use Rattle.script_text.specs.declared.fault.ScriptCause.{ScriptCause as ACause};
ghost use Rattle.script_text.specs.declared.script.Script.{Script as ScriptValue};
ghost use Rattle.script_text.specs.Groups.{all_unbegun};
ghost use Rattle.script_text.specs.ScriptFaults.{IsFaultless, IsMisplacedName, IsToldOf};
ghost use Rattle.script_text.specs.ScriptText.{IsScript, IsTextLine};
ghost use Rattle.script_text.specs.Steps.{AreRead, BreaksAt, BreaksIn, BreaksLimit, FitsIn, IfWrong, IsFirstIn};
ghost use Rattle.script_text.specs.Steps.{IsMisplacedIn, IsStrayIn, StopsAt, TellsNext, places_of};
ghost use Rattle.script_text.specs.Uses.{AreAmong, IsAmong, use_of, used_at};

use crate::arguments::next_text;
use crate::fault::{LineStop, ScriptCause, ScriptFault};
use crate::open_groups::{OpenGroups, Place};
use crate::script::{MAX_SESSIONS, Script};
use crate::script_line::{line_of, session_of};
use crate::text_line::{LineCommand, TextLine};
use edit_rules::MAX_GROUP;
use lists::Items;
use num_text::{Line, Lines, fields, lines, next_kept};
use std::alloc::Global;

/// The script that the bytes spell, for so many frameworks.
///
/// `At` tells the first line at which a cause stands, and of the causes that stand there the first in the order of
/// [`ScriptCause`](crate::ScriptCause). Whether a number fits the framework, and whether an edit is one of its kind, is
/// not looked at here. `Memory` says that an allocation was refused.
pub fn read_script(alloc: Global, bytes: &[u8], frameworks: u32) -> Result<Script, ScriptFault>
    ensures script { IfOk result (IsScript frameworks bytes.now) }
    ensures no_other { IfOk result (λ script.
        (other : ScriptValue) → IsScript frameworks bytes.now other → other ≡ script) }
    ensures faultless { IfOk result (λ _. IsFaultless frameworks bytes.now) }
    ensures among { IfOk result (λ script.
        1 ≤ frameworks → (session : ℕ) → IsAmong frameworks (use_of script.uses session)) }
    ensures fault { IfErr result (IsToldOf frameworks bytes.now) }
{
    let mut groups = OpenGroups::new(alloc)?;
    let script = read_lines(alloc, lines(bytes), frameworks, &mut groups)?;
    if groups.is_any_open() {
        return Err(ScriptFault::At {
            line: number_behind(bytes),
            cause: ScriptCause::OpenGroup,
        });
    }
    Ok(script)
}

/// The number that a line behind the last would have.
pub(crate) fn number_behind(bytes: &[u8]) -> usize
    ensures { result ≡ length (lines_of bytes.now) + 1 }
{
    let mut left = lines(bytes);
    let mut number = 1;
    while let Some(_line) = left.next() {
        number += 1;
    }
    number
}

// The script of all lines that are left and not skipped.
fn read_lines(
    alloc: Global,
    mut left: Lines<'_>,
    frameworks: u32,
    groups: &mut OpenGroups,
) -> Result<Script, ScriptFault>
    requires { places_of groups.old ≡ all_unbegun }
    ensures lines { IfOk result (AreRead frameworks (kept left.entry) (places_of groups.new)) }
    ensures fault { IfErr result (BreaksAt frameworks (kept left.entry)) }
{
    let mut script = Script {
        lines: Items::new(alloc),
        uses: Items::new(alloc),
    };
    'lines: while let Some(line) = next_line(alloc, &mut left, frameworks, groups)? {
        groups.take(alloc, line, &mut script)?;
    }
    Ok(script)
}

// The next line that is not skipped, which may stand where the sessions stand so; `None` where none is left.
fn next_line(
    alloc: Global,
    left: &mut Lines<'_>,
    frameworks: u32,
    groups: &OpenGroups,
) -> Result<Option<TextLine>, ScriptFault>
    ensures next { IfOk result (λ next. IfSome next (TellsNext (kept left.old) (kept left.new))) }
    ensures fits { IfOk result (λ next. IfSome next (FitsIn (places_of groups.now))) }
    ensures among { IfOk result (λ next. IfSome next (λ line. AreAmong frameworks (used_at line))) }
    ensures end { IfOk result (λ next. IfNone next (kept left.old ≡ [])) }
    ensures fault { IfErr result (StopsAt frameworks (places_of groups.now) (kept left.old)) }
{
    let Some(line) = next_kept(left) else {
        return Ok(None);
    };
    match line_in(alloc, &line, frameworks, groups) {
        Ok(told) => Ok(Some(told)),
        Err(LineStop::Wrong(cause)) => Err(ScriptFault::At {
            line: line.number,
            cause,
        }),
        Err(LineStop::Memory) => Err(ScriptFault::Memory),
    }
}

// What a line says, which may stand where the sessions stand so.
fn line_in(
    alloc: Global,
    line: &Line<'_>,
    frameworks: u32,
    groups: &OpenGroups,
) -> Result<TextLine, LineStop>
    ensures line { IfOk result (IsTextLine line.now.text.now) }
    ensures fits { IfOk result (FitsIn (places_of groups.now)) }
    ensures among { IfOk result (λ told. AreAmong frameworks (used_at told)) }
    ensures wrong { IfErr result (λ halt.
        IfWrong halt (IsFirstIn frameworks (places_of groups.now) (field_texts line.now.text.now))) }
{
    check_place(line, groups)?;
    let told = line_of(alloc, line)?;
    check_limits(&told, groups)?;
    check_framework(&told, frameworks)?;
    Ok(told)
}

// Refuses `end` outside a group, `ask` or `begin` inside one, and `use` behind a line of the session.
fn check_place(line: &Line<'_>, groups: &OpenGroups) -> Result<(), ScriptCause>
    ensures placed { OnOk result (¬ IsMisplacedIn (places_of groups.now) (field_texts line.now.text.now)) }
    ensures wrong { IfErr result (λ cause. (cause ≡ ScriptCause.BadCommand)
        × IsMisplacedIn (places_of groups.now) (field_texts line.now.text.now)) }
{
    let mut parts = fields(line);
    let Ok(session) = session_of(&mut parts) else {
        return Ok(());
    };
    let Some(name) = next_text(&mut parts) else {
        return Ok(());
    };
    if is_misplaced(name, groups.place(session)) {
        return Err(ScriptCause::BadCommand);
    }
    Ok(())
}

// Whether a command of that name may not stand where its session stands.
fn is_misplaced(name: &[u8], place: &Place) -> bool
    ensures { IsTrue result ↔ IsMisplacedName place.now name.now }
{
    match place {
        Place::Unbegun => name == "end".as_bytes(),
        Place::Between => name == "end".as_bytes() || name == "use".as_bytes(),
        Place::Inside(_) => {
            name == "ask".as_bytes() || name == "begin".as_bytes() || name == "use".as_bytes()
        }
    }
}

// Refuses an edit too many, and the end of a group without edits.
fn check_limits(told: &TextLine, groups: &OpenGroups) -> Result<(), ScriptCause>
    requires { told.now.session ≤ MAX_SESSIONS }
    ensures fits { OnOk result ((cause : ACause) → ¬ BreaksIn (places_of groups.now) told.now cause) }
    ensures wrong { IfErr result (BreaksIn (places_of groups.now) told.now) }
{
    match groups.place(told.session) {
        Place::Inside(edits) => check_limit(&told.command, edits.len()),
        Place::Unbegun | Place::Between => Ok(()),
    }
}

// Refuses an edit behind the most edits, and an end behind none.
fn check_limit(command: &LineCommand, count: usize) -> Result<(), ScriptCause>
    ensures fits { OnOk result ((cause : ACause) → ¬ BreaksLimit command.now count cause) }
    ensures wrong { IfErr result (BreaksLimit command.now count) }
{
    match command {
        LineCommand::Edit(_) if count >= MAX_GROUP => Err(ScriptCause::GroupTooLong),
        LineCommand::End if count == 0 => Err(ScriptCause::EmptyGroup),
        _ => Ok(()),
    }
}

// Refuses a framework that is none of so many.
fn check_framework(told: &TextLine, frameworks: u32) -> Result<(), ScriptCause>
    ensures among { OnOk result (AreAmong frameworks (used_at told.now)) }
    ensures wrong { IfErr result (IsStrayIn frameworks told.now) }
{
    match &told.command {
        LineCommand::Use(framework) => check_among(*framework, frameworks),
        _ => Ok(()),
    }
}

// Refuses a number that is none from 1 to the number of frameworks.
fn check_among(framework: u32, frameworks: u32) -> Result<(), ScriptCause>
    ensures among { OnOk result (IsAmong frameworks framework) }
    ensures wrong { IfErr result (λ cause. (cause ≡ ScriptCause.BadFramework) × ¬ IsAmong frameworks framework) }
{
    if framework < 1 || framework > frameworks {
        return Err(ScriptCause::BadFramework);
    }
    Ok(())
}
