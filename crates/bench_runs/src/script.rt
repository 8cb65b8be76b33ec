//! The script of a large input.

ghost use Rattle.std.specs.Prelude.{◌≡◌, ◌<◌, ◌++◌, ◌∷◌, [], Some, IfOk, OnOk};
ghost use Rattle.iccma_tasks.specs.Tasks.{FitsTask};
ghost use Rattle.script_text.specs.declared.script.ScriptCommand.TheVariants.{Ask};
ghost use Rattle.bench_runs.specs.Scripts.{asked_of, bench_script, line_for, lines_by, single};

use crate::draws::{drawn, next};
use edit_rules::Edit;
use iccma_tasks::{Problem, Query, Semantics, Task};
use lists::{Items, Memory};
use script_text::{Group, Script, ScriptCommand, ScriptLine};
use std::alloc::Global;

/// How many sessions a large input has.
pub const BENCH_SESSIONS: u32 = 4;

/// The most arguments that the sessions ask about.
pub const MAX_ASKED: u32 = 32;

/// A query about an argument.
fn ask(problem: Problem, semantics: Semantics, argument: u32) -> ScriptCommand
    requires { FitsTask problem (Some argument) }
    ensures { result ≡ Ask (asked_of problem semantics argument) }
{
    let task = Task { problem, semantics };
    let Some(query) = Query::new(task, Some(argument)) else {
        unreachable!()
    };
    ScriptCommand::Ask(query)
}

/// An edit that is made alone.
fn alone(alloc: Global, edit: Edit) -> Result<ScriptCommand, Memory>
    ensures { IfOk result (λ command. command ≡ single edit) }
{
    let mut edits = Items::new(alloc);
    edits.push(edit)?;
    Ok(ScriptCommand::Edit(Group::new(edits), false))
}

/// Adds a line of the session of an argument.
fn push_line(
    lines: &mut Items<ScriptLine>,
    argument: u32,
    command: ScriptCommand,
) -> Result<(), Memory>
    requires { 0 < argument }
    ensures { OnOk result (lines.new ≡ lines.old ++ line_for argument command ∷ []) }
{
    let session = (argument - 1) % BENCH_SESSIONS + 1;
    lines.push(ScriptLine { session, command })
}

/// Adds the lines of an argument with a first attacker.
fn push_lines(
    alloc: Global,
    lines: &mut Items<ScriptLine>,
    attacker: u32,
    argument: u32,
) -> Result<(), Memory>
    requires { 0 < argument }
    ensures { OnOk result (lines.new ≡ lines.old ++ lines_by attacker argument) }
{
    let drop = alone(alloc, Edit::AttackDrop(attacker, argument))?;
    push_line(lines, argument, drop)?;
    let query = ask(Problem::Credulous, Semantics::Complete, argument);
    push_line(lines, argument, query)?;
    let add = alone(alloc, Edit::AttackAdd(attacker, argument))?;
    push_line(lines, argument, add)?;
    let query = ask(Problem::Sceptical, Semantics::Preferred, argument);
    push_line(lines, argument, query)
}

/// The sessions' lines, argument by argument.
pub(crate) fn script(alloc: Global, n: u32, seed: u32) -> Result<Script, Memory>
    requires { 0 < n }
    ensures { IfOk result (λ script. script ≡ bench_script n seed) }
{
    let mut lines = Items::new(alloc);
    let mut state = seed as u64;
    for argument in 1..n.min(MAX_ASKED) + 1 {
        let one = next(state);
        push_lines(alloc, &mut lines, drawn(one, n), argument)?;
        state = next(next(one));
    }
    let uses = Items::new(alloc);
    Ok(Script { lines, uses })
}
