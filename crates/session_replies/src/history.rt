//! The text of a history.

ghost use Rattle.std.specs.Prelude.{◌≡◌, ◌++◌, IfOk, OnOk};
ghost use Rattle.std.specs.List.{flat_map};
ghost use Rattle.std.specs.String.{string_bytes};
ghost use Rattle.edit_rules.specs.AbaEdits.{in_order};
ghost use Rattle.session_replies.specs.Replies.{command_line, edit_line, edit_text, history_lines, history_of};
ghost use Rattle.session_replies.specs.Replies.{rule_text, spaced};

use edit_history::Change;
use edit_rules::{Edit, Effect};
use lists::{Bytes, Memory};
use set_lists::NumSet;
use std::alloc::Global;
use std::fmt::Write;

/// The text of a history: the line `history`, and a line for each edit in order. It is the number of the session and
/// the command that makes the edit, with single blanks and without leading zeros; the body of a rule is in rising
/// order, each atom once. A group of more edits than one stands between the lines `S begin` and `S end`.
pub fn history_text(alloc: Global, changes: &[Change]) -> Result<Bytes, Memory>
    ensures { IfOk result (λ text. text ≡ history_of changes.now) }
{
    let mut text = String::new(alloc);
    text.push_str("history\n")?;
    for change in changes {
        push_change(alloc, &mut text, change)?;
    }
    Ok(Bytes::from_vec(text.into_bytes()))
}

/// Adds the lines of an entry.
fn push_change(alloc: Global, text: &mut String, change: &Change) -> Result<(), Memory>
    ensures { OnOk result (string_bytes text.new ≡ string_bytes text.old ++ history_lines change.now) }
{
    let session = change.session;
    let effects = change.effects.as_slice();
    if effects.len() == 1 {
        return push_edits(alloc, text, session, effects);
    }
    write!(text, "{session} begin\n")?;
    push_edits(alloc, text, session, effects)?;
    write!(text, "{session} end\n")?;
    Ok(())
}

/// Adds the lines of a session's edits.
fn push_edits(
    alloc: Global,
    text: &mut String,
    session: u32,
    effects: &[Effect],
) -> Result<(), Memory>
    ensures { OnOk result (string_bytes text.new
        ≡ string_bytes text.old ++ flat_map (edit_line session) effects.now) }
{
    for effect in effects {
        push_line(alloc, text, session, &effect.edit)?;
    }
    Ok(())
}

/// Adds the line of a session's edit.
fn push_line(alloc: Global, text: &mut String, session: u32, edit: &Edit) -> Result<(), Memory>
    ensures { OnOk result (string_bytes text.new ≡ string_bytes text.old ++ command_line session edit.now) }
{
    write!(text, "{session} ")?;
    push_edit(alloc, text, edit)?;
    text.push('\n')?;
    Ok(())
}

/// Adds the command that makes an edit.
fn push_edit(alloc: Global, text: &mut String, edit: &Edit) -> Result<(), Memory>
    ensures { OnOk result (string_bytes text.new ≡ string_bytes text.old ++ edit_text edit.now) }
{
    match edit {
        Edit::ArgAdd(number) => write!(text, "arg {number}")?,
        Edit::ArgDrop(number) => write!(text, "noarg {number}")?,
        Edit::AttackAdd(attacker, target) => write!(text, "att {attacker} {target}")?,
        Edit::AttackDrop(attacker, target) => write!(text, "noatt {attacker} {target}")?,
        Edit::AsmAdd(assumption, contrary) => write!(text, "asm {assumption} {contrary}")?,
        Edit::AsmDrop(assumption) => write!(text, "noasm {assumption}")?,
        Edit::ConSet(assumption, contrary) => write!(text, "con {assumption} {contrary}")?,
        Edit::ConAdd(assumption, contrary) => write!(text, "addcon {assumption} {contrary}")?,
        Edit::ConDrop(assumption, contrary) => write!(text, "delcon {assumption} {contrary}")?,
        Edit::RuleAdd(head, body) => push_rule(alloc, text, *head, body.as_slice())?,
        Edit::RuleDrop(rule) => write!(text, "norule {rule}")?,
    }
    Ok(())
}

/// Adds the command that adds a rule, its body in rising order, each atom once.
fn push_rule(alloc: Global, text: &mut String, head: u32, body: &[u32]) -> Result<(), Memory>
    ensures { OnOk result (string_bytes text.new ≡ string_bytes text.old ++ rule_text head body.now) }
{
    let atoms = atoms_of(alloc, body)?;
    write!(text, "rule {head}")?;
    push_numbers(text, atoms.as_slice())
}

/// The atoms of a body in rising order, each once.
fn atoms_of(alloc: Global, body: &[u32]) -> Result<NumSet, Memory>
    ensures { IfOk result (λ atoms. atoms ≡ in_order body.now) }
{
    NumSet::from_slice(alloc, body)
}

/// Adds each number behind a blank.
fn push_numbers(text: &mut String, numbers: &[u32]) -> Result<(), Memory>
    ensures { OnOk result (string_bytes text.new ≡ string_bytes text.old ++ spaced numbers.now) }
{
    for number in numbers {
        write!(text, " {number}")?;
    }
    Ok(())
}
