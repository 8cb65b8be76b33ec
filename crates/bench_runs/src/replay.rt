//! A framework that is led along a history.

ghost use Rattle.std.specs.Prelude.{◌≡◌, ◌≤◌, OnOk, length, take};
ghost use Rattle.semantics.specs.Frameworks.{Framework as AnyFramework};
ghost use Rattle.edit_rules.specs.Kinds.{framework_of};
ghost use Rattle.edit_rules.specs.Replay.{after_edit, replay};
ghost use Rattle.edit_history.specs.Entries.{edits_in, entries_in, framework_after};

use edit_history::Change;
use edit_rules::{Edit, Effect, Framework, apply};
use lists::Memory;
use std::alloc::Global;

/// Changes a framework by an edit that was taken there before. So only memory can be refused.
fn redo(alloc: Global, framework: &mut Framework, edit: &Edit) -> Result<(), Memory>
    ensures { OnOk result (framework_of framework.new ≡ after_edit (framework_of framework.old) edit.now) }
{
    match apply(alloc, framework, edit) {
        Ok(_effect) => Ok(()),
        Err(_fault) => Err(Memory),
    }
}

/// Changes a framework by the edits of a group that was taken there before.
fn redo_group(alloc: Global, framework: &mut Framework, effects: &[Effect]) -> Result<(), Memory>
    ensures { OnOk result (framework_of framework.new
        ≡ replay (framework_of framework.old) (edits_in effects.now)) }
{
    for effect in effects {
        redo(alloc, framework, &effect.edit)?;
    }
    Ok(())
}

/// Leads a framework from the one behind the first so many entries of a history to the one behind more of them.
pub(crate) fn lead(
    alloc: Global,
    framework: &mut Framework,
    history: &[Change],
    from: usize,
    to: usize,
) -> Result<(), Memory>
    requires order { from ≤ to }
    requires inside { to ≤ length history.now }
    ensures { (f : AnyFramework)
        → framework_of framework.old ≡ framework_after f (take from (entries_in history.now))
        → OnOk result (framework_of framework.new ≡ framework_after f (take to (entries_in history.now))) }
{
    for index in from..to {
        redo_group(alloc, framework, history[index].effects.as_slice())?;
    }
    Ok(())
}
