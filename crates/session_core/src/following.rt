//! How an engine follows the history.

ghost use Rattle.std.specs.Prelude.{◌≡◌, Ok, OnOk};
ghost use Rattle.edit_rules.specs.Groups.{group_told};
ghost use Rattle.edit_rules.specs.Replay.{IsTaken, after_edit, replay};
ghost use Rattle.edit_history.specs.Entries.{AreDone, edits_in, edits_of, entries_in, framework_after};
ghost use Rattle.framework_solver.specs.Updating.{GainsNeeded};
ghost use Rattle.session_core.specs.Following.{CatchesUp};

use edit_history::Change;
use edit_rules::Effect;
use framework_solver::UpdateStop;
use lists::Memory;
use oracle_core::Engine;
use std::alloc::Global;

/// Brings an engine to the framework after an edit. A full log keeps none of it back but axioms.
fn follow_one(alloc: Global, engine: &mut Engine, effect: &Effect) -> Result<(), Memory>
    requires { IsTaken engine.old.framework effect.now.edit effect.now }
    ensures framework { OnOk result (engine.new.framework ≡ after_edit engine.old.framework effect.now.edit) }
    ensures gains { GainsNeeded (after_edit engine.old.framework effect.now.edit) engine.old.log engine.new.log }
    ensures number { engine.new.number ≡ engine.old.number }
{
    match engine.update(alloc, effect) {
        Ok(()) | Err(UpdateStop::LogFull) => Ok(()),
        Err(UpdateStop::Memory) => Err(Memory),
    }
}

/// Brings an engine to the framework after a group of edits, one after the other.
fn follow_group(alloc: Global, engine: &mut Engine, effects: &[Effect]) -> Result<(), Memory>
    requires { group_told engine.old.framework (edits_in effects.now) ≡ Ok effects.now }
    ensures framework { OnOk result (engine.new.framework ≡ replay engine.old.framework (edits_in effects.now)) }
    ensures catches_up { CatchesUp engine.old.framework (edits_in effects.now) engine.old.log engine.new.log }
    ensures number { engine.new.number ≡ engine.old.number }
{
    for effect in effects {
        follow_one(alloc, engine, effect)?;
    }
    Ok(())
}

/// Brings an engine to the framework after changes, one after the other. After `Memory` it is for the framework after
/// some of their edits, or after none.
pub(crate) fn follow(alloc: Global, engine: &mut Engine, changes: &[Change]) -> Result<(), Memory>
    requires { AreDone engine.old.framework changes.now }
    ensures framework { OnOk result (engine.new.framework
        ≡ framework_after engine.old.framework (entries_in changes.now)) }
    ensures catches_up { CatchesUp engine.old.framework (edits_of (entries_in changes.now)) engine.old.log
        engine.new.log }
    ensures number { engine.new.number ≡ engine.old.number }
{
    for change in changes {
        follow_group(alloc, engine, change.effects.as_slice())?;
    }
    Ok(())
}
