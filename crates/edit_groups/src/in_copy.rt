//! Groups of edits that are made in a copy of the framework.

ghost use Rattle.std.specs.Prelude.{◌≡◌, ◌<◌, ◌+◌, length, take, IfErr, IfOk, OnErr, OnOk};
ghost use Rattle.semantics.specs.Frameworks.{Framework as AFramework};
ghost use Rattle.edit_rules.specs.Kinds.{framework_of};
ghost use Rattle.edit_groups.specs.Taking.{IsGroupFault, IsGroupTaken};

use crate::copies::copy_effects;
use crate::taking::{Effects, GroupFault, fault_at};
use edit_rules::{Edit, Effect, Framework, apply};
use lists::Items;
use std::alloc::Global;

/// Changes a framework by a group of edits, in a copy, in time linear in the framework for each of the edits.
pub(crate) fn apply_in_copy(
    alloc: Global,
    framework: &mut Framework,
    edits: &[Edit],
) -> Result<Effects, GroupFault>
    ensures taken { IfOk result (λ effects.
        IsGroupTaken (framework_of framework.old) edits.now effects.kept (framework_of framework.new)) }
    ensures told { IfOk result (λ effects. effects.told ≡ effects.kept) }
    ensures fault { IfErr result (IsGroupFault (framework_of framework.old) edits.now) }
    ensures kept { OnErr result (framework.new ≡ framework.old) }
{
    let mut after = framework.copy(alloc)?;
    let kept = apply_each(alloc, &mut after, edits)?;
    let told = copy_effects(alloc, kept.as_slice())?;
    *framework = after;
    Ok(Effects { kept, told })
}

/// Changes a framework by edits, one by one, up to the first that is refused.
fn apply_each(
    alloc: Global,
    framework: &mut Framework,
    edits: &[Edit],
) -> Result<Items<Effect>, GroupFault>
    ensures taken { IfOk result (λ effects.
        IsGroupTaken (framework_of framework.old) edits.now effects (framework_of framework.new)) }
    ensures fault { IfErr result (IsGroupFault (framework_of framework.old) edits.now) }
{
    let mut effects = Items::new(alloc);
    for index in 0..edits.len() {
        apply_at(alloc, framework, edits, index, &mut effects)?;
    }
    Ok(effects)
}

/// Changes a framework that is behind the first edits of a group by the next one, whose effect is added.
fn apply_at(
    alloc: Global,
    framework: &mut Framework,
    edits: &[Edit],
    index: usize,
    effects: &mut Items<Effect>,
) -> Result<(), GroupFault>
    requires { index < length edits.now }
    ensures taken { (f : AFramework) → IsGroupTaken f (take index edits.now) effects.old (framework_of framework.old)
        → OnOk result (IsGroupTaken f (take (index + 1) edits.now) effects.new (framework_of framework.new)) }
    ensures fault { (f : AFramework) → IsGroupTaken f (take index edits.now) effects.old (framework_of framework.old)
        → IfErr result (IsGroupFault f edits.now) }
{
    match apply(alloc, framework, &edits[index]) {
        Ok(effect) => Ok(effects.push(effect)?),
        Err(fault) => Err(fault_at(index as u64 + 1, fault)),
    }
}
