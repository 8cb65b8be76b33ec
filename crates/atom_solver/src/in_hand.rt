//! Copies of the clause that was in hand when a budget was spent.

ghost use Rattle.std.specs.Prelude.{◌≡◌, IfOk};

use lists::{Items, Memory};
use meaning_atoms::AtomLit;
use oracle_face::Pending;
use plain_lits::StepId;
use std::alloc::Global;

/// The same clause again.
pub(crate) fn copy_of(alloc: Global, pending: &Pending) -> Result<Pending, Memory>
    ensures { IfOk result (λ copy. copy ≡ pending.now) }
{
    match pending {
        Pending::Side(literals, set) => {
            let literals = copy_literals(alloc, literals.as_slice())?;
            Ok(Pending::Side(literals, set.copy(alloc)?))
        }
        Pending::Learned(literals, hints) => {
            let literals = copy_literals(alloc, literals.as_slice())?;
            Ok(Pending::Learned(literals, copy_steps(alloc, hints.as_slice())?))
        }
        Pending::Loop(name) => Ok(Pending::Loop(name.copy(alloc)?)),
    }
}

/// The same literals again.
fn copy_literals(alloc: Global, literals: &[AtomLit]) -> Result<Items<AtomLit>, Memory>
    ensures { IfOk result (λ copy. copy ≡ literals.now) }
{
    Ok(Items::from_vec(Vec::from_slice(alloc, literals)?))
}

/// The same numbers of steps again.
fn copy_steps(alloc: Global, steps: &[StepId]) -> Result<Items<StepId>, Memory>
    ensures { IfOk result (λ copy. copy ≡ steps.now) }
{
    Ok(Items::from_vec(Vec::from_slice(alloc, steps)?))
}
