//! Steps of a log as steps of a certificate.

ghost use Rattle.std.specs.Prelude.{◌≡◌, ◌<◌, ℕ, length, map, Contains, IfOk};
ghost use Rattle.oracle_face.specs.Logs.{IsLog, IsNumberOf, hints_of, step_at};
ghost use Rattle.certificate_making.specs.Trimmed.{IsMovedDerived, IsMovedStep, moved_lit, number_in, position_of};

use crate::read_log::ReadLog;
use certificate_claims::Step;
use lists::{Items, Memory};
use meaning_atoms::{Atom, AtomLit};
use oracle_face::StepSource;
use plain_lits::StepId;
use std::alloc::Global;

/// Where a side clause of the log stands in the claim, or 0.
fn position(positions: &[u32], side: u32) -> u32
    ensures { result ≡ position_of positions.now side }
{
    positions
        .get(side.saturating_sub(1) as usize)
        .copied()
        .unwrap_or(0)
}

/// The literal, of which a side clause has its number in the claim.
fn renumber(positions: &[u32], lit: AtomLit) -> AtomLit
    ensures { result ≡ moved_lit positions.now lit }
{
    match lit.atom {
        Atom::Ask(side) => AtomLit {
            atom: Atom::Ask(position(positions, side)),
            positive: lit.positive,
        },
        _ => lit,
    }
}

/// Gives each side clause its number in the claim.
fn move_literals(positions: &[u32], literals: &mut Vec<AtomLit>)
    ensures { literals.new.items ≡ map (moved_lit positions.now) literals.old.items }
{
    for index in 0..literals.len() {
        let lit = literals.as_slice()[index];
        literals[index] = renumber(positions, lit);
    }
}

/// The numbers that steps have in the certificate.
fn moved_hints(alloc: Global, numbers: &[u32], hints: &[StepId]) -> Result<Items<u32>, Memory>
    requires { (hint : ℕ) → Contains hints.now hint → hint < length numbers.now }
    ensures { IfOk result (λ moved. moved ≡ map (number_in numbers.now) hints.now) }
{
    let mut moved = Items::new(alloc);
    for hint in hints {
        moved.push(numbers[hint.number() as usize])?;
    }
    Ok(moved)
}

/// A derived step of the log as one of the certificate.
fn moved_derived<L: ReadLog>(
    alloc: Global,
    log: &L,
    step: StepId,
    positions: &[u32],
    numbers: &[u32],
) -> Result<Step, Memory>
    requires form { IsLog (L.framework log.now) (L.log log.now) }
    requires step { IsNumberOf (L.log log.now).steps step }
    requires within { step < length numbers.now }
    ensures { IfOk result (IsMovedDerived positions.now numbers.now
        (hints_of (step_at (L.log log.now).steps step).source) (step_at (L.log log.now).steps step).clause) }
{
    let mut literals = log.clause(alloc, step)?.into_vec();
    move_literals(positions, &mut literals);
    let hints = moved_hints(alloc, numbers, log.hints(step))?;
    Ok(Step::Derived(Items::from_vec(literals), hints))
}

/// A step of the log as one of the certificate.
pub(crate) fn moved_step<L: ReadLog>(
    alloc: Global,
    log: &L,
    step: StepId,
    positions: &[u32],
    numbers: &[u32],
) -> Result<Step, Memory>
    requires form { IsLog (L.framework log.now) (L.log log.now) }
    requires step { IsNumberOf (L.log log.now).steps step }
    requires within { step < length numbers.now }
    ensures { IfOk result (IsMovedStep positions.now numbers.now (step_at (L.log log.now).steps step).source
        (step_at (L.log log.now).steps step).clause) }
{
    match log.origin(alloc, step)? {
        StepSource::Axiom(name) => Ok(Step::Axiom(name)),
        StepSource::Side(side) => Ok(Step::Side(position(positions, side.number()))),
        StepSource::Entry(_) | StepSource::Hints => moved_derived(
            alloc, log, step, positions, numbers,
        ),
    }
}
