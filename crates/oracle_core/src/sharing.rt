//! Clauses that an engine hands to others.

ghost use Rattle.std.specs.Prelude.{◌≡◌, ℕ, List, IfOk, IfSome, IsTrue, None};
ghost use Rattle.oracle_face.specs.StepSources.{imported_of, source_of};
ghost use Rattle.oracle_face.specs.declared.step_source.StepSource.TheVariants.{Entry as OfEntry};
ghost use Rattle.oracle_face.specs.Logs.{IsNumberOf, by_hints, step_at};
ghost use Rattle.framework_solver.specs.Solvers.{IsWhole};
ghost use Rattle.oracle_core.specs.Sharing.{AreNamesOf, CallsAny, IsEntryOf, IsNamedAs, IsShareableStep};

use crate::engine::Engine;
use atom_solver::AtomSolver;
use framework_solver::FrameworkSolver;
use lists::{Items, Memory};
use oracle_face::{ClauseTrade, Entry, EntryName, EntryOrigin, HintName, StepSource};
use plain_lits::StepId;
use std::alloc::Global;

/// The most hints of a step that goes to others. A clause from many steps is long: whoever takes it looks up each hint
/// and watches the clause from then on. With clauses of any number of hints, four sessions on 5,000 arguments took half as
/// long again as sharing none (bench/RESULTS.md).
const MAX_HINTS: usize = 16;

/// The name of an entry, where it is another session's.
fn remote_reference(own: u32, name: EntryName) -> Option<HintName>
    ensures { (number : ℕ) → IfSome result (CallsAny own (OfEntry name) number) }
{
    if name.session == own {
        return None;
    }
    Some(HintName::Entry(name))
}

/// What entries of the session of the number `own` call a step that comes from there; None where they don't name it.
fn reference_to(own: u32, origin: StepSource, step: StepId) -> Option<HintName>
    ensures { IfSome result (CallsAny own origin step) }
{
    match origin {
        StepSource::Axiom(name) => Some(HintName::Axiom(name)),
        StepSource::Side(_) => None,
        StepSource::Entry(name) => remote_reference(own, name),
        StepSource::Hints => Some(HintName::Entry(EntryName { session: own, step })),
    }
}

/// What entries of the session of the number `own` call a step; None where they don't name it.
fn step_reference(
    alloc: Global,
    own: u32,
    solver: &AtomSolver,
    step: StepId,
) -> Result<Option<HintName>, Memory>
    ensures { IfOk result (λ found. IfSome found (λ name. IsNamedAs own name step
        (step_at solver.now.log.steps step))) }
{
    let number = step.number() as usize;
    if number == 0 || number > solver.len() {
        return Ok(None);
    }
    let origin = solver.origin(alloc, step)?;
    Ok(reference_to(own, origin, step))
}

/// What entries call steps, one for one; None where they don't name one of them.
fn step_references(
    alloc: Global,
    own: u32,
    solver: &AtomSolver,
    steps: &[StepId],
) -> Result<Option<Items<HintName>>, Memory>
    ensures { IfOk result (λ found. IfSome found (AreNamesOf own solver.now.log.steps steps.now)) }
{
    let mut names = Items::new(alloc);
    for step in steps {
        let Some(name) = step_reference(alloc, own, solver, *step)? else {
            return Ok(None);
        };
        names.push(name)?;
    }
    Ok(Some(names))
}

/// Whether what comes from there is one's own and follows from other steps.
fn is_derived(origin: &StepSource) -> bool
    ensures own { IsTrue result → imported_of origin.now ≡ None }
    ensures derived { IsTrue result → (hints : List ℕ) → source_of origin.now hints ≡ by_hints hints }
{
    matches!(origin, StepSource::Hints)
}

/// Whether a step may go to others: it is one's own, follows from other steps, which are few, didn't only end a search,
/// and asks for no side clause.
fn is_shareable(alloc: Global, solver: &AtomSolver, step: StepId) -> Result<bool, Memory>
    requires { IsNumberOf solver.now.log.steps step }
    ensures { IfOk result (λ may. IsTrue may → IsShareableStep (step_at solver.now.log.steps step)) }
{
    let origin = solver.origin(alloc, step)?;
    Ok(is_derived(&origin) && solver.hints(step).len() <= MAX_HINTS && solver.is_plain(step))
}

/// The entry of a step that may go to others; None for every other step.
fn shared_entry(
    alloc: Global,
    own: u32,
    solver: &AtomSolver,
    step: StepId,
) -> Result<Option<Entry>, Memory>
    requires { IsNumberOf solver.now.log.steps step }
    ensures { IfOk result (λ found. IfSome found (IsEntryOf own solver.now.log.steps step)) }
{
    if !is_shareable(alloc, solver, step)? {
        return Ok(None);
    }
    let Some(names) = step_references(alloc, own, solver, solver.hints(step))? else {
        return Ok(None);
    };
    let clause = solver.clause(alloc, step)?;
    Ok(Some(Entry {
        clause,
        name: EntryName { session: own, step },
        origin: EntryOrigin::Hints(names),
    }))
}

/// Offers a trade a step, where the step may go to others. False where the trade doesn't keep it.
fn offer_step<T: ClauseTrade>(
    alloc: Global,
    own: u32,
    parts: &FrameworkSolver,
    step: StepId,
    trade: &mut T,
) -> bool
    requires whole { IsWhole parts.now }
    requires step { IsNumberOf parts.now.solver.log.steps step }
    ensures left { T.left trade.new ≡ T.left trade.old }
    ensures gave { T.gave trade.new ≡ T.gave trade.old }
    ensures follows { T.follows trade.old trade.new }
{
    match shared_entry(alloc, own, &parts.solver, step) {
        Ok(Some(entry)) => match trade.offer(entry) {
            Ok(kept) => kept,
            Err(_entry) => false,
        },
        Ok(None) => true,
        Err(_) => false,
    }
}

/// Offers a trade the steps behind the first so many, up to one that it doesn't keep. Tells how many steps need no offer
/// any more.
pub(crate) fn offer_from<T: ClauseTrade>(
    alloc: Global,
    own: u32,
    parts: &FrameworkSolver,
    from: usize,
    trade: &mut T,
) -> usize
    requires { IsWhole parts.now }
    ensures left { T.left trade.new ≡ T.left trade.old }
    ensures gave { T.gave trade.new ≡ T.gave trade.old }
    ensures follows { T.follows trade.old trade.new }
{
    let mut offered = from;
    while offered < parts.solver.len() {
        let step = StepId::new(offered as u32 + 1);
        if !offer_step(alloc, own, parts, step, trade) {
            return offered;
        }
        offered += 1;
    }
    offered
}

impl Engine {
    /// Whether a step went to others: it was offered to a trade, which kept it. Only tests call it.
    pub fn is_shared(&self, alloc: Global, step: StepId) -> Result<bool, Memory>
        requires { IsNumberOf self.now.log.steps step }
        ensures { IfOk result (λ shared. IsTrue shared → IsShareableStep (step_at self.now.log.steps step)) }
    {
        if step.number() as usize > self.offered {
            return Ok(false);
        }
        is_shareable(alloc, &self.parts.solver, step)
    }

    /// The name of the entry that a step was taken from, where it was taken from one.
    pub fn imported(&self, alloc: Global, step: StepId) -> Result<Option<EntryName>, Memory>
        requires { IsNumberOf self.now.log.steps step }
        ensures { IfOk result (λ name. name ≡ (step_at self.now.log.steps step).imported) }
    {
        let origin = self.parts.solver.origin(alloc, step)?;
        Ok(entry_name(&origin))
    }
}

/// The name of the entry that something comes from.
fn entry_name(origin: &StepSource) -> Option<EntryName>
    ensures { result ≡ imported_of origin.now }
{
    match origin {
        StepSource::Entry(name) => Some(*name),
        _ => None,
    }
}
