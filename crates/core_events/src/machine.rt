//! The machine: the whole state of the core over several frameworks.

ghost use Rattle.std.specs.Prelude.{◌≡◌, map, IfNone, IfOk, IfSome};
ghost use Rattle.edit_rules.specs.Kinds.{framework_of};
ghost use Rattle.semantics.specs.Frameworks.{IsNumbered};
ghost use Rattle.core_machine.specs.Servers.{IsServerStep};
ghost use Rattle.core_machine.specs.Steps.{IsStep};
ghost use Rattle.core_events.specs.Events.{event_of};
ghost use Rattle.core_events.specs.Machines.{AreNewParts, IsIndexOn, IsNewMachine, IsOnNone, MayOpen, core_on};
ghost use Rattle.core_events.specs.Machines.{new_part, part_of, server_of};
ghost use Rattle.core_events.specs.Runs.{ComeTo};
ghost use Rattle.core_events.specs.Stops.{Comes};

use crate::at_hand::CoreAtHand;
use crate::event::Event;
use crate::stop::StepStop;
use edit_history::HistoryEntry;
use edit_rules::Framework;
use lists::{Items, Memory};
use std::alloc::Global;
use std::mem::swap;

/// What a framework has of its own: how it was at the beginning, the edits that were taken, and the number of turns.
pub struct Part {
    pub(crate) opening: Framework,
    pub(crate) history: Vec<HistoryEntry>,
    pub(crate) turns: u64,
}

impl Drop for Part {
    fn drop(self) {
        let Part {
            opening: _,
            history: _,
            turns: _,
        } = self;
    }
}

/// Frameworks that sessions edit, the number of the framework of each session, and what all share: the pool, the
/// sessions, and how many edits each history may have and each log steps. A framework is at hand during an event alone.
pub struct Machine {
    pub(crate) parts: Vec<Part>,
    pub(crate) uses: Vec<u32>,
    pub(crate) core: CoreAtHand,
}

impl Drop for Machine {
    fn drop(self) {
        let Machine {
            parts: _,
            uses: _,
            core: _,
        } = self;
    }
}

/// A framework in which nothing was done yet.
fn part_for(alloc: Global, framework: Framework) -> Part
    ensures is { part_of result ≡ new_part (framework_of framework) }
    ensures form { IsNumbered (framework_of framework) }
{
    let _kind = framework.kind();
    Part {
        opening: framework,
        history: Vec::new(alloc),
        turns: 0,
    }
}

/// Frameworks in which nothing was done yet.
fn parts_for(alloc: Global, frameworks: Vec<Framework>) -> Result<Vec<Part>, Memory>
    ensures { IfOk result (λ parts. AreNewParts (map framework_of frameworks.items) parts.items) }
{
    let mut rest = frameworks;
    let mut parts = Vec::new(alloc);
    while !rest.is_empty() {
        let framework = rest.remove(0);
        parts.push(part_for(alloc, framework))?;
    }
    Ok(parts)
}

/// The same numbers again.
fn copy_numbers(alloc: Global, numbers: &[u32]) -> Result<Vec<u32>, Memory>
    ensures { IfOk result (λ all. all.items ≡ numbers.now) }
{
    let mut all = Vec::new(alloc);
    all.extend_from_slice(numbers)?;
    Ok(all)
}

/// The index of the framework of a session, where there is one.
fn index_on(uses: &[u32], count: usize, session: u32) -> Option<usize>
    ensures some { IfSome result (IsIndexOn uses.now count session) }
    ensures none { IfNone result (IsOnNone uses.now count session) }
{
    if session == 0 || session as usize > uses.len() {
        return None;
    }
    let number = uses[session as usize - 1] as usize;
    if number == 0 || number > count {
        return None;
    }
    Some(number - 1)
}

/// What a framework has of its own changes places with what is at hand.
fn exchange(core: &mut CoreAtHand, part: &mut Part)
    ensures core { core.new ≡ record core.old {
      opening = part.old.opening;
      history = part.old.history;
      turns = part.old.turns;
    } }
    ensures part { part.new ≡ record {
      opening = core.old.opening;
      history = core.old.history;
      turns = core.old.turns;
    } }
{
    swap(&mut core.opening, &mut part.opening);
    swap(&mut core.history, &mut part.history);
    swap(&mut core.turns, &mut part.turns);
}

/// Takes an event of a session of the framework, if it is a step there.
fn step_on(
    core: &mut CoreAtHand,
    part: &mut Part,
    alloc: Global,
    event: &Event,
) -> Result<(), StepStop>
    ensures { Comes (IsStep (core_on core.old part.old) (event_of event.now)) (core_on core.old part.old)
        (core_on core.new part.new) result }
{
    exchange(core, part);
    let stop = core.step(alloc, event);
    exchange(core, part);
    stop
}

impl Machine {
    /// The machine over frameworks in which nothing was done yet; the framework of session s, counted from 1 as the
    /// sessions are, is that of number `uses[s - 1]`. `limit` is how many edits each history may have, `log_limit` how
    /// many steps each session's log may have.
    pub fn open(
        alloc: Global,
        frameworks: Items<Framework>,
        uses: &[u32],
        limit: u64,
        log_limit: u64,
    ) -> Result<Machine, Memory>
        requires { MayOpen (map framework_of frameworks) uses.now }
        ensures { IfOk result (IsNewMachine (map framework_of frameworks) uses.now limit log_limit) }
    {
        let parts = parts_for(alloc, frameworks.into_vec())?;
        let numbers = copy_numbers(alloc, uses)?;
        let core = CoreAtHand::without_framework(alloc, limit, log_limit)?;
        Ok(Machine {
            parts,
            uses: numbers,
            core,
        })
    }

    /// Takes an event, if it is a step of the core of its session's framework: `NotAStep` comes exactly where it isn't,
    /// as for a session that is on no framework. After every `Err` the machine means the same state as before. `Memory`
    /// says that an allocation was refused.
    pub fn step(&mut self, alloc: Global, event: &Event) -> Result<(), StepStop>
        ensures { Comes (IsServerStep (server_of self.old) (event_of event.now)) (server_of self.old)
            (server_of self.new) result }
    {
        let count = self.parts.as_slice().len();
        let Some(index) = index_on(self.uses.as_slice(), count, event.session()) else {
            return Err(StepStop::NotAStep);
        };
        step_on(&mut self.core, &mut self.parts[index], alloc, event)
    }

    /// Takes events one after the other, up to the first that is no step of the core: `NotAStep` comes exactly there.
    /// What was taken before an `Err` stays. From a machine in which nothing was done yet they are a run of the core.
    pub fn run(&mut self, alloc: Global, events: &[Event]) -> Result<(), StepStop>
        ensures { ComeTo (server_of self.old) events.now (server_of self.new) result }
    {
        for event in events {
            self.step(alloc, event)?;
        }
        Ok(())
    }
}
