//! What the lines of a text say, taken together.

ghost use Rattle.std.specs.Prelude.{◌≡◌, ℕ, ◌+◌, ◌<◌, ◌≤◌, All, IfErr, IfOk, OnOk, length};
ghost use Rattle.semantics.specs.declared.numbers.TheConstants.{MAX_ATOM};
ghost use Rattle.semantics.specs.AbaFrameworks.{IsAtom};
ghost use Rattle.aba_format.specs.Reading.{IfCause, AddsAssumption, AddsContrary, AddsRule, AddsBody, AreEmpty};
ghost use Rattle.aba_format.specs.Reading.{AreWide};
ghost use Rattle.aba_format.specs.Reading.{RefusesAssumption, RefusesContrary, RefusesRule};

use crate::stop::LineStop;
use af_format::LineCause;
use lists::Memory;
use std::alloc::Global;

/// The most rule lines that a framework's text may have.
pub const MAX_RULE_LINES: usize = 1_000_000;

/// The most lines with a contrary that a framework's text may have, repeated ones included.
pub const MAX_CONTRARY_LINES: usize = 10_000_000;

/// What the lines of a text say. The first three lists have an item for each atom, by its number.
#[derive(Drop)]
pub(crate) struct LineParts {
    /// Whether an atom is an assumption.
    pub(crate) assumed: Vec<bool>,
    /// Whether an atom heads a rule.
    pub(crate) heading: Vec<bool>,
    /// Whether an atom was given a contrary.
    pub(crate) opposed: Vec<bool>,
    /// The assumptions, in the order of the lines that first say so.
    pub(crate) assumptions: Vec<u32>,
    /// The atoms that were given a contrary, each with the number of the line that first did so.
    pub(crate) given: Vec<(u32, usize)>,
    /// Pairs of an atom and a contrary of it, one for each line that says so.
    pub(crate) contraries: Vec<(u32, u32)>,
    /// The heads of the rules.
    pub(crate) heads: Vec<u32>,
    /// Pairs of the index of a rule and an atom of its body.
    pub(crate) bodies: Vec<(u32, u32)>,
}

impl LineParts {
    /// What no line says, of so many atoms.
    pub(crate) fn new(alloc: Global, count: u32) -> Result<LineParts, Memory>
        requires { count ≤ MAX_ATOM }
        ensures { IfOk result (AreEmpty count) }
    {
        let width = count as usize + 1;
        Ok(LineParts {
            assumed: vec![in alloc; false; width]?,
            heading: vec![in alloc; false; width]?,
            opposed: vec![in alloc; false; width]?,
            assumptions: Vec::new(alloc),
            given: Vec::new(alloc),
            contraries: Vec::new(alloc),
            heads: Vec::new(alloc),
            bodies: Vec::new(alloc),
        })
    }

    /// Takes in that an atom is an assumption.
    pub(crate) fn add_assumption(&mut self, x: u32) -> Result<(), LineStop>
        requires { AreWide x self.old }
        ensures ok { OnOk result (AddsAssumption x self.old self.new) }
        ensures err { IfErr result (λ stop. IfCause stop (RefusesAssumption x self.old)) }
    {
        let at = x as usize;
        if self.heading[at] {
            return Err(LineStop::Cause(LineCause::NotFlat));
        }
        if self.assumed[at] {
            return Ok(());
        }
        self.assumed[at] = true;
        self.assumptions.push(x)?;
        Ok(())
    }

    /// Takes in that y is a contrary of x, as the line of this number says.
    pub(crate) fn add_contrary(&mut self, x: u32, y: u32, line: usize) -> Result<(), LineStop>
        requires { AreWide x self.old }
        ensures ok { OnOk result (AddsContrary x y line self.old self.new) }
        ensures err { IfErr result (λ stop. IfCause stop (RefusesContrary self.old)) }
    {
        if self.contraries.len() >= MAX_CONTRARY_LINES {
            return Err(LineStop::Cause(LineCause::TooManyLines));
        }
        self.contraries.push((x, y))?;
        let at = x as usize;
        if self.opposed[at] {
            return Ok(());
        }
        self.opposed[at] = true;
        self.given.push((x, line))?;
        Ok(())
    }

    /// Takes in a rule.
    pub(crate) fn add_rule(&mut self, head: u32, body: &[u32]) -> Result<(), LineStop>
        requires { AreWide head self.old }
        ensures ok { OnOk result (AddsRule head body.now self.old self.new) }
        ensures err { IfErr result (λ stop. IfCause stop (RefusesRule head self.old)) }
    {
        let index = self.heads.len();
        if index >= MAX_RULE_LINES {
            return Err(LineStop::Cause(LineCause::TooManyLines));
        }
        if self.assumed[head as usize] {
            return Err(LineStop::Cause(LineCause::NotFlat));
        }
        self.heading[head as usize] = true;
        self.heads.push(head)?;
        add_body(&mut self.bodies, index as u32, body)?;
        Ok(())
    }
}

// Pairs each atom of a body with the index of its rule.
fn add_body(bodies: &mut Vec<(u32, u32)>, index: u32, body: &[u32]) -> Result<(), Memory>
    ensures { OnOk result (AddsBody index body.now bodies.old.items bodies.new.items) }
{
    for atom in body {
        bodies.push((index, *atom))?;
    }
    Ok(())
}
