//! The steps of a log, and its side clauses.

ghost use Rattle.std.specs.Prelude.{◌≡◌, ◌↔◌, ◌-◌, IfNone, IfSome, IsTrue};
ghost use Rattle.oracle_face.specs.Logs.{IsNumberOf, no_step, step_at};
ghost use Rattle.core_logs.specs.Sources.{source_of};

use lists::Items;
use meaning_atoms::{AtomLit, AxiomName};
use oracle_face::EntryName;
use plain_lits::StepId;
use set_lists::NumSet;
use std::marker::Model;

/// What justifies a step: an axiom, a side clause by its number, or the steps that it follows from.
#[derive(Drop)]
pub enum Justification {
    Axiom(AxiomName),
    Side(u32),
    Hints(Items<StepId>),
}

/// A step, which contracts see as that of an oracle's log.
#[derive(Drop)]
pub struct CoreStep {
    clause: Items<AtomLit>,
    source: Justification,
    imported: Option<EntryName>,
    closing: bool,
}

impl Model for CoreStep {
    ghost use Rattle.oracle_face.specs.Logs.{LogStep};
    ghost use Rattle.core_logs.specs.Sources.{source_of};

    ghost Value = { LogStep };

    ghost view = { λ s. record {
      clause = s.clause;
      source = source_of s.source;
      imported = s.imported;
      closing = s.closing;
    } };
}

/// A side clause with the set that it is made from.
#[derive(Drop)]
pub struct CoreSide {
    literals: Items<AtomLit>,
    set: NumSet,
}

impl Model for CoreSide {
    ghost use Rattle.oracle_face.specs.Logs.{SideClause};

    ghost Value = { SideClause };

    ghost view = { λ s. record { literals = s.literals; set = s.set } };
}

impl CoreStep {
    /// A step with its clause. `imported` names the entry that it was taken from; `closing` marks one that only ends a
    /// search.
    pub fn new(
        clause: Items<AtomLit>,
        source: Justification,
        imported: Option<EntryName>,
        closing: bool,
    ) -> CoreStep
        ensures { result ≡ record {
          clause = clause;
          source = source_of source;
          imported = imported;
          closing = closing;
        } }
    {
        CoreStep {
            clause,
            source,
            imported,
            closing,
        }
    }

    /// The literals.
    pub fn clause(&self) -> &[AtomLit]
        ensures { result.now ≡ self.now.clause }
    {
        self.clause.as_slice()
    }

    /// What justifies the step.
    pub fn source(&self) -> &Justification
        ensures { source_of result.now ≡ self.now.source }
    {
        &self.source
    }

    /// The entry that it was taken from.
    pub fn imported(&self) -> Option<EntryName>
        ensures { result ≡ self.now.imported }
    {
        self.imported
    }

    /// Whether it only ended a search.
    pub fn closing(&self) -> bool
        ensures { result ≡ self.now.closing }
    {
        self.closing
    }
}

impl CoreSide {
    /// A side clause with its set.
    pub fn new(literals: Items<AtomLit>, set: NumSet) -> CoreSide
        ensures { result ≡ record { literals = literals; set = set } }
    {
        CoreSide { literals, set }
    }

    /// The literals.
    pub fn literals(&self) -> &[AtomLit]
        ensures { result.now ≡ self.now.literals }
    {
        self.literals.as_slice()
    }

    /// The set.
    pub fn set(&self) -> &NumSet
        ensures { result.now ≡ self.now.set }
    {
        &self.set
    }
}

/// Whether a number names one of the items, which are numbered from 1.
pub fn is_number<T>(items: &[T], number: StepId) -> bool
    ensures { IsTrue result ↔ IsNumberOf items.now number }
{
    let number = number.number() as usize;
    0 < number && number <= items.len()
}

/// The index of the step of a number.
fn index_of(number: StepId) -> usize
    ensures { result ≡ number - 1 }
{
    let number = number.number() as usize;
    if number == 0 {
        return 0;
    }
    number - 1
}

/// The step of a number, if there is one.
pub fn find_step(steps: &[CoreStep], number: StepId) -> Option<&CoreStep>
    ensures some { IfSome result (λ step. step.now ≡ step_at steps.now number) }
    ensures none { IfNone result (step_at steps.now number ≡ no_step) }
    ensures unnamed { IfNone result (¬ IsNumberOf steps.now number) }
{
    steps.get(index_of(number))
}

/// The literals of the step of a number. Where there is no step, there are none.
pub fn clause_at(steps: &[CoreStep], number: StepId) -> &[AtomLit]
    ensures { result.now ≡ (step_at steps.now number).clause }
{
    match find_step(steps, number) {
        Some(step) => step.clause(),
        None => &[],
    }
}

/// Whether the step of a number only ended a search. Where there is no step, it is so.
pub fn is_closing_at(steps: &[CoreStep], number: StepId) -> bool
    ensures { result ≡ (step_at steps.now number).closing }
{
    match find_step(steps, number) {
        Some(step) => step.closing(),
        None => true,
    }
}
