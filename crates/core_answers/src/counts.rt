//! Counts of steps.

ghost use Rattle.std.specs.Prelude.{◌≡◌, count_by};
ghost use Rattle.oracle_face.specs.Logs.{is_loop, is_unit, is_work};
ghost use Rattle.core_logs.specs.Sources.{source_of};
ghost use Rattle.core_answers.specs.Serving.{counts};

use core_logs::{CoreStep, Justification};
use meaning_atoms::{AbaAxiom, AxiomName};

/// Which steps are counted.
#[derive(Clone, Copy)]
pub enum Count {
    /// Those of side clauses.
    Sides,
    /// Those that only ended a search.
    Closings,
    /// Units.
    Units,
}

/// Whether an axiom is a loop clause.
pub(crate) fn is_loop(name: &AxiomName) -> bool
    ensures { result ≡ is_loop name.now }
{
    matches!(name, AxiomName::Aba(AbaAxiom::B17 { .. }))
}

/// Whether what comes from there may be a unit.
fn is_work(source: &Justification) -> bool
    ensures { result ≡ is_work (source_of source.now) }
{
    match source {
        Justification::Axiom(name) => is_loop(name),
        Justification::Side(_) | Justification::Hints(_) => true,
    }
}

/// Whether a step is a unit.
pub(crate) fn is_unit(step: &CoreStep) -> bool
    ensures { result ≡ is_unit step.now }
{
    is_work(step.source()) && (step.imported().is_none() && !step.closing())
}

/// Whether a step is counted.
fn is_counted(what: Count, step: &CoreStep) -> bool
    ensures { result ≡ counts what step.now }
{
    match what {
        Count::Sides => matches!(step.source(), Justification::Side(_)),
        Count::Closings => step.closing(),
        Count::Units => is_unit(step),
    }
}

/// How many of the steps are counted.
pub(crate) fn number_of(what: Count, steps: &[CoreStep]) -> usize
    ensures { result ≡ count_by (counts what) steps.now }
{
    let mut found = 0;
    for step in steps {
        found += is_counted(what, step) as usize;
    }
    found
}
