//! How many clauses a refutation's CNF is to have.

ghost use Rattle.std.specs.Prelude.{◌≡◌, ◌<◌, ◌≤◌, length, sum_by, IfOk};
ghost use Rattle.edit_rules.specs.Kinds.{framework_of};
ghost use Rattle.answer_claims.specs.SideClauses.{sides_of};
ghost use Rattle.certificate_claims.specs.declared.certificate.Step.TheVariants.{Side};
ghost use Rattle.certificate_claims.specs.Refutations.{IsAxiomOf, axiom_clause, step_clause};
ghost use Rattle.hinted_log.specs.declared.log.TheConstants.{MAX_STEPS};
ghost use Rattle.refutation_logs.specs.Counts.{count_of, literal_count, step_count};
ghost use Rattle.refutation_logs.specs.Tables.{IsThere};

use crate::numbering::number;
use answer_claims::{SideKind, side_clause};
use atom_table::AtomTable;
use certificate_claims::{Step, clause_of_axiom};
use edit_rules::Framework;
use lists::Memory;
use meaning_atoms::{AtomLit, AxiomName};
use set_lists::NumSet;
use std::alloc::Global;

// How many literals a clause has, each counted once.
fn different_count(alloc: Global, clause: &[AtomLit]) -> Result<usize, Memory>
    ensures count { IfOk result (λ count. count ≡ literal_count clause.now) }
    ensures few { IfOk result (λ count. count < 4611686018427387904) }
{
    let mut atoms = AtomTable::new(alloc);
    let mut lits = Vec::new(alloc);
    let mut packed = Vec::new(alloc);
    number(&mut atoms, clause, &mut lits, &mut packed)?;
    let _vars = atoms.len();
    let lits = lits.as_slice();
    Ok(lits.len())
}

// How many literals an axiom has.
fn axiom_count(alloc: Global, framework: &Framework, name: &AxiomName) -> Result<usize, Memory>
    requires { IsAxiomOf (framework_of framework.now) name.now }
    ensures count { IfOk result (λ count. count ≡ literal_count (axiom_clause name.now)) }
    ensures few { IfOk result (λ count. count < 4611686018427387904) }
{
    let clause = clause_of_axiom(alloc, name)?;
    different_count(alloc, clause.as_slice())
}

// How many literals a side clause has.
fn side_count(
    alloc: Global,
    framework: &Framework,
    kind: SideKind,
    sets: &[NumSet],
    place: u32,
) -> Result<usize, Memory>
    requires from_one { 1 ≤ place }
    requires within { place ≤ length sets.now }
    ensures count { IfOk result (λ count. count
        ≡ literal_count (step_clause (sides_of (framework_of framework.now) kind sets.now) (Side place))) }
    ensures few { IfOk result (λ count. count < 4611686018427387904) }
{
    let clause = side_clause(alloc, framework, kind, &sets[place as usize - 1], place)?;
    different_count(alloc, clause.as_slice())
}

// How many literals the clause of a step has.
fn literal_count(
    alloc: Global,
    framework: &Framework,
    kind: SideKind,
    sets: &[NumSet],
    step: &Step,
) -> Result<usize, Memory>
    requires { IsThere (framework_of framework.now) (length sets.now) step.now }
    ensures count { IfOk result (λ count. count
        ≡ literal_count (step_clause (sides_of (framework_of framework.now) kind sets.now) step.now)) }
    ensures few { IfOk result (λ count. count < 4611686018427387904) }
{
    match step {
        Step::Axiom(name) => axiom_count(alloc, framework, name),
        Step::Side(place) => side_count(alloc, framework, kind, sets, *place),
        Step::Derived(literals, _) => different_count(alloc, literals.as_slice()),
    }
}

// How many clauses a step gives to the CNF.
fn step_count(step: &Step) -> usize
    ensures count { result ≡ step_count step.now }
    ensures few { result ≤ 1 }
{
    match step {
        Step::Axiom(_) => 1,
        Step::Side(_) => 1,
        Step::Derived(_, _) => 0,
    }
}

// How many clauses steps give.
fn given_count(steps: &[Step]) -> usize
    ensures count { result ≡ sum_by step_count steps.now }
    ensures few { result ≤ length steps.now }
{
    let mut count: usize = 0;
    for step in steps {
        count += step_count(step);
    }
    count
}

/// How many clauses the CNF of steps has, of which this is the last.
pub(crate) fn clause_count(
    alloc: Global,
    framework: &Framework,
    kind: SideKind,
    sets: &[NumSet],
    steps: &[Step],
    last: &Step,
) -> Result<u64, Memory>
    requires there { IsThere (framework_of framework.now) (length sets.now) last.now }
    requires few { length steps.now ≤ MAX_STEPS }
    ensures count { IfOk result (λ count. count
        ≡ count_of (sides_of (framework_of framework.now) kind sets.now) steps.now last.now) }
    ensures few { IfOk result (λ count. count < 9223372036854775808) }
{
    let units = literal_count(alloc, framework, kind, sets, last)?;
    Ok((given_count(steps) + units) as u64)
}
