//! The steps of a refutation, checked over numbered variables and written.

ghost use Rattle.std.specs.Prelude.{◌≡◌, ◌<◌, ◌≤◌, ◌+◌, [], length, OnOk};
ghost use Rattle.edit_rules.specs.Kinds.{framework_of};
ghost use Rattle.certificate_claims.specs.declared.certificate.Step.TheVariants.{Axiom, Derived, Side};
ghost use Rattle.certificate_claims.specs.Refutations.{IsAxiomOf};
ghost use Rattle.answer_claims.specs.SideClauses.{sides_of};
ghost use Rattle.atom_table.specs.Numbering.{AreDifferent};
ghost use Rattle.hinted_log.specs.declared.log.TheConstants.{MAX_STEPS};
ghost use Rattle.lrat_writing.specs.Writers.{IsWriterOf};
ghost use Rattle.refutation_logs.specs.Logged.{AllHold, CanBeAdded};
ghost use Rattle.refutation_logs.specs.Tables.{AddsStepFor, IsLogged};
ghost use Rattle.refutation_logs.specs.Variables.{IsShown};

use crate::numbering::number;
use crate::used::hints_used;
use answer_claims::{SideKind, side_clause};
use atom_table::AtomTable;
use certificate_claims::{Step, clause_of_axiom};
use edit_rules::Framework;
use hinted_log::StepKind;
use lists::Memory;
use lrat_writing::Writer;
use meaning_atoms::{AtomLit, AxiomName};
use plain_lits::{Lit, PackedLit, Rows, StepId, Trail};
use set_lists::NumSet;
use std::alloc::Global;

/// The clauses of steps over numbered variables, and what the check of one more takes: the lists are used again for
/// each.
#[derive(Drop)]
pub(crate) struct Table {
    /// The atom of each variable.
    pub atoms: AtomTable,
    /// The clause of each step.
    pub clauses: Rows<PackedLit>,
    /// What the check assumes, which it takes back.
    pub trail: Trail,
    /// The literals of the step at hand.
    pub lits: Vec<Lit>,
    /// These, packed.
    pub packed: Vec<PackedLit>,
    /// The hints of the step at hand.
    pub hints: Vec<StepId>,
}

/// The table without steps.
pub(crate) fn new_table(alloc: Global) -> Table
    ensures atoms { result.atoms ≡ [] }
    ensures clauses { result.clauses ≡ [] }
    ensures idle { result.trail.lits ≡ [] }
{
    Table {
        atoms: AtomTable::new(alloc),
        clauses: Rows::new(alloc),
        trail: Trail::new(alloc),
        lits: Vec::new(alloc),
        packed: Vec::new(alloc),
        hints: Vec::new(alloc),
    }
}

// Adds an axiom.
fn add_axiom(
    alloc: Global,
    framework: &Framework,
    kind: SideKind,
    sets: &[NumSet],
    name: &AxiomName,
    table: &mut Table,
    writer: &mut Writer,
) -> Result<(), Memory>
    requires axiom { IsAxiomOf (framework_of framework.now) name.now }
    requires few { writer.old.given + writer.old.lines < 4294967296 }
    requires count { writer.old.count < 9223372036854775808 }
    requires idle { table.old.trail.lits ≡ [] }
    ensures { OnOk result (AddsStepFor (sides_of (framework_of framework.now) kind sets.now) (Axiom name.now)
        table.old table.new writer.old writer.new) }
{
    let given = clause_of_axiom(alloc, name)?;
    number(
        &mut table.atoms,
        given.as_slice(),
        &mut table.lits,
        &mut table.packed,
    )?;
    let packed = table.packed.as_slice();
    table.clauses.push(packed)?;
    writer.push(StepKind::Axiom, packed, &[])?;
    Ok(())
}

// Adds a side clause by its number.
fn add_side(
    alloc: Global,
    framework: &Framework,
    kind: SideKind,
    sets: &[NumSet],
    place: u32,
    table: &mut Table,
    writer: &mut Writer,
) -> Result<(), Memory>
    requires from_one { 1 ≤ place }
    requires within { place ≤ length sets.now }
    requires few { writer.old.given + writer.old.lines < 4294967296 }
    requires count { writer.old.count < 9223372036854775808 }
    requires idle { table.old.trail.lits ≡ [] }
    ensures { OnOk result (AddsStepFor (sides_of (framework_of framework.now) kind sets.now) (Side place)
        table.old table.new writer.old writer.new) }
{
    let given = side_clause(alloc, framework, kind, &sets[place as usize - 1], place)?;
    number(
        &mut table.atoms,
        given.as_slice(),
        &mut table.lits,
        &mut table.packed,
    )?;
    let packed = table.packed.as_slice();
    table.clauses.push(packed)?;
    writer.push(StepKind::Side, packed, &[])?;
    Ok(())
}

// Lists the steps of these numbers.
fn name(hints: &[u32], steps: &mut Vec<StepId>) -> Result<(), Memory>
    ensures { OnOk result (steps.new.items ≡ hints.now) }
{
    steps.clear();
    for hint in hints {
        steps.push(StepId::new(*hint))?;
    }
    Ok(())
}

// Makes room for the variables of atoms.
fn make_room(atoms: &AtomTable, trail: &mut Trail) -> Result<(), Memory>
    ensures room { OnOk result (length atoms.now ≤ trail.new.vars) }
    ensures different { AreDifferent atoms.now }
    ensures idle { trail.new.lits ≡ trail.old.lits }
{
    trail.make_room(atoms.len())?;
    Ok(())
}

// Adds a clause that follows by hints.
fn add_derived(
    framework: &Framework,
    kind: SideKind,
    sets: &[NumSet],
    literals: &[AtomLit],
    hints: &[u32],
    table: &mut Table,
    writer: &mut Writer,
) -> Result<(), Memory>
    requires shown { IsShown table.old.atoms table.old.clauses literals.now hints.now }
    requires few { writer.old.given + writer.old.lines < 4294967296 }
    requires count { writer.old.count < 9223372036854775808 }
    requires idle { table.old.trail.lits ≡ [] }
    ensures { OnOk result (AddsStepFor (sides_of (framework_of framework.now) kind sets.now)
        (Derived literals.now hints.now) table.old table.new writer.old writer.new) }
{
    name(hints, &mut table.hints)?;
    number(
        &mut table.atoms,
        literals,
        &mut table.lits,
        &mut table.packed,
    )?;
    make_room(&table.atoms, &mut table.trail)?;
    let lits = table.lits.as_slice();
    let steps = table.hints.as_slice();
    let used = hints_used(&mut table.trail, &table.clauses, lits, steps);
    let kept = &steps[..used];
    let packed = table.packed.as_slice();
    table.clauses.push(packed)?;
    writer.push(StepKind::Derived, packed, kept)?;
    Ok(())
}

// Adds a step.
fn add_step(
    alloc: Global,
    framework: &Framework,
    kind: SideKind,
    sets: &[NumSet],
    step: &Step,
    table: &mut Table,
    writer: &mut Writer,
) -> Result<(), Memory>
    requires step { CanBeAdded (framework_of framework.now) (length sets.now) table.old.atoms table.old.clauses
        step.now }
    requires few { writer.old.given + writer.old.lines < 4294967296 }
    requires count { writer.old.count < 9223372036854775808 }
    requires idle { table.old.trail.lits ≡ [] }
    ensures { OnOk result (AddsStepFor (sides_of (framework_of framework.now) kind sets.now) step.now
        table.old table.new writer.old writer.new) }
{
    match step {
        Step::Axiom(name) => add_axiom(alloc, framework, kind, sets, name, table, writer),
        Step::Side(number) => add_side(alloc, framework, kind, sets, *number, table, writer),
        Step::Derived(literals, hints) => {
            let (literals, hints) = (literals.as_slice(), hints.as_slice());
            add_derived(framework, kind, sets, literals, hints, table, writer)
        }
    }
}

/// Adds the steps of a refutation, which stand beside the side clauses of sets, to an empty table and a writer that has
/// written none. `Memory` says that an allocation was refused.
pub(crate) fn add_steps(
    alloc: Global,
    framework: &Framework,
    kind: SideKind,
    sets: &[NumSet],
    steps: &[Step],
    table: &mut Table,
    writer: &mut Writer,
) -> Result<(), Memory>
    requires hold { AllHold (framework_of framework.now)
        (sides_of (framework_of framework.now) kind sets.now) steps.now }
    requires few { length steps.now ≤ MAX_STEPS }
    requires atoms { table.old.atoms ≡ [] }
    requires clauses { table.old.clauses ≡ [] }
    requires idle { table.old.trail.lits ≡ [] }
    requires none { IsWriterOf [] writer.old }
    requires count { writer.old.count < 9223372036854775808 }
    ensures logged { OnOk result (IsLogged (sides_of (framework_of framework.now) kind sets.now) steps.now
        table.new writer.new) }
    ensures count { OnOk result (writer.new.count ≡ writer.old.count) }
    ensures few { length steps.now ≤ MAX_STEPS }
{
    for index in 0..steps.len() {
        add_step(alloc, framework, kind, sets, &steps[index], table, writer)?;
    }
    Ok(())
}
