//! Literals over atoms and literals over variables, by the table.

ghost use Rattle.std.specs.Prelude.{◌≡◌, ◌<◌, ◌∷◌, [], length, filter, IfOk, OnOk, Contains};
ghost use Rattle.plain_lits.specs.declared.lit.Lit.{Lit as ALit};
ghost use Rattle.semantics.specs.Frameworks.{Framework};
ghost use Rattle.atom_solver.specs.Assumed.{AreFacts, AreSomeFacts};
ghost use Rattle.atom_solver.specs.Lifted.{lit_of};
ghost use Rattle.atom_solver.specs.Tables.{AddsLits, Extends, told};

use atom_table::AtomTable;
use lists::{Items, Memory};
use meaning_atoms::{Atom, AtomLit};
use oracle_face::Encoding;
use plain_lits::{Lit, PackedLit};
use sat_core::Solver;
use std::alloc::Global;

/// The literals that have atoms, over atoms.
pub(crate) fn over_atoms(
    alloc: Global,
    table: &AtomTable,
    lits: &[Lit],
) -> Result<Items<AtomLit>, Memory>
    ensures { IfOk result (λ literals. literals ≡ told table.now lits.now) }
{
    let mut literals = Items::new(alloc);
    for lit in lits {
        if lit.var < table.len() {
            literals.push(AtomLit {
                atom: table.atom_at(lit.var),
                positive: lit.positive,
            })?;
        }
    }
    Ok(literals)
}

/// The literals of a clause of the log that have atoms, over atoms.
pub(crate) fn packed_over_atoms(
    alloc: Global,
    table: &AtomTable,
    clause: &[PackedLit],
) -> Result<Items<AtomLit>, Memory>
    ensures { IfOk result (λ literals. literals ≡ told table.now clause.now) }
{
    let mut literals = Items::new(alloc);
    for packed in clause {
        let lit = packed.lit();
        if lit.var < table.len() {
            literals.push(AtomLit {
                atom: table.atom_at(lit.var),
                positive: lit.positive,
            })?;
        }
    }
    Ok(literals)
}

/// Adds the literal that stands for a literal over an atom. An atom without a variable gets one; a search decides
/// members first, and takes them to be true at first.
fn push_lit_for(
    table: &mut AtomTable,
    solver: &mut Solver,
    literal: &AtomLit,
    lits: &mut Vec<Lit>,
) -> Result<(), Memory>
    ensures table { Extends (literal.now ∷ []) table.old table.new }
    ensures solver { solver.new ≡ solver.old }
    ensures ok { OnOk result (AddsLits table.new (literal.now ∷ []) lits.old.items lits.new.items) }
{
    let before = table.len();
    let var = table.var_of(&literal.atom)?;
    if var >= before {
        if let Atom::Member(_) = literal.atom {
            solver.declare(Lit {
                var,
                positive: true,
            })?;
        }
    }
    lits.push(Lit {
        var,
        positive: literal.positive,
    })?;
    Ok(())
}

/// Adds the literals that stand for literals over atoms, in their order.
pub(crate) fn push_lits_for(
    table: &mut AtomTable,
    solver: &mut Solver,
    literals: &[AtomLit],
    lits: &mut Vec<Lit>,
) -> Result<(), Memory>
    ensures table { Extends literals.now table.old table.new }
    ensures solver { solver.new ≡ solver.old }
    ensures ok { OnOk result (AddsLits table.new literals.now lits.old.items lits.new.items) }
{
    for literal in literals {
        push_lit_for(table, solver, literal, lits)?;
    }
    Ok(())
}

/// Has a search decide before members that the set attacks, or has in its range, what the literal says so of.
fn prefer_attack(table: &AtomTable, solver: &mut Solver, lit: Lit) -> Result<(), Memory>
    ensures { solver.new ≡ solver.old }
{
    if !lit.positive || lit.var >= table.len() {
        return Ok(());
    }
    match table.atom_at(lit.var) {
        Atom::Tail(_, _) | Atom::Range(_) => solver.prioritize(lit),
        _ => Ok(()),
    }
}

/// The same of each of the literals.
pub(crate) fn prefer_attacks(
    table: &AtomTable,
    solver: &mut Solver,
    lits: &[Lit],
) -> Result<(), Memory>
    ensures { solver.new ≡ solver.old }
{
    for lit in lits {
        prefer_attack(table, solver, *lit)?;
    }
    Ok(())
}

/// Whether a literal wants a conflict-free set, or something in the range.
fn wants_range(table: &AtomTable, lit: Lit) -> bool {
    if !lit.positive || lit.var >= table.len() {
        return false;
    }
    matches!(table.atom_at(lit.var), Atom::Cf | Atom::Range(_))
}

/// Has a search begin with members true, unless it is for a conflict-free set or for a range: such a search goes on
/// from the last set, of which nearly all can stay.
pub(crate) fn reset_phases(table: &AtomTable, solver: &mut Solver, assumed: &Vec<Lit>)
    ensures { solver.new ≡ solver.old }
{
    for lit in assumed.as_slice() {
        if wants_range(table, *lit) {
            return;
        }
    }
    solver.reset_phases();
}

/// Finds the literals of all variables that stand for facts, as the framework has them.
pub(crate) fn assume_facts<E: Encoding>(
    table: &AtomTable,
    plain: &E::Plain,
    assumed: &mut Vec<Lit>,
) -> Result<(), Memory>
    ensures { OnOk result (AreFacts (E.framework plain.now) table.now (length table.now) assumed.new.items) }
{
    assumed.clear();
    for var in 0..table.len() {
        let atom = table.atom_at(var);
        if let Some(positive) = E::fact(plain, &atom) {
            assumed.push(Lit { var, positive })?;
        }
    }
    Ok(())
}

/// Adds the literal of an atom that has a variable and whose value the framework fixes.
fn assume_fact<E: Encoding>(
    table: &AtomTable,
    plain: &E::Plain,
    atom: &Atom,
    assumed: &mut Vec<Lit>,
) -> Result<(), Memory>
    requires { AreSomeFacts (E.framework plain.now) table.now assumed.old.items }
    ensures { OnOk result (AreSomeFacts (E.framework plain.now) table.now assumed.new.items) }
{
    let Some(var) = table.find(atom) else {
        return Ok(());
    };
    let Some(value) = E::fact(plain, atom) else {
        return Ok(());
    };
    assumed.push(Lit {
        var,
        positive: value,
    })?;
    Ok(())
}

/// Finds the literals of those of some atoms whose values the framework fixes.
pub(crate) fn assume_some<E: Encoding>(
    table: &AtomTable,
    plain: &E::Plain,
    atoms: &[Atom],
    assumed: &mut Vec<Lit>,
) -> Result<(), Memory>
    ensures { OnOk result (AreSomeFacts (E.framework plain.now) table.now assumed.new.items) }
{
    assumed.clear();
    for atom in atoms {
        assume_fact::<E>(table, plain, atom, assumed)?;
    }
    Ok(())
}
