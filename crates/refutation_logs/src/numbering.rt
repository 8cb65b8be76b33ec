//! Clauses over atoms as clauses over numbered variables.

ghost use Rattle.std.specs.Prelude.{◌≡◌, OnOk};
ghost use Rattle.plain_lits.specs.Literals.{IsClauseOf};
ghost use Rattle.plain_lits.specs.CheckLaws.{IsImage};
ghost use Rattle.clause_bench.specs.Benches.{lit_over};
ghost use Rattle.refutation_logs.specs.Variables.{IsKnown, StandsFor, with_atoms};

use atom_table::AtomTable;
use lists::Memory;
use meaning_atoms::AtomLit;
use plain_lits::{Lit, PackedLit};

// Spells the literals of a clause by the variables of their atoms, which get variables where they have none.
fn spell(atoms: &mut AtomTable, clause: &[AtomLit], lits: &mut Vec<Lit>) -> Result<(), Memory>
    ensures spelled { OnOk result (IsImage (lit_over atoms.new) (IsKnown atoms.new) lits.new.items clause.now) }
    ensures appearance { OnOk result (atoms.new ≡ with_atoms atoms.old clause.now) }
{
    lits.clear();
    for literal in clause {
        let var = atoms.var_of(&literal.atom)?;
        lits.push(Lit {
            var,
            positive: literal.positive,
        })?;
    }
    Ok(())
}

// Puts literals in order, each once.
fn put_in_order(lits: &mut Vec<Lit>)
    ensures { IsClauseOf lits.old.items lits.new.items }
{
    lits.sort_unstable();
    lits.dedup();
}

// Packs literals.
fn pack(lits: &[Lit], packed: &mut Vec<PackedLit>) -> Result<(), Memory>
    ensures { OnOk result (packed.new.items ≡ lits.now) }
{
    packed.clear();
    for lit in lits {
        if lit.var >= PackedLit::VARS {
            return Err(Memory);
        }
        packed.push(PackedLit::pack(*lit))?;
    }
    Ok(())
}

/// Lists the literals that stand for a clause over atoms, which get variables where they have none: as they are, and
/// packed.
pub(crate) fn number(
    atoms: &mut AtomTable,
    clause: &[AtomLit],
    lits: &mut Vec<Lit>,
    packed: &mut Vec<PackedLit>,
) -> Result<(), Memory>
    ensures stands { OnOk result (StandsFor atoms.new clause.now lits.new.items) }
    ensures packed { OnOk result (packed.new.items ≡ lits.new.items) }
    ensures appearance { OnOk result (atoms.new ≡ with_atoms atoms.old clause.now) }
{
    spell(atoms, clause, lits)?;
    put_in_order(lits);
    pack(lits.as_slice(), packed)?;
    Ok(())
}
