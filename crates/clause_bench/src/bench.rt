//! The table of clauses.

ghost use Rattle.std.specs.Prelude.{◌≡◌, ◌≤◌, ℕ, [], ◌∷◌, ◌++◌, length, Contains, Ok, IfOk, OnOk};
ghost use Rattle.plain_lits.specs.Literals.{negation};
ghost use Rattle.plain_lits.specs.HintCheck.{Checks};
ghost use Rattle.plain_lits.specs.Checking.{HasRoomFor, HaveRoomFor};
ghost use Rattle.meaning_atoms.specs.Literals.{negated};
ghost use Rattle.atom_table.specs.Numbering.{AreDifferent};
ghost use Rattle.clause_bench.specs.Benches.{IsBench, Spells, HasGrown, Takes};

use atom_table::AtomTable;
use lists::Memory;
use meaning_atoms::AtomLit;
use plain_lits::check::check;
use plain_lits::{Lit, PackedLit, Rows, StepId, Trail};
use std::alloc::Global;
use std::marker::Model;

/// The clauses of steps in order. Atoms are numbered as they come, so that the check compares numbers; what it assumes
/// is taken back after each call. A step costs the literals of its clause and of those that its hints name.
pub struct Bench {
    atoms: AtomTable,
    rows: Rows<PackedLit>,
    trail: Trail,
    lits: Vec<Lit>,
    packed: Vec<PackedLit>,
}

// By hand, so that a drop is one call (docs/PROVING.md).
impl Drop for Bench {
    fn drop(self) {
        let Bench {
            atoms: _,
            rows: _,
            trail: _,
            lits: _,
            packed: _,
        } = self;
    }
}

impl Model for Bench {
    ghost use Rattle.std.specs.Prelude.{List};
    ghost use Rattle.meaning_atoms.specs.declared.atom.AtomLit.{AtomLit};
    ghost use Rattle.atom_table.specs.Numbering.{AreDifferent};
    ghost use Rattle.clause_bench.specs.Benches.{clauses_over, IsBench};

    ghost Value = { List (List AtomLit) };

    ghost view = { λ b. clauses_over b.atoms b.rows };

    ghost invariant = { λ b. IsBench b.atoms b.rows b.trail.lits b.trail.vars };
}

impl Bench {
    /// No clause, which takes no memory.
    pub fn new(alloc: Global) -> Bench
        ensures { result ≡ [] }
    {
        Bench {
            atoms: AtomTable::new(alloc),
            rows: Rows::new(alloc),
            trail: Trail::new(alloc),
            lits: Vec::new(alloc),
            packed: Vec::new(alloc),
        }
    }

    /// Adds a clause.
    pub fn push(&mut self, clause: &[AtomLit]) -> Result<(), Memory>
        ensures { OnOk result (self.new ≡ self.old ++ clause.now ∷ []) }
    {
        prepare(
            &mut self.atoms,
            &mut self.trail,
            clause,
            &mut self.lits,
            &mut self.packed,
        )?;
        self.rows.push(self.packed.as_slice())?;
        Ok(())
    }

    /// How many clauses there are.
    pub fn len(&self) -> usize
        ensures { result ≡ length self.now }
    {
        self.rows.len()
    }

    /// Adds a clause if the check of its hints takes it, and answers whether it does.
    pub fn derive(&mut self, clause: &[AtomLit], hints: &[StepId]) -> Result<bool, Memory>
        ensures { IfOk result (Takes ((used : ℕ) × Checks negated self.old clause.now hints.now (Ok used))
            self.old clause.now self.new) }
    {
        prepare(
            &mut self.atoms,
            &mut self.trail,
            clause,
            &mut self.lits,
            &mut self.packed,
        )?;
        match check(&mut self.trail, &self.rows, self.lits.as_slice(), hints) {
            Err(_) => Ok(false),
            Ok(_) => {
                self.rows.push(self.packed.as_slice())?;
                Ok(true)
            }
        }
    }
}

/// Spells a clause by the variables of its atoms, and makes room for them where the check assumes literals.
fn prepare(
    atoms: &mut AtomTable,
    trail: &mut Trail,
    clause: &[AtomLit],
    lits: &mut Vec<Lit>,
    packed: &mut Vec<PackedLit>,
) -> Result<(), Memory>
    ensures spelled { OnOk result (Spells atoms.new lits.new.items clause.now) }
    ensures packed { OnOk result (packed.new.items ≡ lits.new.items) }
    ensures different { OnOk result (AreDifferent atoms.new) }
    ensures room { OnOk result (length atoms.new ≤ trail.new.vars) }
    ensures grown { HasGrown atoms.old atoms.new }
    ensures idle { trail.new.lits ≡ trail.old.lits }
    ensures more { trail.old.vars ≤ trail.new.vars }
{
    spell(atoms, clause, lits, packed)?;
    trail.make_room(atoms.len())?;
    Ok(())
}

/// Spells a clause by the variables of its atoms, which get variables where they have none.
fn spell(
    atoms: &mut AtomTable,
    clause: &[AtomLit],
    lits: &mut Vec<Lit>,
    packed: &mut Vec<PackedLit>,
) -> Result<(), Memory>
    ensures spelled { OnOk result (Spells atoms.new lits.new.items clause.now) }
    ensures packed { OnOk result (packed.new.items ≡ lits.new.items) }
    ensures grown { HasGrown atoms.old atoms.new }
{
    lits.clear();
    packed.clear();
    for literal in clause {
        let var = atoms.var_of(&literal.atom)?;
        if var >= PackedLit::VARS {
            return Err(Memory);
        }
        let lit = Lit {
            var,
            positive: literal.positive,
        };
        lits.push(lit)?;
        packed.push(PackedLit::pack(lit))?;
    }
    Ok(())
}
