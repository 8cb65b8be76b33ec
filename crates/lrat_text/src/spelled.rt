//! Clauses of which only the variables that occur have room.

ghost use Rattle.std.specs.Prelude.{◌≡◌, ◌≤◌, IfOk, OnOk};
ghost use Rattle.lrat_text.specs.declared.cnf.TheConstants.{MAX_VARIABLE};
ghost use Rattle.lrat_text.specs.CnfText.{formula};
ghost use Rattle.lrat_text.specs.Spelling.{spelled, spelled_clause, spelled_clauses};
ghost use Rattle.lrat_text.specs.Tables.{IsBelow, Takes};

use clause_bench::Bench;
use lists::Memory;
use meaning_atoms::{Atom, AtomLit};
use plain_lits::{Lit, PackedLit, Rows, StepId};
use std::alloc::Global;
use std::marker::Model;

/// Clauses over atoms that stand for variables. A variable gets room where it first occurs, so that they take the
/// memory of their literals, however many variables there are.
pub(crate) struct Spelled {
    vars: u32,
    bench: Bench,
    // False where memory was refused while a clause was added; the clauses are lost then.
    is_whole: bool,
    clause: Vec<AtomLit>,
}

// By hand, so that a drop is one call (docs/PROVING.md).
impl Drop for Spelled {
    fn drop(self) {
        let Spelled {
            vars: _,
            bench: _,
            is_whole: _,
            clause: _,
        } = self;
    }
}

impl Model for Spelled {
    ghost use Rattle.lrat_text.specs.CnfText.{Formula, formula};
    ghost use Rattle.lrat_text.specs.Spelling.{clauses_of};
    ghost use Rattle.lrat_text.specs.Tables.{IsSpelledTable};

    ghost Value = { Formula };

    ghost view = { λ s. formula s.vars (clauses_of s.bench) };

    ghost invariant = { λ s. IsSpelledTable s.vars s.is_whole s.bench };
}

// The literal over atoms that stands for a literal.
fn spell_one(lit: Lit) -> AtomLit
    requires { lit.var ≤ 2147483647 }
    ensures { result ≡ spelled lit }
{
    AtomLit {
        atom: Atom::Member(lit.var as u32),
        positive: lit.positive,
    }
}

// Puts the literals over atoms that stand for a clause into a list, in place of what it has.
fn spell(into: &mut Vec<AtomLit>, clause: &[Lit]) -> Result<(), Memory>
    requires { IsBelow 2147483647 clause.now }
    ensures { OnOk result (into.new.items ≡ spelled_clause clause.now) }
{
    into.clear();
    for lit in clause {
        into.push(spell_one(*lit))?;
    }
    Ok(())
}

// The same of a clause in flat storage.
fn spell_row(into: &mut Vec<AtomLit>, clause: &[PackedLit]) -> Result<(), Memory>
    ensures { OnOk result (into.new.items ≡ spelled_clause clause.now) }
{
    into.clear();
    for packed in clause {
        into.push(spell_one(packed.lit()))?;
    }
    Ok(())
}

// The clauses of a CNF as steps.
fn bench_of(
    alloc: Global,
    clauses: &Rows<PackedLit>,
    into: &mut Vec<AtomLit>,
) -> Result<Bench, Memory>
    ensures { IfOk result (λ bench. bench ≡ spelled_clauses clauses.now) }
{
    let mut bench = Bench::new(alloc);
    for index in 0..clauses.len() {
        spell_row(into, clauses.row(index))?;
        bench.push(into.as_slice())?;
    }
    Ok(bench)
}

impl Spelled {
    /// These clauses.
    pub(crate) fn new(alloc: Global, vars: u32, rows: &Rows<PackedLit>) -> Result<Spelled, Memory>
        requires { vars ≤ MAX_VARIABLE }
        ensures { IfOk result (λ s. s ≡ formula vars rows.now) }
    {
        let mut clause = Vec::new(alloc);
        let bench = bench_of(alloc, rows, &mut clause)?;
        Ok(Spelled {
            vars,
            bench,
            is_whole: true,
            clause,
        })
    }

    /// The number up to which there are variables.
    pub(crate) fn vars(&self) -> u32
        ensures { result ≡ self.now.vars }
    {
        self.vars
    }

    /// Adds a clause if the check of its hints takes it, and answers whether it does.
    pub(crate) fn derive(&mut self, clause: &[Lit], hints: &[StepId]) -> Result<bool, Memory>
        requires { IsBelow self.old.vars clause.now }
        ensures { IfOk result (Takes self.old clause.now hints.now self.new) }
    {
        spell(&mut self.clause, clause)?;
        if !self.is_whole {
            return Err(Memory);
        }
        self.is_whole = false;
        let passes = self.bench.derive(self.clause.as_slice(), hints)?;
        self.is_whole = true;
        Ok(passes)
    }
}
