//! Writing steps one after another.

ghost use Rattle.std.specs.Prelude.{◌≡◌, ◌<◌, ◌+◌, ◌++◌, ◌∷◌, [], List, length, map, IfOk, OnOk};
ghost use Rattle.std.specs.List.{flat_map};
ghost use Rattle.hinted_log.specs.Logs.{Step};
ghost use Rattle.lrat_text.specs.Checking.{step_line};
ghost use Rattle.lrat_writing.specs.Texts.{header_line, step_text};
ghost use Rattle.lrat_writing.specs.Pieces.{clause_piece, unit_piece};
ghost use Rattle.lrat_writing.specs.Walks.{cnf_clauses, id_in, last_clause, shifted_clause};
ghost use Rattle.lrat_writing.specs.Writers.{AreTextsOf, IsWriterOf, step_of};

use crate::clauses::{push_clause, push_units};
use crate::steps::{id_of, push_final, push_line};
use hinted_log::StepKind;
use lists::{Bytes, Memory};
use plain_lits::{PackedLit, StepId};
use std::alloc::Global;

/// The texts that stand for steps.
pub struct Written {
    /// The clauses that are given, and the negation of each literal of the last step.
    pub cnf: Bytes,
    /// The derived steps, and the line without literals.
    pub lrat: Bytes,
    /// How many clauses the CNF has.
    pub clauses: usize,
    /// How many lines there are.
    pub lines: usize,
}

// By hand, so that a drop is one call (docs/PROVING.md).
impl Drop for Written {
    fn drop(self) {
        let Written {
            cnf: _,
            lrat: _,
            clauses: _,
            lines: _,
        } = self;
    }
}

/// Steps that are written one after another, each where it comes: the lines of those that are given, and of the others.
#[derive(Drop)]
pub struct Writer {
    /// How many clauses the CNF is to have: the ids of the lines go on from there.
    pub count: u64,
    /// The lines of the steps that are given.
    pub cnf: Vec<u8>,
    /// The lines of the others.
    pub lrat: Vec<u8>,
    /// The id of each step.
    pub ids: Vec<u64>,
    /// How many steps are given.
    pub given: u64,
    /// How many are not.
    pub lines: u64,
}

// Adds a step that is given: its id is the number of its clause.
fn push_given(
    cnf: &mut Vec<u8>,
    clause: &[PackedLit],
    ids: &mut Vec<u64>,
    given: &mut u64,
) -> Result<(), Memory>
    requires { given.old < 4294967296 }
    ensures cnf { OnOk result (cnf.new.items ≡ cnf.old.items ++ clause_piece clause.now) }
    ensures ids { OnOk result (ids.new.items ≡ ids.old.items ++ (given.old + 1) ∷ []) }
    ensures given { OnOk result (given.new ≡ given.old + 1) }
{
    push_clause(cnf, clause)?;
    *given += 1;
    ids.push(*given)?;
    Ok(())
}

// Adds a derived step.
fn push_derived(
    lrat: &mut Vec<u8>,
    clause: &[PackedLit],
    hints: &[StepId],
    count: u64,
    ids: &mut Vec<u64>,
    lines: &mut u64,
) -> Result<(), Memory>
    requires few { lines.old < 4294967296 }
    requires count { count < 9223372036854775808 }
    ensures lrat { OnOk result (lrat.new.items ≡ lrat.old.items ++ step_text (step_line (count + lines.old + 1)
        (shifted_clause clause.now) (map (id_in ids.old.items) hints.now))) }
    ensures ids { OnOk result (ids.new.items ≡ ids.old.items ++ (count + lines.old + 1) ∷ []) }
    ensures lines { OnOk result (lines.new ≡ lines.old + 1) }
{
    let id = count + *lines + 1;
    push_line(lrat, id, clause, ids.as_slice(), hints)?;
    ids.push(id)?;
    *lines += 1;
    Ok(())
}

// The CNF: its header, the lines of the clauses that are given, and those of the negations of a clause's literals.
fn whole_cnf(
    alloc: Global,
    vars: u32,
    count: u64,
    given: &[u8],
    last: &[PackedLit],
) -> Result<Vec<u8>, Memory>
    ensures { IfOk result (λ text. text.items
        ≡ (header_line vars count ++ given.now) ++ flat_map unit_piece last.now) }
{
    let header = format!(in alloc; "p cnf {vars} {count}\n")?;
    let mut text = header.into_bytes();
    text.extend_from_slice(given)?;
    push_units(&mut text, last)?;
    Ok(text)
}

impl Writer {
    /// No step, before a CNF of so many clauses.
    pub fn new(alloc: Global, count: u64) -> Writer
        ensures none { IsWriterOf [] result }
        ensures count { result.count ≡ count }
    {
        Writer {
            count,
            cnf: Vec::new(alloc),
            lrat: Vec::new(alloc),
            ids: Vec::new(alloc),
            given: 0,
            lines: 0,
        }
    }

    /// Adds a step. One that is given needs no hints.
    pub fn push(
        &mut self,
        kind: StepKind,
        clause: &[PackedLit],
        hints: &[StepId],
    ) -> Result<(), Memory>
        requires few { self.old.given + self.old.lines < 4294967296 }
        requires count { self.old.count < 9223372036854775808 }
        ensures step { OnOk result ((steps : List Step) → IsWriterOf steps self.old
            → IsWriterOf (steps ++ step_of kind clause.now hints.now ∷ []) self.new) }
        ensures count { OnOk result (self.new.count ≡ self.old.count) }
    {
        let count = self.count;
        match kind {
            StepKind::Axiom => push_given(&mut self.cnf, clause, &mut self.ids, &mut self.given),
            StepKind::Side => push_given(&mut self.cnf, clause, &mut self.ids, &mut self.given),
            StepKind::Derived => push_derived(
                &mut self.lrat,
                clause,
                hints,
                count,
                &mut self.ids,
                &mut self.lines,
            ),
        }
    }

    /// The texts, with the negations of the last step's literals and the line without literals.
    pub fn finish(self, alloc: Global, vars: u32, last: &[PackedLit]) -> Result<Written, Memory>
        requires few { self.given + self.lines < 4294967296 }
        requires count { self.count < 9223372036854775808 }
        ensures { IfOk result (λ w. (steps : List Step) → IsWriterOf steps self
            → self.count ≡ length (cnf_clauses steps) → last.now ≡ last_clause steps → AreTextsOf vars steps w) }
    {
        let Writer {
            count,
            cnf: body,
            lrat: lines_text,
            ids,
            given,
            lines,
        } = self;
        let cnf = whole_cnf(alloc, vars, count, body.as_slice(), last)?;
        let mut lrat = lines_text;
        let id = id_of(ids.as_slice(), (given + lines) as usize);
        push_final(&mut lrat, count + lines + 1, given + 1, last.len(), id)?;
        Ok(Written {
            cnf: Bytes::from_vec(cnf),
            lrat: Bytes::from_vec(lrat),
            clauses: count as usize,
            lines: lines as usize + 1,
        })
    }
}
