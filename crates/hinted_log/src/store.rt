//! Steps in flat storage.

ghost use Rattle.std.specs.Prelude.{◌≡◌, ◌<◌, ◌-◌, [], ◌∷◌, ◌++◌, length, take, OnOk, OnErr, slice_get, slice_index_or};
ghost use Rattle.hinted_log.specs.Logs.{no_step, clauses_of};

use crate::clause_rows::ClauseRows;
use crate::step_kind::StepKind;
use lists::Memory;
use plain_lits::{PackedLit, Rows, StepId};
use std::alloc::Global;
use std::marker::Model;

/// Steps, each with its clause, its kind and its hints. The literals of all clauses lie in one array, and so do
/// all hints. Contracts see it as the list of the steps.

#[derive(Drop)]
pub(crate) struct Store {
    clauses: ClauseRows,
    kinds: Vec<StepKind>,
    hints: Rows<StepId>,
}

impl Model for Store {
    ghost use Rattle.std.specs.Prelude.{List};
    ghost use Rattle.hinted_log.specs.Logs.{Step, steps_of, AreParts};

    ghost Value = { List Step };

    ghost view = { λ s. steps_of s.clauses s.kinds.items s.hints };

    ghost invariant = { λ s. AreParts s.clauses s.kinds.items s.hints };
}

impl Store {
    /// No step, which takes no memory.
    pub(crate) fn new(alloc: Global) -> Store
        ensures { result ≡ [] }
    {
        Store {
            clauses: ClauseRows::new(alloc),
            kinds: Vec::new(alloc),
            hints: Rows::new(alloc),
        }
    }

    /// The number of steps.
    pub(crate) fn len(&self) -> usize
        ensures { result ≡ length self.now }
    {
        self.clauses.len()
    }

    /// The clauses of all steps.
    pub(crate) fn clauses(&self) -> &Rows<PackedLit>
        ensures { result.now ≡ clauses_of self.now }
    {
        self.clauses.rows()
    }

    /// The clause of the step at an index.
    pub(crate) fn clause(&self, index: usize) -> &[PackedLit]
        requires { index < length self.now }
        ensures { result.now ≡ (slice_index_or self.now index no_step).clause }
    {
        self.clauses.row(index)
    }

    /// The first literal of the clause of the step at an index, or none where that clause is empty.
    pub(crate) fn first(&self, index: usize) -> Option<PackedLit>
        requires { index < length self.now }
        ensures { result ≡ slice_get (slice_index_or self.now index no_step).clause 0 }
    {
        self.clauses.first(index)
    }

    /// The kind of the step at an index.
    pub(crate) fn kind(&self, index: usize) -> StepKind
        requires { index < length self.now }
        ensures { result ≡ (slice_index_or self.now index no_step).kind }
    {
        let kinds = self.kinds.as_slice();
        kinds[index]
    }

    /// The hints of the step at an index.
    pub(crate) fn hints(&self, index: usize) -> &[StepId]
        requires { index < length self.now }
        ensures { result.now ≡ (slice_index_or self.now index no_step).hints }
    {
        self.hints.row(index)
    }

    /// Adds a step at the end. After `Memory` the steps are as before.
    pub(crate) fn push(
        &mut self,
        clause: &[PackedLit],
        kind: StepKind,
        hints: &[StepId],
    ) -> Result<(), Memory>
        ensures ok { OnOk result (self.new ≡ self.old
            ++ record { clause = clause.now; kind = kind; hints = hints.now } ∷ []) }
        ensures err { OnErr result (self.new ≡ self.old) }
    {
        self.kinds.reserve(1)?;
        self.hints.push(hints)?;
        if self.clauses.push(clause).is_err() {
            self.hints.pop();
            return Err(Memory);
        }
        let _ = self.kinds.push(kind);
        Ok(())
    }

    /// Takes the last step away.
    pub(crate) fn pop(&mut self)
        requires { 0 < length self.old }
        ensures { self.new ≡ take (length self.old - 1) self.old }
    {
        let kept = self.clauses.len() - 1;
        self.clauses.pop();
        self.kinds.truncate(kept);
        self.hints.pop();
    }
}
