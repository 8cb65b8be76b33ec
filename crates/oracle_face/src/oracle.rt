//! What a loop asks of an oracle: sets that make goals true, and why there is none.

ghost use Rattle.std.specs.Prelude.{◌≡◌, ◌↔◌, IfOk, IsTrue};
ghost use Rattle.lists.specs.Members.{IsSetOf};
ghost use Rattle.certificate_claims.specs.Rights.{Accepts};
ghost use Rattle.certificate_claims.specs.SetLiterals.{members};
ghost use Rattle.oracle_face.specs.Logs.{IsKept};
ghost use Rattle.oracle_face.specs.Goals.{AreGoals, IsSide};
ghost use Rattle.oracle_face.specs.Growing.{HasRun, IsFound, NoSide, Obliges, OnlySide, closes, halt_of};
ghost use Rattle.oracle_face.specs.Kinds.{IsRanged, is_assumption_based};
ghost use Rattle.oracle_face.specs.Parts.{IsLargestPart};
ghost use Rattle.certificate_claims.specs.meaning_atoms.specs.declared.atom.Atom.TheVariants.{Cf};
ghost use Rattle.certificate_claims.specs.meaning_atoms.specs.Worlds.{HoldsOf};

use crate::face::{AskId, Found};
use lists::Memory;
use meaning_atoms::AtomLit;
use plain_lits::{Budget, Halt};
use set_lists::NumSet;
use std::alloc::Global;

/// Something that finds sets in a framework, and tells why it finds none. An oracle means its framework, its log with
/// its side clauses, and the clause that it kept where a budget was spent. Whatever a call answers, the framework stays,
/// and the log keeps all that it has.
pub trait Oracle {
    ghost use Rattle.std.specs.Prelude.{Option};
    ghost use Rattle.certificate_claims.specs.semantics.specs.Frameworks.{Framework};
    ghost use Rattle.oracle_face.specs.declared.face.Pending.{Pending};
    ghost use Rattle.oracle_face.specs.Logs.{OracleLog};

    /// The framework.
    ghost framework: { Self → Framework };
    /// The log, with its limit and its side clauses.
    ghost log: { Self → OracleLog };
    /// The clause in hand when the last budget was spent.
    ghost pending: { Self → Option Pending };
    /// Whatever else an oracle promises of its state after a call and before it. A loop keeps it, by the two laws
    /// below.
    ghost follows: { Self → Self → Type 0 };

    /// The numbers that sets are made of: the live arguments, or the assumptions.
    fn members(&self) -> &NumSet
        ensures value { result.now ≡ members (framework self.now) }
        ensures kept { IsKept (framework self.now) (log self.now) };

    /// Whether the framework is assumption-based.
    fn is_aba(&self) -> bool
        ensures { result ≡ is_assumption_based (framework self.now) };

    /// A set that makes each goal true, or a step of the log that refutes the goals: each of its literals is false by the
    /// facts or by a goal, and it reaches no side clause but those that are among the goals. Where they are refuted, one step at
    /// most is logged that only ends the search; every other step that is one's own takes a unit of the budget. After `Memory` the log
    /// may be longer by steps that no budget counts.
    fn find(&mut self, alloc: Global, goals: &[AtomLit], budget: &mut Budget) -> Result<Found, Halt>
        requires { AreGoals (framework self.old) (log self.old).sides goals.now }
        ensures found { IfOk result (IsFound (framework self.old) (log self.new) goals.now) }
        ensures run { HasRun NoSide (closes result) (framework self.old) (log self.old) (log self.new) (pending self.new)
            budget.old budget.new (halt_of result) }
        ensures framework { framework self.new ≡ framework self.old }
        ensures kept { IsKept (framework self.new) (log self.new) }
        ensures follows { follows self.old self.new };

    /// The number of a side clause, which is kept with the set that it is made from. Where the log has one with the same
    /// literals, that one's number is given, and nothing changes. A new one takes a unit of the budget. No step is logged
    /// that only ends a search.
    fn oblige(
        &mut self,
        alloc: Global,
        side: &[AtomLit],
        from: &NumSet,
        budget: &mut Budget,
    ) -> Result<AskId, Halt>
        requires { IsSide side.now }
        ensures obliges { IfOk result (Obliges side.now (log self.old) (log self.new)) }
        ensures run { HasRun (OnlySide side.now from.now) 0 (framework self.old) (log self.old) (log self.new)
            (pending self.new) budget.old budget.new (halt_of result) }
        ensures framework { framework self.new ≡ framework self.old }
        ensures kept { IsKept (framework self.new) (log self.new) }
        ensures follows { follows self.old self.new };

    /// The set with the members that it attacks.
    fn range(&self, alloc: Global, set: &NumSet) -> Result<NumSet, Memory>
        ensures { IfOk result (IsSetOf (IsRanged (framework self.now) set.now)) };

    /// The largest admissible set that is part of a conflict-free one and has none of the numbers.
    fn admissible_part(
        &self,
        alloc: Global,
        set: &NumSet,
        without: &NumSet,
    ) -> Result<NumSet, Memory>
        requires { HoldsOf (framework self.now) set.now Cf }
        ensures { IfOk result (IsLargestPart (framework self.now) set.now without.now) };

    /// Whether a set accepts an argument.
    fn accepts(&self, alloc: Global, goal: u32, set: &NumSet) -> Result<bool, Memory>
        ensures { IfOk result (λ accepts. IsTrue accepts ↔ Accepts (framework self.now) set.now goal) };

    /// What is promised holds where nothing is called.
    ghost stays: { (o : Self) → follows o o };

    /// What is promised of two calls, one after the other, is promised of both.
    ghost joins: { (before between after : Self) → follows before between → follows between after
        → follows before after };
}
