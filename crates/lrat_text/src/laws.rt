//! The laws of refutations as text. Each function does nothing; its contract is the law.

ghost use Rattle.std.specs.Prelude.{◌≡◌, ◌≢◌, ℕ, List, Result, Err};
ghost use Rattle.lrat_text.specs.declared.fault.CnfFault.{CnfFault as CnfFaults};
ghost use Rattle.lrat_text.specs.declared.fault.CnfFault.TheVariants.{Memory as no_memory};
ghost use Rattle.lrat_text.specs.declared.fault.LratFault.{LratFault as LratFaults};
ghost use Rattle.lrat_text.specs.declared.fault.LratFault.TheVariants.{Memory as refused};
ghost use Rattle.lrat_text.specs.declared.verdict.Verdict.{Verdict as Verdicts};
ghost use Rattle.lrat_text.specs.declared.verdict.Verdict.TheVariants.{Verified};
ghost use Rattle.lrat_text.specs.CnfText.{Formula, IsCnfRead};
ghost use Rattle.lrat_text.specs.LratText.{IsChecked, IsToldOf};
ghost use Rattle.lrat_text.specs.Unsatisfiable.{IsUnsatisfiable};

/// Where the check of two texts tells `Verified`, no valuation makes every clause of the CNF true.
pub fn verified_is_unsatisfiable()
    ensures { (cnf lrat : List ℕ) → IsToldOf cnf lrat Verified → IsUnsatisfiable cnf }
{}

/// A text is one CNF alone, or has one first fault.
pub fn one_reading()
    ensures { (bytes : List ℕ) (one other : Result Formula CnfFaults) → IsCnfRead bytes one → IsCnfRead bytes other
        → one ≢ Err no_memory → other ≢ Err no_memory → one ≡ other }
{}

/// With a CNF a text comes to one verdict alone, or has one first fault.
pub fn one_verdict()
    ensures checked { (f : Formula) (bytes : List ℕ) (one other : Result Verdicts LratFaults) → IsChecked f bytes one
        → IsChecked f bytes other → one ≢ Err refused → other ≢ Err refused → one ≡ other }
    ensures told { (cnf lrat : List ℕ) (one other : Verdicts) → IsToldOf cnf lrat one → IsToldOf cnf lrat other
        → one ≡ other }
{}
