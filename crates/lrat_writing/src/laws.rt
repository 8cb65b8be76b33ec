//! The laws of what is written. Each function does nothing; its contract is the law.

ghost use Rattle.std.specs.Prelude.{◌<◌, ◌≤◌, List, length};
ghost use Rattle.lrat_text.specs.declared.cnf.TheConstants.{MAX_VARIABLE};
ghost use Rattle.plain_lits.specs.Literals.{LitsRise};
ghost use Rattle.hinted_log.specs.Logs.{Step, IsProof};
ghost use Rattle.lrat_text.specs.Checking.{StepLine, ComesTo, steps_of};
ghost use Rattle.lrat_text.specs.CnfText.{Formula, IsFormula, IsCnfText};
ghost use Rattle.lrat_text.specs.LratText.{IsLratText};
ghost use Rattle.lrat_text.specs.declared.verdict.Verdict.TheVariants.{Verified};
ghost use Rattle.lrat_writing.specs.Texts.{cnf_text, lrat_text, AreWritable};
ghost use Rattle.lrat_writing.specs.Walks.{cnf_clauses, last_clause, step_lines};

/// The text of a CNF reads as the CNF.
pub fn cnf_reads_back()
    ensures { (f : Formula) → IsFormula f → IsCnfText (cnf_text f) f }
{}

/// The text of steps reads as the steps.
pub fn refutation_reads_back()
    ensures { (f : Formula) (steps : List StepLine) → f.vars ≤ MAX_VARIABLE → AreWritable f.vars (length f.clauses) steps
        → IsLratText f (lrat_text steps) steps }
{}

/// The lines that stand for a log, whose last clause has no literal twice, come to `Verified` over the clauses that
/// stand for it.
pub fn log_is_verified()
    ensures { (steps : List Step) → IsProof steps → 0 < length steps → LitsRise (last_clause steps)
        → ComesTo (steps_of (cnf_clauses steps)) (step_lines steps) Verified }
{}
