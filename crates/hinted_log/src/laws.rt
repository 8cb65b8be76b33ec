//! The laws of logs. Each function does nothing; its contract is the law.

ghost use Rattle.std.specs.Prelude.{List};
ghost use Rattle.hinted_log.specs.Logs.{Step, IsProof};
ghost use Rattle.hinted_log.specs.Follows.{StepsFollow};

/// Each step of a log is true wherever the axioms and sides that it reaches are, and so wherever all are.
pub fn steps_follow()
    ensures { (steps : List Step) → IsProof steps → StepsFollow steps }
{}
