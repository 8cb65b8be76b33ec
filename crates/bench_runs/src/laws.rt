//! What holds of every transcript of a large input. Each function does nothing; its contract is the law.

ghost use Rattle.bench_runs.specs.Laws.{EditsAreTaken, NoneIsGrounded};

/// Whatever the order of the sessions' turns, each of their edits is taken, and all of them leave the framework that
/// there was.
pub fn edits_are_taken()
    ensures { EditsAreTaken }
{}

/// The grounded set of that framework is empty, since each argument has an attacker.
pub fn none_is_grounded()
    ensures { NoneIsGrounded }
{}
