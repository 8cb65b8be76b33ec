//! What holds of the script of a large input. The function does nothing; its contract is the law.

ghost use Rattle.bench_runs.specs.InputLaws.{SessionsHaveTheirs};

/// The lines of each of the four sessions are, by rising argument, those of the arguments that equal its number modulo
/// 4.
pub fn sessions_have_theirs()
    ensures { SessionsHaveTheirs }
{}
