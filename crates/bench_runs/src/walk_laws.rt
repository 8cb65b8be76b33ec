//! What follows of a session's way through its lines. Each function does nothing; its contract is the law.

ghost use Rattle.bench_runs.specs.CoreWalks.{SessionsAreRuns};
ghost use Rattle.bench_runs.specs.WalkLaws.{AloneIsDetermined, FrontsAreMade, RecordsAreOwn};

/// Behind each line, the session's entries among those that its reply counts are the ones that its lines up to this one
/// made.
pub fn fronts_are_made()
    ensures { FrontsAreMade }
{}

/// A session keeps one record for each of its queries, and no step of its log is in two of them.
pub fn records_are_own()
    ensures { RecordsAreOwn }
{}

/// What one session alone is told is determined by its script and the framework, up to which right set is shown and
/// whether a budget sufficed.
pub fn alone_is_determined()
    ensures { AloneIsDetermined }
{}

/// Each session of a transcript is a run of the core: its edits are commits, its queries refreshes with steps of its
/// own log and answers, line by line, and the other sessions' edits come between.
pub fn sessions_are_runs()
    ensures { SessionsAreRuns }
{}
