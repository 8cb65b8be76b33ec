//! What holds of a session's queries and of what it keeps. Each function does nothing; its contract is the law.

ghost use Rattle.session_core.specs.CoreRuns.{AsksAreRuns};
ghost use Rattle.session_core.specs.EditRuns.{EditsAreRuns};
ghost use Rattle.session_core.specs.Laws.{AskedIsReadable, ReadableStays};
ghost use Rattle.session_core.specs.ShareRuns.{SharesAreRuns};

/// The reply to a query can be read off the session's log behind it.
pub fn replies_can_be_read()
    ensures { AskedIsReadable }
{}

/// It can be read off each log that has grown from there, so off the log that is left when the session ends.
pub fn replies_stay_readable()
    ensures { ReadableStays }
{}

/// A query is a run of the core: a refresh, steps of the session's own log, and the answer that the reply tells. A
/// reply that there are too many extensions doesn't tell them: the answer then tells some that the log shows.
pub fn asks_are_runs()
    ensures { AsksAreRuns }
{}

/// The entry that a session hands over for a step of its log is one that the core shares for this step, at each index
/// of the pool that is empty.
pub fn shares_are_runs()
    ensures { SharesAreRuns }
{}

/// A group of edits is a run of the core: one turn, at which its entry comes where the reply says that it was taken.
pub fn edits_are_runs()
    ensures { EditsAreRuns }
{}
