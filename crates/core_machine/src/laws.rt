//! What holds of every run of the core, whatever the order of its steps. Each function does nothing; its contract is
//! the law.

ghost use Rattle.core_machine.specs.Laws.{AnswersAreRight, EachSeesMore, HistoryIsTaken, ImportsSpendNothing};
ghost use Rattle.core_machine.specs.Laws.{LogsAreTrue, PoolIsValid};
ghost use Rattle.core_machine.specs.ServerLaws.{AllAnswersAreRight, AllImportsSpendNothing, AllLogsAreTrue};
ghost use Rattle.core_machine.specs.ServerLaws.{EachHistoryIsTaken, EachSeesMoreOfItsOwn, OnePoolIsValid};
ghost use Rattle.core_machine.specs.ServerLaws.{OthersAreUntouched};

/// The history has what it had, and then the groups of edits that the run took, in order and each once; and none of
/// their edits is refused where they are made one after the other on the framework at the beginning.
pub fn history_is_what_was_taken()
    ensures { HistoryIsTaken }
{}

/// No session has ever seen less of the history than before, and none sees more than there is.
pub fn each_session_sees_more()
    ensures { EachSeesMore }
{}

/// Each step of a session's log is true in every world of every framework, beside the session's side clauses.
pub fn logs_are_true()
    ensures { LogsAreTrue }
{}

/// Each clause of the pool is true of every framework, and asks for no side clause.
pub fn pools_are_valid()
    ensures { PoolIsValid }
{}

/// Each answer is right on the framework after the edits that its session has seen, and has a certificate that the
/// check accepts, of which no step could be left out.
pub fn answers_are_right()
    ensures { AnswersAreRight }
{}

/// What a session takes from the pool, an axiom or a clause that follows by hints, spends nothing of its budget.
pub fn imports_spend_nothing()
    ensures { ImportsSpendNothing }
{}

/// With several frameworks, the history of each has the groups of edits that the run took on it, in order and each
/// once; and none of their edits is refused where they are made one after the other on that framework at the beginning.
pub fn each_history_is_what_was_taken()
    ensures { EachHistoryIsTaken }
{}

/// With several frameworks, no session has ever seen less of its framework's history than before, and none sees more
/// than there is.
pub fn each_session_sees_more_of_its_own()
    ensures { EachSeesMoreOfItsOwn }
{}

/// With several frameworks, each step of a session's log is true in every world of every framework, beside the
/// session's side clauses.
pub fn all_logs_are_true()
    ensures { AllLogsAreTrue }
{}

/// With several frameworks, each clause of the one pool is true of every framework, on whichever it was made, and asks
/// for no side clause.
pub fn one_pool_is_valid()
    ensures { OnePoolIsValid }
{}

/// With several frameworks, each answer is right on the session's own framework after the edits that it has seen, and
/// has a certificate that the check accepts, of which no step could be left out.
pub fn all_answers_are_right()
    ensures { AllAnswersAreRight }
{}

/// With several frameworks, what a session takes from the pool spends nothing of its budget, from whichever it came.
pub fn all_imports_spend_nothing()
    ensures { AllImportsSpendNothing }
{}

/// A step on one framework changes no edit and no turn of another, and nothing of what the sessions of another have.
pub fn others_are_untouched()
    ensures { OthersAreUntouched }
{}
