//! What holds of a session's log. Each function does nothing; its contract is the law.

ghost use Rattle.session_log.specs.Laws.{AxiomsSpendNothing, AxiomsStay, ClosedRefutesClaim, ClosedRefutesGoals};
ghost use Rattle.session_log.specs.Laws.{ClosingSpendsNone, DerivedStay, ImportedSpendNothing, LearnedSpendOne};
ghost use Rattle.session_log.specs.Laws.{LoopsSpendOne, NeededNoLoop, OpenedGuarded, PlainStepsMayBeShared};
ghost use Rattle.session_log.specs.Laws.{ReachedAreUsed, ShownAnswersAreRight, ShownSetsAreExtensions, SidesAreNew, SidesSpendOne, SidesStay};
ghost use Rattle.session_log.specs.Laws.{StepsAreTrue};

/// A log with no step and no side clause is a guarded one.
pub fn opened_logs_are_guarded()
    ensures { OpenedGuarded }
{}

/// A guarded log stays one where an axiom comes.
pub fn axioms_keep_the_guards()
    ensures { AxiomsStay }
{}

/// A guarded log stays one where a side clause comes with its step.
pub fn sides_keep_the_guards()
    ensures { SidesStay }
{}

/// A guarded log stays one where a clause is derived.
pub fn derived_steps_keep_the_guards()
    ensures { DerivedStay }
{}

/// An axiom that isn't a loop clause spends nothing.
pub fn axioms_spend_nothing()
    ensures { AxiomsSpendNothing }
{}

/// No axiom that a search needs is a loop clause, so that entering these spends nothing.
pub fn needed_axioms_are_no_loops()
    ensures { NeededNoLoop }
{}

/// A loop clause that is new spends a unit.
pub fn loops_spend_one()
    ensures { LoopsSpendOne }
{}

/// A side clause spends a unit.
pub fn sides_spend_one()
    ensures { SidesSpendOne }
{}

/// A learned clause that is new spends a unit.
pub fn learned_steps_spend_one()
    ensures { LearnedSpendOne }
{}

/// A step that only ends a search spends no unit.
pub fn closing_steps_spend_none()
    ensures { ClosingSpendsNone }
{}

/// An imported clause spends nothing.
pub fn imported_steps_spend_nothing()
    ensures { ImportedSpendNothing }
{}

/// Each step is true in every world beside the side clauses, and valid where it asks for none.
pub fn steps_are_true()
    ensures { StepsAreTrue }
{}

/// A step of a guarded log that asks for no side clause may be handed to others.
pub fn plain_steps_may_be_shared()
    ensures { PlainStepsMayBeShared }
{}

/// What a step reaches besides itself didn't only end a search.
pub fn reached_steps_are_used()
    ensures { ReachedAreUsed }
{}

/// A further side clause is new, since each step is true in a world where the side clause is false.
pub fn sides_are_new()
    ensures { SidesAreNew }
{}

/// A step whose literals are all false by the facts or by goals refutes the goals.
pub fn closed_steps_refute_goals()
    ensures { ClosedRefutesGoals }
{}

/// A step whose literals are all false by the facts, by a claim's goals or by its side clauses refutes the claim.
pub fn closed_steps_refute_claims()
    ensures { ClosedRefutesClaim }
{}

/// An answer whose direct tests pass, and whose claims are refuted by steps of the log, is right.
pub fn shown_answers_are_right()
    ensures { ShownAnswersAreRight }
{}

/// The sets that a log shows where there are more than may be listed are extensions.
pub fn shown_sets_are_extensions()
    ensures { ShownSetsAreExtensions }
{}
