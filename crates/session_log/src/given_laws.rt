//! What holds of the steps by which a log goes on. Each function does nothing; its contract is the law.

ghost use Rattle.session_log.specs.GivenLaws.{ImportsAreGiven, NothingImported, OnlyNeeded, StepsStay};

/// Where no entry was given, each axiom that comes, but a loop clause, is one that the framework needs.
pub fn only_needed_axioms_come()
    ensures { OnlyNeeded }
{}

/// Where no entry was given, no step is taken from one.
pub fn nothing_is_imported()
    ensures { NothingImported }
{}

/// Each step that is taken from an entry has the name of one that was given.
pub fn imports_are_given()
    ensures { ImportsAreGiven }
{}

/// Steps are steps of the session still where more was given.
pub fn steps_stay_steps()
    ensures { StepsStay }
{}
