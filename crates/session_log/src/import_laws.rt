//! What holds of what is taken from entries. Each function does nothing; its contract is the law.

ghost use Rattle.session_log.specs.ImportLaws.{EntriesAreUsed, EntriesSpendNothing, EntriesStay, NamesAreSingle};

/// A guarded log stays one where an entry is taken in.
pub fn entries_keep_the_guards()
    ensures { EntriesStay }
{}

/// An entry that is taken in spends nothing.
pub fn entries_spend_nothing()
    ensures { EntriesSpendNothing }
{}

/// Searches use the clause of an entry that was taken in.
pub fn entries_are_used()
    ensures { EntriesAreUsed }
{}

/// A name stands for one step at most.
pub fn names_are_single()
    ensures { NamesAreSingle }
{}
