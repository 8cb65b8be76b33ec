//! Each function does nothing; its contract is the law.

ghost use Rattle.edit_rules.specs.AbaEditLaws.{AbaEditsKeepForm, AbaEffectsDetermine, NumbersAreGivenOnce};

/// Edits keep a flat assumption-based framework in form.
pub fn aba_edits_keep_form()
    ensures { AbaEditsKeepForm }
{}

/// No edit lowers the number that the next rule gets.
pub fn numbers_are_given_once()
    ensures { NumbersAreGivenOnce }
{}

/// The framework behind an edit and the edit's effect determine the framework before the edit.
pub fn aba_effects_determine()
    ensures { AbaEffectsDetermine }
{}
