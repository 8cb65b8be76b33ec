//! Each function does nothing; its contract is the law.

ghost use Rattle.edit_rules.specs.Laws.{EditsKeepForm, EditsKeepKind, EffectsDetermine};
ghost use Rattle.edit_rules.specs.Laws.{GroupsAreTakenWhole, GroupsJoin};

/// Edits keep a framework in form, whether they are taken or refused.
pub fn edits_keep_form()
    ensures { EditsKeepForm }
{}

/// Edits keep a framework's kind, whether they are taken or refused.
pub fn edits_keep_kind()
    ensures { EditsKeepKind }
{}

/// The framework behind an edit and the edit's effect determine the framework before the edit.
pub fn effects_determine()
    ensures { EffectsDetermine }
{}

/// Where a group is taken, none of its edits is refused, and its effects are those of its edits.
pub fn groups_are_taken_whole()
    ensures { GroupsAreTakenWhole }
{}

/// A group that is taken behind another does what both of them do as one group.
pub fn groups_join()
    ensures { GroupsJoin }
{}
