//! What calls for an axiom: a framework that a session has seen, or the pool.

ghost use Rattle.std.specs.Prelude.{◌≡◌, ◌↔◌, ◌++◌, Contains, IfOk, IsTrue, OnOk, take};
ghost use Rattle.meaning_atoms.specs.declared.axiom.AxiomName.{AxiomName as AName};
ghost use Rattle.oracle_face.specs.declared.entry.HintName.TheVariants.{Axiom};
ghost use Rattle.oracle_face.specs.Needed.{IsNeeded};
ghost use Rattle.certificate_claims.specs.Refutations.{IsAxiomOf};
ghost use Rattle.edit_rules.specs.Kinds.{framework_of};
ghost use Rattle.edit_rules.specs.Replay.{after_edit, replay as replay_all};
ghost use Rattle.edit_history.specs.Entries.{edits_of, framework_after};
ghost use Rattle.session_log.specs.OwnSteps.{NamesAxiom};
ghost use Rattle.core_events.specs.Needs.{IsNamedAmong, IsNamedUnder, IsNeededAmong};

use crate::places::{IndexedEntry, find_entry};
use aba_encoding::needed as needed_of_aba;
use af_encoding::needed as needed_of_af;
use core_logs::equality::axioms_are_equal;
use edit_history::HistoryEntry;
use edit_rules::{Edit, EditFault, Framework, apply};
use lists::{Items, Memory};
use meaning_atoms::AxiomName;
use oracle_face::{EntryOrigin, HintName};
use std::alloc::Global;

/// The first `count` entries, or all if there are fewer.
pub(crate) fn front(entries: &[HistoryEntry], count: usize) -> &[HistoryEntry]
    ensures { result.now ≡ take count entries.now }
{
    if entries.len() <= count {
        return entries;
    }
    &entries[..count]
}

/// Changes a framework by an edit, which leaves it as it was where it is refused.
fn follow(alloc: Global, framework: &mut Framework, edit: &Edit) -> Result<(), Memory>
    ensures { OnOk result (framework_of framework.new ≡ after_edit (framework_of framework.old) edit.now) }
{
    match apply(alloc, framework, edit) {
        Err(EditFault::Memory) => Err(Memory),
        Ok(_) | Err(_) => Ok(()),
    }
}

/// Adds the same edits again behind others.
fn push_edits(alloc: Global, all: &mut Items<Edit>, edits: &[Edit]) -> Result<(), Memory>
    ensures { OnOk result (all.new ≡ all.old ++ edits.now) }
{
    for edit in edits {
        all.push(edit.copy(alloc)?)?;
    }
    Ok(())
}

/// The same edits again.
pub(crate) fn copy_edits(alloc: Global, edits: &[Edit]) -> Result<Items<Edit>, Memory>
    ensures { IfOk result (λ copy. copy ≡ edits.now) }
{
    let mut copy = Items::new(alloc);
    push_edits(alloc, &mut copy, edits)?;
    Ok(copy)
}

/// The edits of entries, one after another.
pub(crate) fn edits_in(alloc: Global, entries: &[HistoryEntry]) -> Result<Items<Edit>, Memory>
    ensures { IfOk result (λ edits. edits ≡ edits_of entries.now) }
{
    let mut edits = Items::new(alloc);
    for entry in entries {
        push_edits(alloc, &mut edits, entry.edits.as_slice())?;
    }
    Ok(edits)
}

/// The framework after entries.
pub(crate) fn replay(
    alloc: Global,
    opening: &Framework,
    entries: &[HistoryEntry],
) -> Result<Framework, Memory>
    ensures { IfOk result (λ framework. framework_of framework
        ≡ framework_after (framework_of opening.now) entries.now) }
{
    let edits = edits_in(alloc, entries)?;
    let mut framework = opening.copy(alloc)?;
    follow_all(alloc, &mut framework, edits.as_slice())?;
    Ok(framework)
}

/// Changes a framework by edits, one after another.
fn follow_all(alloc: Global, framework: &mut Framework, edits: &[Edit]) -> Result<(), Memory>
    ensures { OnOk result (framework_of framework.new ≡ replay_all (framework_of framework.old) edits.now) }
{
    for edit in edits {
        follow(alloc, framework, edit)?;
    }
    Ok(())
}

/// The axioms that searches need for a framework.
fn needed(alloc: Global, framework: &Framework) -> Result<Items<AxiomName>, Memory>
    ensures { IfOk result (λ names. (name : AName) → Contains names name
        ↔ IsNeeded (framework_of framework.now) name) }
{
    match framework {
        Framework::Af(plain) => needed_of_af(alloc, plain),
        Framework::Aba(plain) => needed_of_aba(alloc, plain),
    }
}

/// Whether an axiom is among these.
fn is_listed(names: &[AxiomName], name: &AxiomName) -> bool
    ensures { IsTrue result ↔ Contains names.now name.now }
{
    names.iter().any(|other| axioms_are_equal(other, name))
}

/// Whether a framework needs an axiom.
fn is_needed(alloc: Global, framework: &Framework, name: &AxiomName) -> Result<bool, Memory>
    ensures { IfOk result (λ is. IsTrue is ↔ IsNeeded (framework_of framework.now) name.now) }
{
    let names = needed(alloc, framework)?;
    Ok(is_listed(names.as_slice(), name))
}

/// Whether the framework after some of the edits needs an axiom. The framework is changed on the way.
fn is_needed_along(
    alloc: Global,
    framework: &mut Framework,
    edits: &[Edit],
    name: &AxiomName,
) -> Result<bool, Memory>
    ensures { IfOk result (λ is. IsTrue is ↔ IsNeededAmong (framework_of framework.old) edits.now name.now) }
{
    for edit in edits {
        if is_needed(alloc, framework, name)? {
            return Ok(true);
        }
        follow(alloc, framework, edit)?;
    }
    is_needed(alloc, framework, name)
}

/// Whether the framework after some of the edits of entries needs an axiom.
pub(crate) fn is_needed_among(
    alloc: Global,
    opening: &Framework,
    entries: &[HistoryEntry],
    name: &AxiomName,
) -> Result<bool, Memory>
    ensures { IfOk result (λ is. IsTrue is ↔ IsNeededAmong (framework_of opening.now) (edits_of entries.now) name.now) }
{
    let edits = edits_in(alloc, entries)?;
    let mut framework = opening.copy(alloc)?;
    is_needed_along(alloc, &mut framework, edits.as_slice(), name)
}

/// Whether a hint is an axiom.
fn is_hint(hint: &HintName, name: &AxiomName) -> bool
    ensures { IsTrue result ↔ (hint.now ≡ Axiom name.now) }
{
    match hint {
        HintName::Axiom(other) => axioms_are_equal(other, name),
        HintName::Entry(_) => false,
    }
}

/// Whether an axiom is among hints.
fn has_hint(hints: &[HintName], name: &AxiomName) -> bool
    ensures { IsTrue result ↔ Contains hints.now (Axiom name.now) }
{
    hints.iter().any(|hint| is_hint(hint, name))
}

/// Whether an origin names an axiom.
fn names_axiom(origin: &EntryOrigin, name: &AxiomName) -> bool
    ensures { IsTrue result ↔ NamesAxiom name.now origin.now }
{
    match origin {
        EntryOrigin::Axiom(other) => axioms_are_equal(other, name),
        EntryOrigin::Hints(hints) => has_hint(hints.as_slice(), name),
    }
}

/// Whether the entry under an index names an axiom.
fn is_named_at(places: &[IndexedEntry], index: u64, name: &AxiomName) -> bool
    ensures { IsTrue result ↔ IsNamedUnder places.now name.now index }
{
    match find_entry(places, index) {
        Some(entry) => names_axiom(&entry.origin, name),
        None => false,
    }
}

/// Whether some entry of the pool names an axiom.
pub(crate) fn is_named(places: &[IndexedEntry], name: &AxiomName) -> bool
    ensures { IsTrue result ↔ IsNamedAmong places.now name.now }
{
    places
        .iter()
        .any(|place| is_named_at(places, place.index, name))
}

/// Whether an axiom is one of the framework's kind, with arguments that fit its row.
pub(crate) fn is_axiom_of(framework: &Framework, name: &AxiomName) -> bool
    ensures { IsTrue result ↔ IsAxiomOf (framework_of framework.now) name.now }
{
    match (framework, name) {
        (Framework::Af(_), AxiomName::Af(name)) => name.is_name(),
        (Framework::Aba(_), AxiomName::Aba(name)) => name.is_name(),
        (Framework::Af(_), AxiomName::Aba(_)) | (Framework::Aba(_), AxiomName::Af(_)) => false,
    }
}
