//! Clauses that sessions hand each other.

ghost use Rattle.std.specs.Prelude.{◌≡◌, IfOk};
ghost use Rattle.certificate_claims.specs.meaning_atoms.specs.AxiomNames.{IsAxiomName};
ghost use Rattle.oracle_face.specs.Entries.{IsShareable, axiom_entry};

use certificate_claims::clause_of_axiom;
use lists::{Items, Memory};
use meaning_atoms::{AtomLit, AxiomName};
use plain_lits::StepId;
use std::alloc::Global;

/// Where an entry comes from: a session by its number, and the step of its log.
#[derive(Clone, Copy, PartialEq, Eq)]
pub struct EntryName {
    pub session: u32,
    pub step: StepId,
}

/// A clause that another clause follows from: an axiom, or an entry.
#[derive(Drop, PartialEq, Eq)]
pub enum HintName {
    Axiom(AxiomName),
    Entry(EntryName),
}

/// Why an entry's clause is true: it is an axiom's, or it follows from others by unit propagation, in this order.
#[derive(Drop, PartialEq, Eq)]
pub enum EntryOrigin {
    Axiom(AxiomName),
    Hints(Items<HintName>),
}

/// A clause with its name and its origin.
#[derive(PartialEq, Eq)]
pub struct Entry {
    pub clause: Items<AtomLit>,
    pub name: EntryName,
    pub origin: EntryOrigin,
}

// By hand, so that a drop is one call (docs/PROVING.md).
impl Drop for Entry {
    fn drop(self) {
        let Entry {
            clause: _,
            name: _,
            origin: _,
        } = self;
    }
}

impl Entry {
    /// The entry of an axiom of either kind by its name. Every such entry may be shared. Only tests call it.
    pub fn of_axiom(alloc: Global, rule: AxiomName, name: EntryName) -> Result<Entry, Memory>
        requires { IsAxiomName rule }
        ensures entry { IfOk result (λ entry. entry ≡ axiom_entry rule name) }
        ensures shareable { IfOk result IsShareable }
    {
        Ok(Entry {
            clause: clause_of_axiom(alloc, &rule)?,
            name,
            origin: EntryOrigin::Axiom(rule),
        })
    }

    /// The same entry again.
    pub fn copy(&self, alloc: Global) -> Result<Entry, Memory>
        ensures { IfOk result (λ copy. copy ≡ self.now) }
    {
        Ok(Entry {
            clause: copy_items(alloc, self.clause.as_slice())?,
            name: self.name,
            origin: copy_origin(alloc, &self.origin)?,
        })
    }
}

/// The same origin again.
fn copy_origin(alloc: Global, origin: &EntryOrigin) -> Result<EntryOrigin, Memory>
    ensures { IfOk result (λ copy. copy ≡ origin.now) }
{
    match origin {
        EntryOrigin::Axiom(name) => Ok(EntryOrigin::Axiom(name.copy(alloc)?)),
        EntryOrigin::Hints(hints) => Ok(EntryOrigin::Hints(copy_hints(alloc, hints.as_slice())?)),
    }
}

/// The same names again.
fn copy_hints(alloc: Global, hints: &[HintName]) -> Result<Items<HintName>, Memory>
    ensures { IfOk result (λ copy. copy ≡ hints.now) }
{
    let mut copy = Items::new(alloc);
    for hint in hints {
        copy.push(copy_hint(alloc, hint)?)?;
    }
    Ok(copy)
}

fn copy_hint(alloc: Global, hint: &HintName) -> Result<HintName, Memory>
    ensures { IfOk result (λ copy. copy ≡ hint.now) }
{
    match hint {
        HintName::Axiom(name) => Ok(HintName::Axiom(name.copy(alloc)?)),
        HintName::Entry(name) => Ok(HintName::Entry(*name)),
    }
}

/// The same items again.
fn copy_items<T: Copy>(alloc: Global, items: &[T]) -> Result<Items<T>, Memory>
    ensures { IfOk result (λ copy. copy ≡ items.now) }
{
    Ok(Items::from_vec(Vec::from_slice(alloc, items)?))
}
