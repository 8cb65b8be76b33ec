//! Where a step of a log comes from.

ghost use Rattle.std.specs.Prelude.{◌≡◌, IfOk};
ghost use Rattle.oracle_face.specs.StepSources.{is_given};

use crate::entry::EntryName;
use crate::face::AskId;
use lists::Memory;
use meaning_atoms::AxiomName;
use std::alloc::Global;

/// Where a step comes from: it is an axiom, it is the step of a side clause, it was taken from an entry and follows
/// from its hints, or it follows from them and is one's own.
#[derive(Drop)]
pub enum StepSource {
    Axiom(AxiomName),
    Side(AskId),
    Entry(EntryName),
    Hints,
}

impl StepSource {
    /// Whether a step from there needs no hints: it is an axiom, or a side clause's.
    pub fn is_given(&self) -> bool
        ensures { result ≡ is_given self.now }
    {
        match self {
            StepSource::Axiom(_) | StepSource::Side(_) => true,
            StepSource::Entry(_) | StepSource::Hints => false,
        }
    }

    /// The same source again.
    pub fn copy(&self, alloc: Global) -> Result<StepSource, Memory>
        ensures { IfOk result (λ copy. copy ≡ self.now) }
    {
        match self {
            StepSource::Axiom(name) => Ok(StepSource::Axiom(name.copy(alloc)?)),
            StepSource::Side(side) => Ok(StepSource::Side(*side)),
            StepSource::Entry(name) => Ok(StepSource::Entry(*name)),
            StepSource::Hints => Ok(StepSource::Hints),
        }
    }
}
