//! What a run ends with: decided here, and written elsewhere.

ghost use Rattle.std.specs.Prelude.{◌≡◌, ◌⊎◌, [], IsSome, Some};
ghost use Rattle.argue_program.specs.Rows.{nothing_kept};
ghost use Rattle.argue_commands.specs.Texts.{IsRefusal, common_text, text_bytes};

use crate::ended::Transcript;
use argue_commands::texts::status_text;
use argue_commands::{Status, Text, Written};
use lists::{Items, Memory};
use std::alloc::Global;

/// How a run ends, what it keeps, and what it has to write: its files first, each cleared before, and then its
/// text.
#[derive(Drop)]
pub struct Ending {
    pub status: Status,
    pub kept: Transcript,
    pub text: Text,
    pub files: Items<Written>,
}

/// The ending with a status that says itself what is written. It keeps nothing.
pub(crate) fn status_ending(alloc: Global, status: Status) -> Ending
    requires { IsSome (common_text status) }
    ensures status { (result.status ≡ status) ⊎ ((result.status ≡ Status.WantOfMemory) × IsRefusal status) }
    ensures kept { result.kept ≡ nothing_kept }
    ensures text { Some (text_bytes result.text) ≡ common_text result.status }
    ensures files { result.files ≡ [] }
{
    let kept = Transcript::nothing();
    let files = Items::new(alloc);
    match status_text(alloc, status) {
        Ok(text) => Ending {
            status,
            kept,
            text,
            files,
        },
        Err(Memory) => Ending {
            status: Status::WantOfMemory,
            kept,
            text: Text::Fixed(""),
            files,
        },
    }
}

/// The ending of a run that is done and has this text. It keeps nothing.
pub(crate) fn done_ending(alloc: Global, text: Text) -> Ending
    ensures status { result.status ≡ Status.Done }
    ensures kept { result.kept ≡ nothing_kept }
    ensures text { text_bytes result.text ≡ text_bytes text }
    ensures files { result.files ≡ [] }
{
    Ending {
        status: Status::Done,
        kept: Transcript::nothing(),
        text,
        files: Items::new(alloc),
    }
}
