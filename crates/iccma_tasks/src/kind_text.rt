//! The kind of framework that a text has.

ghost use Rattle.std.specs.Prelude.{◌≡◌, IsTrue};
ghost use Rattle.num_text.specs.Cuts.{field_texts};
ghost use Rattle.iccma_tasks.specs.KindText.{BeginWithAba, IsAbaText};
ghost use Rattle.iccma_tasks.specs.declared.task.Kind.TheVariants.{Aba, Af};

use crate::task::Kind;
use num_text::{Line, fields, lines, next_kept};

/// The kind of framework that a text has: assumption-based exactly where the first line that isn't skipped has `p` and
/// `aba` as its first two fields, and abstract else, also where the text is one of no framework. No line behind that
/// one is read.
pub fn kind_of(bytes: &[u8]) -> Kind
    ensures aba { result ≡ Aba → IsAbaText bytes.now }
    ensures af { result ≡ Af → ¬ IsAbaText bytes.now }
{
    let mut left = lines(bytes);
    let Some(header) = next_kept(&mut left) else {
        return Kind::Af;
    };
    if begins_with_aba(&header) {
        return Kind::Aba;
    }
    Kind::Af
}

/// Whether the first two fields are `p` and `aba`.
fn begins_with_aba(line: &Line<'_>) -> bool
    ensures yes { IsTrue result → BeginWithAba (field_texts line.now.text.now) }
    ensures no { BeginWithAba (field_texts line.now.text.now) → IsTrue result }
{
    let mut parts = fields(line);
    let Some(first) = parts.next() else {
        return false;
    };
    if first.text != "p".as_bytes() {
        return false;
    }
    let Some(second) = parts.next() else {
        return false;
    };
    second.text == "aba".as_bytes()
}
