//! Writing a framework with names as a text with numbers.

ghost use Rattle.std.specs.Prelude.{◌≡◌, ◌≤◌, ◌++◌, length, IfOk, OnOk};
ghost use Rattle.dung_notions.specs.Solid.{IsSolid};
ghost use Rattle.af_format.specs.AfText.{ReadsAs};
ghost use Rattle.af_format.specs.declared.af_line.TheConstants.{MAX_ATTACK_LINES};
ghost use Rattle.semantics.specs.declared.argument.TheConstants.{MAX_ARGUMENT};
ghost use Rattle.apx_tgf.specs.Names.{AreNames};
ghost use Rattle.apx_tgf.specs.Written.{named_text, name_line, name_lines};

use crate::names::Names;
use af_format::write_af;
use dung_notions::AfPlain;
use lists::{Bytes, Memory};
use std::alloc::Global;

/// The text of a framework whose live arguments are 1 to n, with names: a line `# N NAME` for each name and its number,
/// which readers skip, and then what [`write_af`](af_format::write_af) gives. `Memory` says that an allocation was
/// refused.
pub fn write_named(alloc: Global, names: &Names<'_>, framework: &AfPlain) -> Result<Bytes, Memory>
    requires { IsSolid framework.now }
    ensures text { IfOk result (λ text. text ≡ named_text names.now framework.now) }
    ensures back { length framework.now.attacks ≤ MAX_ATTACK_LINES → length names.now ≤ MAX_ARGUMENT
        → AreNames names.now → IfOk result (λ text. ReadsAs text framework.now) }
{
    let mut text = name_text(alloc, names)?;
    let framework_text = write_af(alloc, framework)?;
    text.extend(framework_text.as_slice())?;
    Ok(text)
}

// The lines of the names.
fn name_text(alloc: Global, names: &Names<'_>) -> Result<Bytes, Memory>
    ensures { IfOk result (λ text. text ≡ name_lines 1 names.now) }
{
    let mut text = Bytes::new(alloc);
    for index in 0..names.len() {
        write_name(alloc, &mut text, index + 1, names.name_of(index + 1))?;
    }
    Ok(text)
}

// Adds the line of a name.
fn write_name(alloc: Global, text: &mut Bytes, number: usize, name: &[u8]) -> Result<(), Memory>
    ensures { OnOk result (text.new ≡ text.old ++ name_line number name.now) }
{
    let head = format!(in alloc; "# {number} ")?;
    text.extend(head.as_bytes())?;
    text.extend(name)?;
    text.extend("\n".as_bytes())
}
