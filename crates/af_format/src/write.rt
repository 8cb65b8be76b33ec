//! Writing a framework.

ghost use Rattle.std.specs.Prelude.{◌≡◌, ◌≤◌, length, IfOk};
ghost use Rattle.std.specs.String.{string_bytes};
ghost use Rattle.semantics.specs.Frameworks.{IsNumberedAf};
ghost use Rattle.af_format.specs.AfText.{ReadsAs};
ghost use Rattle.dung_notions.specs.Solid.{IsSolid};
ghost use Rattle.af_format.specs.Written.{af_text};
ghost use Rattle.num_text.specs.declared.limit.TheConstants.{MAX_INPUT};

use crate::af_line::MAX_ATTACK_LINES;
use dung_notions::AfPlain;
use lists::{Bytes, Memory};
use std::alloc::Global;
use std::fmt::Write;

/// The text of a framework whose live arguments are 1 to n ([`AfPlain::is_solid`] is the test): the header,
/// and a line for each attack, by rising attacker and then target. With up to 10,000,000 attacks it is a
/// text that [`read_af`](crate::read_af) reads. `Memory` says that an allocation was refused. No command writes a
/// framework: the law that it reads back, and tests, call this.
pub fn write_af(alloc: Global, framework: &AfPlain) -> Result<Bytes, Memory>
    requires { IsSolid framework.now }
    ensures text { IfOk result (λ text. text ≡ af_text framework.now) }
    ensures back { length framework.now.attacks ≤ MAX_ATTACK_LINES
        → IfOk result (λ text. ReadsAs text framework.now) }
    ensures within { length framework.now.attacks ≤ MAX_ATTACK_LINES → IfOk result (λ text. length text ≤ MAX_INPUT) }
{
    let text = text_of(alloc, framework)?;
    Ok(Bytes::from_vec(text.into_bytes()))
}

// The same text, as a string.
fn text_of(alloc: Global, framework: &AfPlain) -> Result<String, Memory>
    ensures text { IfOk result (λ text. string_bytes text ≡ af_text framework.now) }
    ensures form { IsNumberedAf framework.now }
{
    let count = framework.live().len();
    let mut text = format!(in alloc; "p af {count}\n")?;
    let attacks = framework.attacks(alloc)?;
    for (attacker, target) in attacks.as_slice() {
        write!(text, "{attacker} {target}\n")?;
    }
    Ok(text)
}
