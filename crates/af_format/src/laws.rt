//! The laws of reading and writing: a text reads as one framework alone, what was written reads as itself,
//! and each text is either readable or faulty.

ghost use Rattle.std.specs.Prelude.{◌≡◌, ℕ, ◌≤◌, List, length, IfOk, IfErr, OnOk};
ghost use Rattle.semantics.specs.Framework.{Af};
ghost use Rattle.dung_notions.specs.Solid.{IsSolid};
ghost use Rattle.num_text.specs.Cuts.{lines_of};
ghost use Rattle.num_text.specs.Lines.{kept};
ghost use Rattle.af_format.specs.AfText.{ReadsAs, IsReadable};
ghost use Rattle.af_format.specs.Faults.{IsFirstFault, IsFaultless};
ghost use Rattle.af_format.specs.FirstBadLine.{AreSomeAttacks, IsFirstBadLine};
ghost use Rattle.af_format.specs.declared.fault.ReadFault.TheVariants.{Memory as refused};
ghost use Rattle.num_text.specs.declared.limit.TheConstants.{MAX_INPUT};

use crate::af_line::MAX_ATTACK_LINES;
use crate::fault::{LineFault, ReadFault};
use crate::next_attack::next_attack;
use crate::read::{read_af, read_count};
use crate::write::write_af;
use dung_notions::AfPlain;
use num_text::{Lines, lines};
use std::alloc::Global;

/// A text reads as one framework alone, and then has no fault. It does nothing; its contract is the law.
pub fn one_reading()
    ensures same { (bytes : List ℕ) → (f g : Af) → ReadsAs bytes f → ReadsAs bytes g → f ≡ g }
    ensures faultless { (bytes : List ℕ) → (f : Af) → ReadsAs bytes f → IsFaultless bytes }
{}

/// The framework that is read from its own text: the same one. Nothing but want of memory comes between. Only tests
/// call it: its contract is the law.
pub fn read_back(alloc: Global, framework: &AfPlain) -> Result<AfPlain, ReadFault>
    requires solid { IsSolid framework.now }
    requires few { length framework.now.attacks ≤ MAX_ATTACK_LINES }
    ensures same { IfOk result (λ f. f ≡ framework.now) }
    ensures fault { IfErr result (λ e. e ≡ refused) }
{
    let text = write_af(alloc, framework)?;
    read_af(alloc, text.as_slice())
}

/// That a text is the text of a framework, or else its first fault. No memory is needed, so each text
/// has an answer. Only tests call it: its contract is the law.
pub fn readable_or_faulty(bytes: &[u8]) -> Result<(), LineFault>
    requires { length bytes.now ≤ MAX_INPUT }
    ensures readable { OnOk result (IsReadable bytes.now) }
    ensures faulty { IfErr result (λ fault. IsFirstFault bytes.now fault.line fault.cause) }
{
    let mut left = lines(bytes);
    let count = read_count(bytes, &mut left)?;
    attacks_or_fault(left, count)
}

// That all lines that are left and not skipped are attack lines, or the first that isn't.
fn attacks_or_fault(mut left: Lines<'_>, count: u32) -> Result<(), LineFault>
    ensures ok { OnOk result (AreSomeAttacks count (kept left.entry)) }
    ensures fault { IfErr result (λ fault. IsFirstBadLine count (kept left.entry) fault.line fault.cause) }
{
    let mut index = 0;
    while let Some(_attack) = next_attack(&mut left, count, index)? {
        index += 1;
    }
    Ok(())
}
