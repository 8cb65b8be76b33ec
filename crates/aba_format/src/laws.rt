//! The laws of reading and writing: a text reads as one framework alone and then has no fault, and what was written reads
//! as itself.

ghost use Rattle.std.specs.Prelude.{◌≡◌, ℕ, ◌≤◌, List, length, IfOk, IfErr};
ghost use Rattle.semantics.specs.AbaFrameworks.{Aba};
ghost use Rattle.aba_notions.specs.Solid.{IsSolid};
ghost use Rattle.aba_format.specs.AbaText.{ReadsAs};
ghost use Rattle.aba_format.specs.Faults.{IsFaultless};
ghost use Rattle.aba_format.specs.Written.{aba_text};
ghost use Rattle.af_format.specs.declared.fault.ReadFault.TheVariants.{Memory as refused};
ghost use Rattle.num_text.specs.declared.limit.TheConstants.{MAX_INPUT};

use crate::read::read_aba;
use crate::said::MAX_CONTRARY_LINES;
use crate::write::write_aba;
use aba_notions::AbaPlain;
use af_format::ReadFault;
use std::alloc::Global;

/// A text reads as one framework alone, and then has no fault. It does nothing; its contract is the law.
pub fn one_reading()
    ensures same { (bytes : List ℕ) → (f g : Aba) → ReadsAs bytes f → ReadsAs bytes g → f ≡ g }
    ensures faultless { (bytes : List ℕ) → (f : Aba) → ReadsAs bytes f → IsFaultless bytes }
{}

/// The framework that is read from its own text, where that is not too long and has not too many contraries: the same
/// one. Nothing but want of memory comes between. Only tests call it: its contract is the law.
pub fn read_back(alloc: Global, framework: &AbaPlain) -> Result<AbaPlain, ReadFault>
    requires solid { IsSolid framework.now }
    requires few { length framework.now.contraries ≤ MAX_CONTRARY_LINES }
    requires short { length (aba_text framework.now) ≤ MAX_INPUT }
    ensures same { IfOk result (λ f. f ≡ framework.now) }
    ensures fault { IfErr result (λ e. e ≡ refused) }
{
    let text = write_aba(alloc, framework)?;
    read_aba(alloc, text.as_slice())
}
