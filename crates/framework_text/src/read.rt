//! Reading a framework of either kind.

ghost use Rattle.std.specs.Prelude.{◌≡◌, ◌≤◌, length, IfErr, IfOk};
ghost use Rattle.semantics.specs.Frameworks.{Framework as AFramework};
ghost use Rattle.edit_rules.specs.Kinds.{framework_of};
ghost use Rattle.num_text.specs.declared.limit.TheConstants.{MAX_INPUT};
ghost use Rattle.af_format.specs.Faults.{IfLine};
ghost use Rattle.framework_text.specs.FrameworkText.{IsFirstFault, ReadsAs};

use aba_format::read_aba;
use af_format::{ReadFault, read_af};
use edit_rules::Framework;
use iccma_tasks::{Kind, kind_of};
use std::alloc::Global;

/// The framework that the bytes describe. Where the first line that isn't skipped begins with `p aba`, they are read as
/// an assumption-based one ([`read_aba`]), and else as an abstract one ([`read_af`]).
///
/// `Line` tells the first fault that a text of that kind has. `Memory` says that an allocation was refused.
pub fn read_framework(alloc: Global, bytes: &[u8]) -> Result<Framework, ReadFault>
    requires { length bytes.now ≤ MAX_INPUT }
    ensures ok { IfOk result (λ f. ReadsAs bytes.now (framework_of f)) }
    ensures no_other { IfOk result (λ f. (g : AFramework) → ReadsAs bytes.now g → g ≡ framework_of f) }
    ensures fault { IfErr result (λ e. IfLine e (λ fault. IsFirstFault bytes.now fault.line fault.cause)) }
{
    match kind_of(bytes) {
        Kind::Af => match read_af(alloc, bytes) {
            Ok(plain) => Ok(Framework::Af(plain)),
            Err(fault) => Err(fault),
        },
        Kind::Aba => match read_aba(alloc, bytes) {
            Ok(plain) => Ok(Framework::Aba(plain)),
            Err(fault) => Err(fault),
        },
    }
}
