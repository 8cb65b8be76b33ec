//! Frameworks of both kinds.

ghost use Rattle.std.specs.Prelude.{◌≡◌, ◌↔◌, IfOk, IsTrue};
ghost use Rattle.semantics.specs.Frameworks.{IsNumbered};
ghost use Rattle.edit_rules.specs.Kinds.{framework_of, kind_of};
ghost use Rattle.edit_rules.specs.Fitting.{IsKnown};

use crate::copy_aba;
use aba_notions::AbaPlain;
use dung_notions::AfPlain;
use iccma_tasks::Kind;
use lists::Memory;
use std::alloc::Global;

/// A framework of either kind.
pub enum Framework {
    /// An abstract framework.
    Af(AfPlain),
    /// A flat assumption-based framework.
    Aba(AbaPlain),
}

// By hand, so that a drop is one call (docs/PROVING.md).
impl Drop for Framework {
    fn drop(self) {
        match self {
            Framework::Af(_) | Framework::Aba(_) => {}
        }
    }
}

impl Framework {
    /// The same framework again.
    pub fn copy(&self, alloc: Global) -> Result<Framework, Memory>
        ensures { IfOk result (λ copy. copy ≡ self.now) }
    {
        match self {
            Framework::Af(plain) => Ok(Framework::Af(plain.copy(alloc)?)),
            Framework::Aba(plain) => Ok(Framework::Aba(copy_aba(alloc, plain)?)),
        }
    }

    /// The framework's kind.
    pub fn kind(&self) -> Kind
        ensures kind { result ≡ kind_of (framework_of self.now) }
        ensures form { IsNumbered (framework_of self.now) }
    {
        match self {
            Framework::Af(plain) => {
                let _live = plain.live();
                Kind::Af
            }
            Framework::Aba(plain) => {
                let _atoms = plain.atoms();
                Kind::Aba
            }
        }
    }

    /// Whether there is what a query with this number asks about: for an abstract framework a live argument, for an
    /// assumption-based one an atom.
    pub fn knows(&self, number: u32) -> bool
        ensures { IsTrue result ↔ IsKnown (framework_of self.now) number }
    {
        match self {
            Framework::Af(plain) => plain.is_live(number),
            Framework::Aba(plain) => 1 <= number && number <= plain.atoms(),
        }
    }
}
