//! The framework of what the lines of a text say.

ghost use Rattle.std.specs.Prelude.{◌≡◌, ◌↔◌, ℕ, ◌+◌, ◌<◌, ◌≤◌, Contains, IfOk, length};
ghost use Rattle.std.specs.List.{range_with_len};
ghost use Rattle.semantics.specs.declared.numbers.TheConstants.{MAX_RULE};
ghost use Rattle.aba_format.specs.Finishing.{AreFrameworkParts, IsFrameworkBy};

use crate::said::LineParts;
use aba_notions::{AbaPlain, RuleLists};
use lists::Memory;
use set_lists::NumSet;
use std::alloc::Global;

/// The framework of so many atoms and of what was said of them.
pub(crate) fn framework_of(alloc: Global, count: u32, parts: LineParts) -> Result<AbaPlain, Memory>
    requires { AreFrameworkParts count parts }
    ensures { IfOk result (IsFrameworkBy count parts) }
{
    let LineParts {
        assumed: _,
        heading: _,
        opposed: _,
        assumptions,
        given: _,
        contraries,
        heads,
        bodies,
    } = parts;
    let assumptions = NumSet::from_slice(alloc, &assumptions)?;
    let next = heads.len() as u32 + 1;
    let numbers = (1..next).collect(alloc)?;
    let rules = RuleLists {
        numbers,
        heads,
        bodies,
    };
    AbaPlain::new(alloc, count, assumptions, contraries, rules, next)
}
