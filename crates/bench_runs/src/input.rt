//! A large input: a framework and a script.

ghost use Rattle.std.specs.Prelude.{◌≡◌, ◌≤◌, IfOk};
ghost use Rattle.semantics.specs.Frameworks.{af};
ghost use Rattle.edit_rules.specs.Kinds.{framework_of};
ghost use Rattle.bench_runs.specs.Generator.{bench_framework};
ghost use Rattle.bench_runs.specs.Scripts.{bench_script};

use crate::framework::framework;
use crate::script::script;
use edit_rules::Framework;
use lists::Memory;
use script_text::Script;
use std::alloc::Global;

/// The most arguments of a large input.
pub const MAX_ARGUMENTS: u32 = 100_000;

/// The framework of n arguments and a seed, and the script of its sessions, in time linear in n. Of each argument three
/// attacks are drawn. For each of the first 32 arguments a session drops the first of them, asks, adds it again, and
/// asks; the lines stand by rising argument.
pub fn bench_input(alloc: Global, n: u32, seed: u32) -> Result<(Framework, Script), Memory>
    requires some { 1 ≤ n }
    requires few { n ≤ MAX_ARGUMENTS }
    ensures framework { IfOk result (λ input. framework_of input.0 ≡ af (bench_framework n seed)) }
    ensures script { IfOk result (λ input. input.1 ≡ bench_script n seed) }
{
    let plain = framework(alloc, n, seed)?;
    let script = script(alloc, n, seed)?;
    Ok((Framework::Af(plain), script))
}
