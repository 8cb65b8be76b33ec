//! New engines.

use aba_format::read_aba;
use dung_notions::AfPlain;
use edit_rules::Framework;
use hinted_log::MAX_STEPS;
use oracle_core::Engine;
use std::alloc::Global;

/// The engine for an abstract framework, whose log may have so many steps.
pub(crate) fn af_engine(
    alloc: Global,
    arguments: &[u32],
    attacks: &[(u32, u32)],
    steps: u64,
) -> Option<Engine> {
    if steps > MAX_STEPS {
        return None;
    }
    let plain = AfPlain::of_lists(alloc, arguments, attacks).ok()?;
    Engine::new(alloc, 1, Framework::Af(plain), steps).ok()
}

/// The engine for the framework of a text.
pub(crate) fn aba_engine(alloc: Global, text: &str) -> Option<Engine> {
    if text.len() > 268_435_456 {
        return None;
    }
    let plain = read_aba(alloc, text.as_bytes()).ok()?;
    Engine::new(alloc, 1, Framework::Aba(plain), 1_000_000).ok()
}
