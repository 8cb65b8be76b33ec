//! The draws of a linear congruential generator, and the attackers that they are.

ghost use Rattle.std.specs.Prelude.{◌≡◌, ◌<◌, ◌≤◌};
ghost use Rattle.bench_runs.specs.Generator.{attacker_of, next_state};

/// What each state is multiplied by.
pub const MULTIPLIER: u64 = 6_364_136_223_846_793_005;

/// What is added then.
pub const INCREMENT: u64 = 1_442_695_040_888_963_407;

/// The state behind a state.
pub(crate) fn next(state: u64) -> u64
    ensures { result ≡ next_state state }
{
    state.wrapping_mul(MULTIPLIER).wrapping_add(INCREMENT)
}

/// The attacker of 1 to n that a state draws.
pub(crate) fn drawn(state: u64, n: u32) -> u32
    requires { 0 < n }
    ensures value { result ≡ attacker_of n state }
    ensures low { 1 ≤ result }
    ensures high { result ≤ n }
{
    let half = (state >> 32) % n as u64;
    half as u32 + 1
}
