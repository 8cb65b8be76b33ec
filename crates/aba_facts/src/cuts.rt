//! Searches in rising numbers.

ghost use Rattle.std.specs.Prelude.{◌↔◌, ℕ, ◌<◌, Contains, IfNone, IfSome, IsTrue, map};
ghost use Rattle.std.specs.List.Sorted.{IsStrictlyIncreasing};
ghost use Rattle.aba_facts.specs.Cuts.{IsClear, IsCut, IsFirstFrom};

/// How many of the numbers are below a bound.
pub(crate) fn numbers_below(numbers: &[u32], bound: u32) -> usize
    requires { IsStrictlyIncreasing numbers.now }
    ensures { IsCut bound numbers.now result }
{
    numbers.partition_point(|number| *number < bound)
}

/// How many of the pairs have a second number below a bound.
fn seconds_below(pairs: &[(u32, u32)], bound: u32) -> usize
    requires { IsStrictlyIncreasing (map (λ p. p.1) pairs.now) }
    ensures { IsCut bound (map (λ p. p.1) pairs.now) result }
{
    pairs.partition_point(|pair| pair.1 < bound)
}

/// The first of the pairs' second numbers from `begin` on.
pub(crate) fn first_from(pairs: &[(u32, u32)], begin: u32) -> Option<u32>
    requires { IsStrictlyIncreasing (map (λ p. p.1) pairs.now) }
    ensures some { IfSome result (IsFirstFrom (map (λ p. p.1) pairs.now) begin) }
    ensures none { IfNone result ((y : ℕ) → Contains (map (λ p. p.1) pairs.now) y → y < begin) }
{
    let index = seconds_below(pairs, begin);
    if index >= pairs.len() {
        return None;
    }
    Some(pairs[index].1)
}

/// Whether a number is the second of one of the pairs.
pub(crate) fn has_second(pairs: &[(u32, u32)], number: u32) -> bool
    requires { IsStrictlyIncreasing (map (λ p. p.1) pairs.now) }
    ensures { IsTrue result ↔ Contains (map (λ p. p.1) pairs.now) number }
{
    match first_from(pairs, number) {
        Some(first) => first == number,
        None => false,
    }
}

/// Whether none of the pairs has a second number from `begin` to just before `end`.
pub(crate) fn is_clear(pairs: &[(u32, u32)], begin: u32, end: u32) -> bool
    requires { IsStrictlyIncreasing (map (λ p. p.1) pairs.now) }
    ensures { IsTrue result ↔ IsClear (map (λ p. p.1) pairs.now) begin end }
{
    match first_from(pairs, begin) {
        Some(first) => end <= first,
        None => true,
    }
}
