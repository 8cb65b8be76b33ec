//! Comparisons and hashes, each through its bound.

use meaning_atoms::{Atom, AtomLit};
use std::collections::hash_map::DefaultHasher;
use std::hash::{Hash, Hasher};
use std::process::Abort;

/// Whether the three values, which differ, are in the order that they stand in, and equal to themselves alone.
fn rise<T: Ord>(values: &[T; 3]) -> bool {
    let [first, second, third] = values;
    first < second && second < third && first < third && first == first && first != third
}

/// The hash of a value.
fn hash_of<T: Hash>(value: &T) -> u64 {
    let mut hasher = DefaultHasher::new();
    value.hash(&mut hasher);
    hasher.finish()
}

/// Whether equal values have equal hashes, and the three values, which differ, have hashes of their own.
fn are_told_apart<T: Hash + Eq>(values: &[T; 3], again: &[T; 3]) -> bool {
    values.iter().zip(again.iter()).all(|(value, same)| value == same
        && hash_of(value) == hash_of(same))
        && hash_of(&values[0]) != hash_of(&values[1])
        && hash_of(&values[1]) != hash_of(&values[2])
}

fn check<T: Ord + Hash>(rt: &impl Abort, values: &[T; 3], again: &[T; 3]) {
    assert!(rt; rise(values));
    assert!(rt; are_told_apart(values, again));
}

fn atoms() -> [Atom; 3] {
    [Atom::Gap(1, 2, 3), Atom::Gap(1, 2, 4), Atom::Tail(1, 2)]
}

fn literals() -> [AtomLit; 3] {
    let lit = |atom, positive| AtomLit { atom, positive };
    [
        lit(Atom::Cf, false),
        lit(Atom::Cf, true),
        lit(Atom::Ask(1), false),
    ]
}

#[test]
fn values_in_order(rt: HostRuntime) {
    check(&rt, &atoms(), &atoms());
    check(&rt, &literals(), &literals());
}
