//! A set of numbers, kept as a rising list.

ghost use Rattle.std.specs.Prelude.{◌≡◌, ◌↔◌, ◌⊎◌, ℕ, [], Contains, IfOk, OnOk, OnErr, IsTrue, length, slice_get, IsSorted};
ghost use Rattle.std.specs.List.Sorted.{IsStrictlyIncreasing};
ghost use Rattle.std.specs.Ordering.{nat_cmp};
ghost use Rattle.std.specs.Cmp.Lexicographic.{slice_cmp};
ghost use Rattle.lists.specs.Members.{IsSetOf, IsWithin};

use crate::merge::{merge, subtract};
use lists::Memory;
use std::alloc::Global;
use std::cmp::Ordering;
use std::marker::Model;

/// Numbers without order or repeats. It keeps the allocator that it was made with.
#[derive(Drop)]
pub struct NumSet {
    numbers: Vec<u32>,
}

impl Model for NumSet {
    ghost use Rattle.std.specs.Prelude.{List, ℕ};
    ghost use Rattle.std.specs.List.Sorted.{IsStrictlyIncreasing};

    ghost Value = { List ℕ };

    ghost view = { λ s. s.numbers.items };

    ghost invariant = { λ s. IsStrictlyIncreasing s.numbers.items };
}

/// The numbers in rising order, each once.
fn sorted_once(mut numbers: Vec<u32>) -> Vec<u32>
    ensures { IsSetOf (Contains numbers.items) result.items }
{
    numbers.sort_unstable();
    numbers.dedup();
    numbers
}

impl NumSet {
    /// The empty set, which takes no memory.
    pub fn new(alloc: Global) -> NumSet
        ensures { result ≡ [] }
    {
        NumSet {
            numbers: Vec::new(alloc),
        }
    }

    /// The set of the numbers in a slice, which may repeat and stand in any order.
    pub fn from_slice(alloc: Global, numbers: &[u32]) -> Result<NumSet, Memory>
        ensures { IfOk result (IsSetOf (Contains numbers.now)) }
    {
        let numbers = sorted_once(Vec::from_slice(alloc, numbers)?);
        Ok(NumSet { numbers })
    }

    /// The set of the numbers in a slice that rises already.
    pub fn from_rising(alloc: Global, numbers: &[u32]) -> Result<NumSet, Memory>
        requires { IsStrictlyIncreasing numbers.now }
        ensures { IfOk result (λ s. s ≡ numbers.now) }
    {
        let numbers = Vec::from_slice(alloc, numbers)?;
        Ok(NumSet { numbers })
    }

    /// The numbers of either set.
    pub fn union(&self, alloc: Global, other: &NumSet) -> Result<NumSet, Memory>
        ensures { IfOk result (IsSetOf (λ x. Contains self.now x ⊎ Contains other.now x)) }
    {
        let numbers = merge(alloc, self.numbers.as_slice(), other.numbers.as_slice())?;
        Ok(NumSet { numbers })
    }

    /// The members of this set that the other does not have.
    pub fn minus(&self, alloc: Global, other: &NumSet) -> Result<NumSet, Memory>
        ensures { IfOk result (IsSetOf (λ x. Contains self.now x × ¬ Contains other.now x)) }
    {
        let numbers = subtract(alloc, self.numbers.as_slice(), other.numbers.as_slice())?;
        Ok(NumSet { numbers })
    }

    /// Makes a number a member. After `Memory` the set is as before.
    pub fn insert(&mut self, number: u32) -> Result<(), Memory>
        ensures ok { OnOk result (IsSetOf (λ x. Contains self.old x ⊎ (x ≡ number)) self.new) }
        ensures err { OnErr result (self.new ≡ self.old) }
    {
        if let Err(index) = self.numbers.binary_search(&number) {
            self.numbers.insert(index, number)?;
        }
        Ok(())
    }

    /// The same set again.
    pub fn copy(&self, alloc: Global) -> Result<NumSet, Memory>
        ensures same { IfOk result (λ s. s ≡ self.now) }
        ensures rises { IsStrictlyIncreasing self.now }
    {
        let numbers = Vec::from_slice(alloc, self.numbers.as_slice())?;
        Ok(NumSet { numbers })
    }

    /// Whether the set has a number.
    pub fn contains(&self, number: u32) -> bool
        ensures { IsTrue result ↔ Contains self.now number }
    {
        self.numbers.binary_search(&number).is_ok()
    }

    /// Whether each member is a member of the other set.
    pub fn within(&self, other: &NumSet) -> bool
        ensures { IsTrue result ↔ IsWithin self.now other.now }
    {
        self.numbers.iter().all(|number| other.contains(*number))
    }

    /// The order of the two sets' rising lists: by the first index at which they differ, and a list that
    /// the other continues comes before it.
    pub fn cmp(&self, other: &NumSet) -> Ordering
        ensures { result ≡ slice_cmp nat_cmp self.now other.now }
    {
        self.numbers.cmp(&other.numbers)
    }

    /// The number of members.
    pub fn len(&self) -> usize
        ensures len { result ≡ length self.now }
        ensures rises { IsStrictlyIncreasing self.now }
    {
        self.numbers.len()
    }

    /// Whether the set has no member.
    pub fn is_empty(&self) -> bool
        ensures { IsTrue result ↔ (self.now ≡ []) }
    {
        self.numbers.is_empty()
    }

    /// The member at an index of the rising order, counted from 0, where there is one.
    pub fn get(&self, index: usize) -> Option<u32>
        ensures member { result ≡ slice_get self.now index }
        ensures rises { IsStrictlyIncreasing self.now }
    {
        self.numbers.get(index).copied()
    }

    /// The members in rising order.
    pub fn as_slice(&self) -> &[u32]
        ensures value { result.now ≡ self.now }
        ensures rises { IsStrictlyIncreasing self.now }
    {
        self.numbers.as_slice()
    }
}
