//! A framework by plain lists.

ghost use Rattle.std.specs.Prelude.{◌↔◌, Contains, IsTrue};
ghost use Rattle.lists.specs.Members.{IsWithin};

/// A rule under its number.
#[derive(Clone, Copy, Drop)]
pub struct PlainRule<'a> {
    pub number: u32,
    pub head: u32,
    pub body: &'a [u32],
}

/// An assumption-based framework by its parts, whose lists may be in any order: the atoms are the numbers from 1 to
/// `atoms`, the contraries are pairs (assumption, contrary), and `next` is the number that the next rule gets.
#[derive(Clone, Copy, Drop)]
pub struct AbaLists<'a> {
    pub atoms: u32,
    pub assumptions: &'a [u32],
    pub contraries: &'a [(u32, u32)],
    pub rules: &'a [PlainRule<'a>],
    pub next: u32,
}

/// Whether a number is in the list.
pub(crate) fn contains(list: &[u32], number: u32) -> bool
    ensures { IsTrue result ↔ Contains list.now number }
{
    list.iter().any(|item| *item == number)
}

/// Whether each member of the one list is in the other.
pub(crate) fn is_within(list: &[u32], other: &[u32]) -> bool
    ensures { IsTrue result ↔ IsWithin list.now other.now }
{
    list.iter().all(|item| contains(other, *item))
}
