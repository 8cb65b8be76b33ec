//! A framework as two plain lists, and the tests of a set that look at no other set.

ghost use Rattle.std.specs.Prelude.{◌≡◌, ◌↔◌, ℕ, Contains, IsTrue};
ghost use Rattle.lists.specs.Members.{IsWithin};
ghost use Rattle.semantics.specs.Framework.{Attacks, IsAttackedBy, Defends, IsConflictFree, IsAdmissible, IsComplete, IsStable, IsInRange, IsRangeWithin};
ghost use Rattle.semantics.specs.Notions.{AfOf};

/// An abstract framework by its two lists, in any order: the live arguments, and the attacks as pairs
/// (attacker, target).
#[derive(Clone, Copy, Drop)]
pub struct AfLists<'a> {
    pub live: &'a [u32],
    pub attacks: &'a [(u32, u32)],
}

/// Whether a number is in the list.
pub(crate) fn contains(list: &[u32], number: u32) -> bool
    ensures { IsTrue result ↔ Contains list.now number }
{
    list.iter().any(|item| *item == number)
}

/// Whether each member of the one list is in the other.
pub(crate) fn is_within(list: &[u32], other: &[u32]) -> bool
    ensures { IsTrue result ↔ IsWithin list.now other.now }
{
    list.iter().all(|item| contains(other, *item))
}

impl AfLists<'_> {
    /// Whether no member of the set that is live attacks another or itself.
    pub(crate) fn is_conflict_free(&self, set: &[u32]) -> bool
        ensures { IsTrue result ↔ IsConflictFree (AfOf self.now) set.now }
    {
        is_within(set, self.live) && self.is_apart(set)
    }

    /// Whether the set is conflict-free, and defends each member.
    pub(crate) fn is_admissible(&self, set: &[u32]) -> bool
        ensures { IsTrue result ↔ IsAdmissible (AfOf self.now) set.now }
    {
        self.is_conflict_free(set) && self.defends_members(set)
    }

    /// Whether the set is admissible, and holds each live argument that it defends.
    pub(crate) fn is_complete(&self, set: &[u32]) -> bool
        ensures { IsTrue result ↔ IsComplete (AfOf self.now) set.now }
    {
        self.is_admissible(set) && self.holds_defended(set)
    }

    /// Whether the set is conflict-free, and attacks each live argument outside it.
    pub(crate) fn is_stable(&self, set: &[u32]) -> bool
        ensures { IsTrue result ↔ IsStable (AfOf self.now) set.now }
    {
        self.is_conflict_free(set) && self.attacks_outside(set)
    }

    /// Whether the one set's range lies in the other's.
    pub(crate) fn is_range_within(&self, set: &[u32], other: &[u32]) -> bool
        ensures { IsTrue result ↔ IsRangeWithin (AfOf self.now) set.now other.now }
    {
        self.are_in_range(other, set) && self.covers_targets(set, other)
    }

    /// Whether one argument attacks another.
    fn has_attack(&self, attacker: u32, target: u32) -> bool
        ensures { IsTrue result ↔ Attacks (AfOf self.now) attacker target }
    {
        self.attacks
            .iter()
            .any(|attack| *attack == (attacker, target))
    }

    /// Whether some member of the set attacks an argument.
    fn is_attacked_by(&self, set: &[u32], argument: u32) -> bool
        ensures { IsTrue result ↔ IsAttackedBy (AfOf self.now) set.now argument }
    {
        set.iter().any(|member| self.has_attack(*member, argument))
    }

    /// Whether no member of the set attacks another or itself.
    fn is_apart(&self, set: &[u32]) -> bool
        ensures { IsTrue result ↔ ((a : ℕ) → Contains set.now a → ¬ IsAttackedBy (AfOf self.now) set.now a) }
    {
        set.iter().all(|member| !self.is_attacked_by(set, *member))
    }

    /// Whether the set attacks the attacker of an attack, where the attack is on this argument.
    fn answers(&self, set: &[u32], argument: u32, attack: (u32, u32)) -> bool
        ensures { IsTrue result ↔ (attack.1 ≡ argument → IsAttackedBy (AfOf self.now) set.now attack.0) }
    {
        attack.1 != argument || self.is_attacked_by(set, attack.0)
    }

    /// Whether the set attacks each attacker of an argument.
    fn defends(&self, set: &[u32], argument: u32) -> bool
        ensures { IsTrue result ↔ Defends (AfOf self.now) set.now argument }
    {
        self.attacks
            .iter()
            .all(|attack| self.answers(set, argument, *attack))
    }

    /// Whether the set defends each member.
    fn defends_members(&self, set: &[u32]) -> bool
        ensures { IsTrue result ↔ ((a : ℕ) → Contains set.now a → Defends (AfOf self.now) set.now a) }
    {
        set.iter().all(|member| self.defends(set, *member))
    }

    /// Whether an argument is a member, if the set defends it.
    fn holds_if_defended(&self, set: &[u32], argument: u32) -> bool
        ensures { IsTrue result ↔ (Defends (AfOf self.now) set.now argument → Contains set.now argument) }
    {
        contains(set, argument) || !self.defends(set, argument)
    }

    /// Whether the set holds each live argument that it defends.
    fn holds_defended(&self, set: &[u32]) -> bool
        ensures { IsTrue result ↔ ((a : ℕ) → Contains self.now.live.now a → Defends (AfOf self.now) set.now a
            → Contains set.now a) }
    {
        self.live
            .iter()
            .all(|argument| self.holds_if_defended(set, *argument))
    }

    /// Whether an argument is a member of the set, or attacked by it.
    fn is_in_range(&self, set: &[u32], argument: u32) -> bool
        ensures { IsTrue result ↔ IsInRange (AfOf self.now) set.now argument }
    {
        contains(set, argument) || self.is_attacked_by(set, argument)
    }

    /// Whether the set attacks an argument, if it is not a member.
    fn attacks_if_outside(&self, set: &[u32], argument: u32) -> bool
        ensures { IsTrue result ↔ (¬ Contains set.now argument → IsAttackedBy (AfOf self.now) set.now argument) }
    {
        contains(set, argument) || self.is_attacked_by(set, argument)
    }

    /// Whether the set attacks each live argument outside it.
    fn attacks_outside(&self, set: &[u32]) -> bool
        ensures { IsTrue result ↔ ((a : ℕ) → Contains self.now.live.now a → ¬ Contains set.now a
            → IsAttackedBy (AfOf self.now) set.now a) }
    {
        self.live
            .iter()
            .all(|argument| self.attacks_if_outside(set, *argument))
    }

    /// Whether each of the arguments lies in the set's range.
    fn are_in_range(&self, set: &[u32], arguments: &[u32]) -> bool
        ensures { IsTrue result ↔ ((a : ℕ) → Contains arguments.now a → IsInRange (AfOf self.now) set.now a) }
    {
        arguments
            .iter()
            .all(|argument| self.is_in_range(set, *argument))
    }

    /// Whether an attack's target lies in the second set's range, if its attacker is in the first.
    fn covers_target(&self, set: &[u32], other: &[u32], attack: (u32, u32)) -> bool
        ensures { IsTrue result ↔ (Contains set.now attack.0 → IsInRange (AfOf self.now) other.now attack.1) }
    {
        !contains(set, attack.0) || self.is_in_range(other, attack.1)
    }

    /// Whether each argument that the first set attacks lies in the second set's range.
    fn covers_targets(&self, set: &[u32], other: &[u32]) -> bool
        ensures { IsTrue result ↔ ((b a : ℕ) → Attacks (AfOf self.now) b a → Contains set.now b
            → IsInRange (AfOf self.now) other.now a) }
    {
        self.attacks
            .iter()
            .all(|attack| self.covers_target(set, other, *attack))
    }
}
