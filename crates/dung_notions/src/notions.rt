//! Tests of a set of arguments against the notions of extension. They take no memory.
//!
//! With n arguments and m attacks, and a set of k members, the tests of conflict-freeness, admissibility and
//! stability walk each attack at most a fixed number of times, and look a number up in the set at each step: they
//! take time proportional to (n + m) log(k + n). The test of completeness is not linear: besides the walk for
//! admissibility it asks, of each argument outside the set, of each of its attackers whether the set attacks it,
//! up to the first that the set does not attack. Where attackers with many attackers of their own attack many
//! arguments, as b attackers of each of c targets with d attackers each, that is up to b c d steps.

ghost use Rattle.std.specs.Prelude.{◌≡◌, ◌↔◌, ℕ, Contains, IsTrue, length};
ghost use Rattle.std.specs.List.{range_with_len};
ghost use Rattle.std.specs.List.Sorted.{IsStrictlyIncreasing};
ghost use Rattle.attack_index.specs.semantics.specs.Framework.{IsAttackedBy, Defends, IsConflictFree, IsAdmissible};
ghost use Rattle.attack_index.specs.semantics.specs.Framework.{IsComplete, IsStable};
ghost use Rattle.dung_notions.specs.Neighbours.{AreArguments};
ghost use Rattle.dung_notions.specs.Notions.{AttacksInto};
ghost use Rattle.dung_notions.specs.Solid.{IsSolid};

use crate::af_plain::AfPlain;
use set_lists::NumSet;

impl AfPlain {
    /// Whether the members are live, and none attacks another or itself.
    pub fn is_conflict_free(&self, set: &NumSet) -> bool
        ensures { IsTrue result ↔ IsConflictFree self.now set.now }
    {
        set.as_slice()
            .iter()
            .all(|member| self.is_unconflicted(set, *member))
    }

    /// Whether the set is conflict-free, and attacks each attacker of a member.
    pub fn is_admissible(&self, set: &NumSet) -> bool
        ensures { IsTrue result ↔ IsAdmissible self.now set.now }
    {
        self.is_conflict_free(set) && self.defends_itself(set)
    }

    /// Whether the set is admissible, and holds each live argument that it defends. This test may take more
    /// than linear time, as the head of the module says.
    pub fn is_complete(&self, set: &NumSet) -> bool
        ensures { IsTrue result ↔ IsComplete self.now set.now }
    {
        self.is_admissible(set) && self.holds_defended(set)
    }

    /// Whether the set is conflict-free, and attacks each live argument outside it.
    pub fn is_stable(&self, set: &NumSet) -> bool
        ensures { IsTrue result ↔ IsStable self.now set.now }
    {
        self.is_conflict_free(set) && self.attacks_others(set)
    }

    /// Whether the live arguments are the numbers from 1 to some n of at most `MAX_ARGUMENT`, as in a text of the
    /// framework. Only tests call it: no command writes a framework.
    pub fn is_solid(&self) -> bool
        ensures { IsTrue result ↔ IsSolid self.now }
    {
        is_numbered(self.live())
    }

    /// Whether a member attacks an argument.
    fn is_attacked_by(&self, set: &NumSet, argument: u32) -> bool
        ensures { IsTrue result ↔ IsAttackedBy self.now set.now argument }
    {
        self.attackers_of(argument)
            .iter()
            .any(|pair| set.contains(pair.1))
    }

    /// Whether an argument attacks a member.
    fn attacks_into(&self, set: &NumSet, argument: u32) -> bool
        ensures { IsTrue result ↔ AttacksInto self.now argument set.now }
    {
        self.targets_of(argument)
            .iter()
            .any(|pair| set.contains(pair.1))
    }

    /// Whether the set attacks each attacker of an argument.
    fn defends(&self, set: &NumSet, argument: u32) -> bool
        ensures { IsTrue result ↔ Defends self.now set.now argument }
    {
        self.attackers_of(argument)
            .iter()
            .all(|pair| self.is_attacked_by(set, pair.1))
    }

    /// Whether an argument is live, and attacks no member.
    fn is_unconflicted(&self, set: &NumSet, argument: u32) -> bool
        ensures { IsTrue result ↔ (Contains self.now.live argument × ¬ AttacksInto self.now argument set.now) }
    {
        self.is_live(argument) && !self.attacks_into(set, argument)
    }

    /// Whether the set attacks each attacker of a member.
    fn defends_itself(&self, set: &NumSet) -> bool
        ensures { IsTrue result ↔ ((a : ℕ) → Contains set.now a → Defends self.now set.now a) }
    {
        self.live()
            .iter()
            .all(|attacker| self.is_answered(set, *attacker))
    }

    /// Whether a member attacks an argument, if it attacks a member.
    fn is_answered(&self, set: &NumSet, argument: u32) -> bool
        ensures { IsTrue result ↔ (AttacksInto self.now argument set.now → IsAttackedBy self.now set.now argument) }
    {
        !self.attacks_into(set, argument) || self.is_attacked_by(set, argument)
    }

    /// Whether the set holds each live argument that it defends.
    fn holds_defended(&self, set: &NumSet) -> bool
        ensures { IsTrue result ↔ ((a : ℕ) → Contains self.now.live a → Defends self.now set.now a → Contains set.now a) }
    {
        self.live()
            .iter()
            .all(|argument| self.holds_if_defended(set, *argument))
    }

    /// Whether an argument is a member, if the set defends it.
    fn holds_if_defended(&self, set: &NumSet, argument: u32) -> bool
        ensures { IsTrue result ↔ (Defends self.now set.now argument → Contains set.now argument) }
    {
        set.contains(argument) || !self.defends(set, argument)
    }

    /// Whether the set attacks each live argument outside it.
    fn attacks_others(&self, set: &NumSet) -> bool
        ensures { IsTrue result ↔ ((a : ℕ) → Contains self.now.live a → ¬ Contains set.now a
            → IsAttackedBy self.now set.now a) }
    {
        self.live()
            .iter()
            .all(|argument| self.attacks_if_outside(set, *argument))
    }

    /// Whether a member attacks an argument, if it is not a member.
    fn attacks_if_outside(&self, set: &NumSet, argument: u32) -> bool
        ensures { IsTrue result ↔ (¬ Contains set.now argument → IsAttackedBy self.now set.now argument) }
    {
        set.contains(argument) || self.is_attacked_by(set, argument)
    }
}

/// Whether rising numbers of arguments are those from 1 up without a gap: the largest is as large as they are many.
fn is_numbered(rising: &[u32]) -> bool
    requires rises { IsStrictlyIncreasing rising.now }
    requires arguments { AreArguments rising.now }
    ensures { IsTrue result ↔ (rising.now ≡ range_with_len 1 (length rising.now)) }
{
    match rising.last() {
        None => true,
        Some(largest) => *largest as usize == rising.len(),
    }
}
