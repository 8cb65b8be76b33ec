//! A claim, whose goals are looked up, and whose side clauses are made only where a step names them.

ghost use Rattle.std.specs.Prelude.{◌≡◌, ◌↔◌, Contains, IsTrue};
ghost use Rattle.edit_rules.specs.Kinds.{framework_of};
ghost use Rattle.answer_claims.specs.ClaimParts.{IsGoal, IsSetGoal};
ghost use Rattle.answer_claims.specs.SetFacts.{IsRangeOf};

use crate::kinds::is_member;
use crate::sides::SideKind;
use edit_rules::Framework;
use lists::Items;
use meaning_atoms::laws::literals_are_equal;
use meaning_atoms::{Atom, AtomLit};
use set_lists::NumSet;

/// A claim. Its goals are a few literals, that some numbers are members, that others are not, and that what a set has
/// in its range is in the range.

pub struct Claim {
    /// A few literals that are goals as they stand.
    pub fixed: Items<AtomLit>,
    /// Each of these is a member.
    pub inside: NumSet,
    /// Each of these that sets may have is no member.
    pub outside: NumSet,
    /// What this set has in its range is in the range.
    pub ranged: NumSet,
    /// What a side clause says of a set.
    pub kind: SideKind,
    /// The sets that side clauses of this kind speak of.
    pub sides: Items<NumSet>,
}

// By hand, so that a drop is one call (docs/PROVING.md).
impl Drop for Claim {
    fn drop(self) {
        let Claim {
            fixed: _,
            inside: _,
            outside: _,
            ranged: _,
            kind: _,
            sides: _,
        } = self;
    }
}

/// Whether a literal is a goal; `range` is the range of the claim's set.
pub fn is_goal(framework: &Framework, claim: &Claim, range: &NumSet, literal: &AtomLit) -> bool
    requires { IsRangeOf (framework_of framework.now) claim.now.ranged range.now }
    ensures { IsTrue result ↔ IsGoal (framework_of framework.now) claim.now literal.now }
{
    is_fixed(claim.fixed.as_slice(), literal) || is_set_goal(framework, claim, range, literal)
}

/// Whether a literal is one of a few.
fn is_fixed(few: &[AtomLit], literal: &AtomLit) -> bool
    ensures { IsTrue result ↔ Contains few.now literal.now }
{
    few.iter().any(|goal| literals_are_equal(goal, literal))
}

/// Whether a literal says of a number what the claim's sets say.
fn is_set_goal(framework: &Framework, claim: &Claim, range: &NumSet, literal: &AtomLit) -> bool
    requires { IsRangeOf (framework_of framework.now) claim.now.ranged range.now }
    ensures { IsTrue result ↔ IsSetGoal (framework_of framework.now) claim.now literal.now.atom literal.now.positive }
{
    match (literal.atom, literal.positive) {
        (Atom::Member(a), true) => claim.inside.contains(a),
        (Atom::Member(a), false) => claim.outside.contains(a) && is_member(framework, a),
        (Atom::Range(a), true) => range.contains(a) && is_member(framework, a),
        _ => false,
    }
}
