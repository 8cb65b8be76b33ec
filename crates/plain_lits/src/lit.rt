//! A literal: a variable, or its negation.

ghost use Rattle.std.specs.Prelude.{◌≡◌};
ghost use Rattle.plain_lits.specs.Literals.{negation};

use std::ops::Not;

/// A variable by its number, or its negation. Literals are ordered by variable, the negation first.
#[derive(Clone, Copy, Debug, Default, PartialEq, Eq, PartialOrd, Ord, Hash)]
pub struct Lit {
    pub var: usize,
    pub positive: bool,
}

impl Not for Lit {
    type Output = Lit;

    ghost not_gives = { λ l r. r ≡ negation l };

    /// The negation of the literal.
    fn not(self) -> Lit {
        Lit {
            var: self.var,
            positive: !self.positive,
        }
    }
}
