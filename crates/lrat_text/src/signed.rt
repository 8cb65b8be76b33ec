//! Numbers with a sign.

ghost use Rattle.std.specs.Prelude.{◌≡◌, ℕ, List, ◌∷◌, IfSome, IfNone};
ghost use Rattle.num_text.specs.Numerals.{IsReadNumber};
ghost use Rattle.plain_lits.specs.declared.lit.Lit.{Lit as Signed};
ghost use Rattle.lrat_text.specs.Numbers.{IsSigned};

use num_text::decimal;
use plain_lits::Lit;

// The digits behind a `-`.
fn negated(text: &[u8]) -> Option<&[u8]>
    ensures some { IfSome result (λ digits. text.now ≡ 45 ∷ digits.now) }
    ensures none { IfNone result ((digits : List ℕ) → ¬ (text.now ≡ 45 ∷ digits)) }
{
    match text {
        [b'-', digits @ ..] => Some(digits),
        _ => None,
    }
}

/// The number that a field's text spells as a variable, behind `-` as its negation. The variable may be 0.
pub(crate) fn signed(text: &[u8], number: Option<u32>) -> Option<Lit>
    requires { IsReadNumber text.now number }
    ensures some { IfSome result (IsSigned text.now) }
    ensures none { IfNone result ((l : Signed) → ¬ IsSigned text.now l) }
{
    if let Some(number) = number {
        return Some(Lit {
            var: number as usize,
            positive: true,
        });
    }
    let digits = negated(text)?;
    let number = decimal(digits)?;
    Some(Lit {
        var: number as usize,
        positive: false,
    })
}
