//! The laws of literals and of the check of a clause with its hints. Each function does nothing; its contract is the
//! law.

ghost use Rattle.std.specs.Prelude.{◌≡◌, ◌≢◌, ◌⊎◌, ◌↔◌, ℕ, List, map, Result, Ok, Bool, true, IsTrue};
ghost use Rattle.std.specs.declared.cmp.Ordering.TheVariants.{Less, Equal};
ghost use Rattle.plain_lits.specs.declared.lit.Lit.{Lit};
ghost use Rattle.plain_lits.specs.Literals.{IsLitBefore};
ghost use Rattle.plain_lits.specs.HintCheck.{Checks};
ghost use Rattle.plain_lits.specs.CheckLaws.{IsSound, HasOneOutcome, Renames, IsMovedCheck};

use crate::lit::Lit;

/// `==` of literals is equality of values; `cmp` is `Equal` only there, and `Less` just where the one comes before
/// the other.
pub fn literals_compare_by_value()
    ensures equal { (a b : Lit) → IsTrue (⟦<Lit as PartialEq>⟧.eq a b) ↔ (a ≡ b) }
    ensures same { (a b : Lit) → (⟦<Lit as Ord>⟧.cmp a b ≡ Equal) ↔ (a ≡ b) }
    ensures less { (a b : Lit) → (⟦<Lit as Ord>⟧.cmp a b ≡ Less) ↔ IsLitBefore a b }
{}

/// A clause that the check takes is true wherever the clauses of its hints are, whatever the literals are.
pub fn taken_clauses_follow<L>()
    ensures { (neg : L → L) (steps : List (List L)) (clause : List L) (hints : List ℕ) (n : ℕ)
        → Checks neg steps clause hints (Ok n) → IsSound neg steps clause hints n }
{}

/// The check has exactly one outcome, whatever the literals are, where it is decided of any two whether they are equal.
pub fn check_has_one_outcome<L>()
    ensures { (neg : L → L) → ((a b : L) → (a ≡ b) ⊎ (a ≢ b))
        → (steps : List (List L)) (clause : List L) (hints : List ℕ) → HasOneOutcome neg steps clause hints }
{}

/// A check with its hints has the same outcome over other literals and other numbers of steps, to which its clause
/// and its hints are moved.
pub fn checks_move<L, M>()
    ensures { (neg : L → L) (other : M → M) (to : L → M) (is_in : L → Bool) → Renames neg other to (λ l. is_in l ≡ true)
        → (number : ℕ → ℕ) (steps : List (List L)) (new_steps : List (List M)) (clause : List L) (new_clause : List M)
        (hints : List ℕ) → IsMovedCheck to (λ l. is_in l ≡ true) number steps new_steps clause new_clause hints
        → (outcome : Result ℕ ℕ) → Checks neg steps clause hints outcome
        → Checks other new_steps new_clause (map number hints) outcome }
{}
