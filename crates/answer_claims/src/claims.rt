//! The claims of a row, in order.

ghost use Rattle.std.specs.Prelude.{◌≡◌, ◌∷◌, ◌++◌, [], ℕ, List, length, map, IfOk};
ghost use Rattle.semantics.specs.Frameworks.{Framework as AnyFramework};
ghost use Rattle.meaning_atoms.specs.declared.atom.Atom.TheVariants.{Ad};
ghost use Rattle.meaning_atoms.specs.Literals.{affirmed};
ghost use Rattle.certificate_claims.specs.Claims.{claim_of, claims, ideal_claims, range_cover, range_free, range_listed};
ghost use Rattle.certificate_claims.specs.declared.row.Row.TheVariants.{AllLargest, AllTested, AllWidest, Covered, Excluded, Largest, Ranged, Widest};
ghost use Rattle.edit_rules.specs.Kinds.{framework_of};
ghost use Rattle.certificate_claims.specs.Ranges.{IsFirstRanged};
ghost use Rattle.certificate_claims.specs.SetLiterals.{are_in, are_out, are_ranged, hit_by_any, outside, range_of};
ghost use Rattle.answer_claims.specs.ClaimParts.{AreClaims, IsClaimOf};
ghost use Rattle.answer_claims.specs.SetFacts.{AreSetsOf, HasSetsOf, IsHitBy};
ghost use Rattle.answer_claims.specs.SideClauses.{sides_of};

use crate::claim::Claim;
use crate::hits::hit_by;
use crate::kinds::{all_ranges, first_with_ranges};
use crate::rows::{copies, goal_literal, of_mode, one, opposite, two, yes};
use crate::sides::SideKind;
use certificate_claims::{FirstRanged, Row, with_range};
use edit_rules::Framework;
use lists::{Items, Memory};
use meaning_atoms::{Atom, AtomLit};
use semantics::Mode;
use set_lists::NumSet;
use std::alloc::Global;

/// The claim of a few goals, and of side clauses.
fn few_goals(alloc: Global, fixed: Items<AtomLit>, kind: SideKind, sides: Items<NumSet>) -> Claim
    ensures { (f : AnyFramework) → IsClaimOf f result (claim_of fixed (sides_of f kind sides)) }
{
    Claim {
        fixed,
        inside: NumSet::new(alloc),
        outside: NumSet::new(alloc),
        ranged: NumSet::new(alloc),
        kind,
        sides,
    }
}

/// The claim of a few goals and that a set's range is in the range, and of side clauses.
fn range_goals(
    alloc: Global,
    fixed: Items<AtomLit>,
    ranged: NumSet,
    kind: SideKind,
    sides: Items<NumSet>,
) -> Claim
    ensures { (f : AnyFramework) → IsClaimOf f result
        (claim_of (fixed ++ are_ranged (range_of f ranged)) (sides_of f kind sides)) }
{
    Claim {
        fixed,
        inside: NumSet::new(alloc),
        outside: NumSet::new(alloc),
        ranged,
        kind,
        sides,
    }
}

/// The claim of a few goals and that a set's members are members, and of side clauses.
fn member_goals(
    alloc: Global,
    fixed: Items<AtomLit>,
    inside: NumSet,
    kind: SideKind,
    sides: Items<NumSet>,
) -> Claim
    ensures { (f : AnyFramework) → IsClaimOf f result (claim_of (fixed ++ are_in inside) (sides_of f kind sides)) }
{
    Claim {
        fixed,
        inside,
        outside: NumSet::new(alloc),
        ranged: NumSet::new(alloc),
        kind,
        sides,
    }
}

/// A list of one set.
fn one_set(alloc: Global, set: &NumSet) -> Result<Items<NumSet>, Memory>
    ensures { IfOk result (λ list. list ≡ set.now ∷ []) }
{
    let mut list = Items::new(alloc);
    list.push(set.copy(alloc)?)?;
    Ok(list)
}

/// The same literals again.
fn same_literals(alloc: Global, literals: &[AtomLit]) -> Result<Items<AtomLit>, Memory>
    ensures { IfOk result (λ list. list ≡ literals.now) }
{
    let mut list = Items::new(alloc);
    for literal in literals {
        list.push(*literal)?;
    }
    Ok(list)
}

/// A list of one claim.
fn one_claim(alloc: Global, claim: Claim) -> Result<Items<Claim>, Memory>
    ensures { IfOk result (λ list. list ≡ claim ∷ []) }
{
    let mut list = Items::new(alloc);
    list.push(claim)?;
    Ok(list)
}

/// The claim that the ideal set's others leave nothing larger.
fn ideal_claim(alloc: Global, set: &NumSet, hit: NumSet) -> Result<Claim, Memory>
    ensures { IfOk result (λ c. (f : AnyFramework) (others : List (List ℕ)) → IsHitBy f others hit
        → IsClaimOf f c (claim_of (affirmed Ad ∷ (are_in set.now ++ are_out (hit_by_any f others)))
        (outside f set.now ∷ []))) }
{
    Ok(Claim {
        fixed: one(alloc, yes(Atom::Ad))?,
        inside: set.copy(alloc)?,
        outside: hit,
        ranged: NumSet::new(alloc),
        kind: SideKind::Outside,
        sides: one_set(alloc, set)?,
    })
}

/// The claims that an admissible set lies in no larger one.
fn largest_claims(
    alloc: Global,
    framework: &Framework,
    set: &NumSet,
) -> Result<Items<Claim>, Memory>
    ensures { IfOk result (λ cs. AreClaims (framework_of framework.now) cs
        (claims (framework_of framework.now) (Largest set.now) [])) }
{
    let fixed = one(alloc, yes(Atom::Ad))?;
    let inside = set.copy(alloc)?;
    let sides = one_set(alloc, set)?;
    let claim = member_goals(alloc, fixed, inside, SideKind::Outside, sides);
    let list = one_claim(alloc, claim)?;
    Ok(list)
}

/// The claims that no set of the mode has a larger range than a set.
fn widest_claims(
    alloc: Global,
    framework: &Framework,
    mode: Mode,
    set: &NumSet,
) -> Result<Items<Claim>, Memory>
    ensures { IfOk result (λ cs. AreClaims (framework_of framework.now) cs
        (claims (framework_of framework.now) (Widest mode set.now) [])) }
{
    let fixed = one(alloc, of_mode(mode))?;
    let ranged = set.copy(alloc)?;
    let sides = one_set(alloc, set)?;
    let claim = range_goals(alloc, fixed, ranged, SideKind::Wider, sides);
    let list = one_claim(alloc, claim)?;
    Ok(list)
}

/// The claims that no set makes literals true.
fn excluded_claims(
    alloc: Global,
    framework: &Framework,
    goals: &[AtomLit],
) -> Result<Items<Claim>, Memory>
    ensures { IfOk result (λ cs. AreClaims (framework_of framework.now) cs
        (claims (framework_of framework.now) (Excluded goals.now) [])) }
{
    let _kind = framework.kind();
    let fixed = same_literals(alloc, goals)?;
    let sides = Items::new(alloc);
    let claim = few_goals(alloc, fixed, SideKind::Outside, sides);
    let list = one_claim(alloc, claim)?;
    Ok(list)
}

/// The claims that each admissible set that doesn't accept the query lies in one of the sets.
fn covered_claims(
    alloc: Global,
    framework: &Framework,
    number: u32,
    sets: &[NumSet],
) -> Result<Items<Claim>, Memory>
    ensures { IfOk result (λ cs. AreClaims (framework_of framework.now) cs
        (claims (framework_of framework.now) (Covered number) sets.now)) }
{
    let literal = opposite(goal_literal(framework, number));
    let fixed = two(alloc, yes(Atom::Ad), literal)?;
    let sides = copies(alloc, sets)?;
    let claim = few_goals(alloc, fixed, SideKind::Outside, sides);
    let list = one_claim(alloc, claim)?;
    Ok(list)
}

/// The claims that no other set than these makes an atom true.
fn all_tested_claims(
    alloc: Global,
    framework: &Framework,
    mode: Atom,
    sets: &[NumSet],
) -> Result<Items<Claim>, Memory>
    ensures { IfOk result (λ cs. AreClaims (framework_of framework.now) cs
        (claims (framework_of framework.now) (AllTested mode sets.now) [])) }
{
    let _kind = framework.kind();
    let fixed = one(alloc, yes(mode))?;
    let sides = copies(alloc, sets)?;
    let claim = few_goals(alloc, fixed, SideKind::Differs, sides);
    let list = one_claim(alloc, claim)?;
    Ok(list)
}

/// The claims that each admissible set lies in one of the sets.
fn all_largest_claims(
    alloc: Global,
    framework: &Framework,
    sets: &[NumSet],
) -> Result<Items<Claim>, Memory>
    ensures { IfOk result (λ cs. AreClaims (framework_of framework.now) cs
        (claims (framework_of framework.now) (AllLargest sets.now) [])) }
{
    let _kind = framework.kind();
    let fixed = one(alloc, yes(Atom::Ad))?;
    let sides = copies(alloc, sets)?;
    let claim = few_goals(alloc, fixed, SideKind::Outside, sides);
    let list = one_claim(alloc, claim)?;
    Ok(list)
}

/// The claim that no set of the mode that makes a literal true has all of a set's range.
fn free_claim(alloc: Global, mode: Mode, bad: AtomLit, set: &NumSet) -> Result<Claim, Memory>
    ensures { IfOk result (λ c. (f : AnyFramework) → IsClaimOf f c (range_free f mode bad set.now)) }
{
    let fixed = two(alloc, of_mode(mode), bad)?;
    let ranged = set.copy(alloc)?;
    let sides = Items::new(alloc);
    let claim = range_goals(alloc, fixed, ranged, SideKind::Outside, sides);
    Ok(claim)
}

/// The claims that each set of the mode that makes a literal true has its range in that of one of the sets, and that
/// none has all of such a range.
fn ranged_claims(
    alloc: Global,
    framework: &Framework,
    mode: Mode,
    bad: AtomLit,
    sets: &[NumSet],
) -> Result<Items<Claim>, Memory>
    ensures { IfOk result (λ cs. AreClaims (framework_of framework.now) cs
        (claims (framework_of framework.now) (Ranged mode bad) sets.now)) }
{
    let _kind = framework.kind();
    let fixed = two(alloc, of_mode(mode), bad)?;
    let sides = copies(alloc, sets)?;
    let cover = few_goals(alloc, fixed, SideKind::Wider, sides);
    let mut list = one_claim(alloc, cover)?;
    for index in 0..sets.len() {
        let free = free_claim(alloc, mode, bad, &sets[index])?;
        list.push(free)?;
    }
    Ok(list)
}

/// The claims that a set is the ideal set: no admissible set attacks it, and the others leave nothing larger.
fn ideal_pair(
    alloc: Global,
    framework: &Framework,
    set: &NumSet,
    others: &[NumSet],
) -> Result<Items<Claim>, Memory>
    ensures { IfOk result (λ cs. AreClaims (framework_of framework.now) cs
        (ideal_claims (framework_of framework.now) (set.now ∷ others.now))) }
{
    let hit = hit_by(alloc, framework, others)?;
    let fixed = one(alloc, yes(Atom::Ad))?;
    let sides = one_set(alloc, set)?;
    let free = few_goals(alloc, fixed, SideKind::Attacked, sides);
    let mut list = one_claim(alloc, free)?;
    let ideal = ideal_claim(alloc, set, hit)?;
    list.push(ideal)?;
    Ok(list)
}

/// The claims that the first of the sets is the ideal set, if there is one.
fn ideal_claims_of(
    alloc: Global,
    framework: &Framework,
    sets: &[NumSet],
) -> Result<Items<Claim>, Memory>
    ensures { IfOk result (λ cs. AreClaims (framework_of framework.now) cs
        (ideal_claims (framework_of framework.now) sets.now)) }
{
    match sets {
        [] => Ok(Items::new(alloc)),
        [set, others @ ..] => {
            let list = ideal_pair(alloc, framework, set, others)?;
            Ok(list)
        }
    }
}

/// The claim that each set of the mode with all of a set's range is one of the listed sets with that range. The ranges
/// are those of the listed sets and of the set.
fn listed_claim(
    alloc: Global,
    mode: Mode,
    all: &[NumSet],
    ranges: &[NumSet],
    set: &NumSet,
    range: &NumSet,
) -> Result<Claim, Memory>
    requires { length ranges.now ≡ length all.now }
    ensures { IfOk result (λ c. (f : AnyFramework) → ranges.now ≡ map (range_of f) all.now
        → range.now ≡ range_of f set.now → IsClaimOf f c (range_listed f mode all.now set.now)) }
{
    let fixed = one(alloc, of_mode(mode))?;
    let ranged = set.copy(alloc)?;
    let sides = with_range(alloc, all, ranges, range)?;
    let claim = range_goals(alloc, fixed, ranged, SideKind::Differs, sides);
    Ok(claim)
}

/// The claim, alone in a list, that each set of the mode has its range in that of one of the sets.
fn cover_alone(alloc: Global, mode: Mode, sets: &[NumSet]) -> Result<Items<Claim>, Memory>
    ensures { IfOk result (λ cs. (f : AnyFramework) → AreClaims f cs (range_cover f mode [] sets.now ∷ [])) }
{
    let fixed = one(alloc, of_mode(mode))?;
    let sides = copies(alloc, sets)?;
    let cover = few_goals(alloc, fixed, SideKind::Wider, sides);
    let list = one_claim(alloc, cover)?;
    Ok(list)
}

/// The claims of sets that are first with their ranges among listed ones: that these ranges cover the others, and that
/// each of them is of listed sets alone.
fn first_claims(
    alloc: Global,
    mode: Mode,
    first: &FirstRanged,
    all: &[NumSet],
    ranges: &[NumSet],
) -> Result<Items<Claim>, Memory>
    requires own { length first.now.ranges ≡ length first.now.sets }
    requires listed { length ranges.now ≡ length all.now }
    ensures { IfOk result (λ cs. (f : AnyFramework) → IsFirstRanged f all.now first.now
        → ranges.now ≡ map (range_of f) all.now → AreClaims f cs (claims f (AllWidest mode all.now) [])) }
{
    let sets = first.sets.as_slice();
    let own = first.ranges.as_slice();
    let mut list = cover_alone(alloc, mode, sets)?;
    for index in 0..sets.len() {
        let listed = listed_claim(alloc, mode, all, ranges, &sets[index], &own[index])?;
        list.push(listed)?;
    }
    Ok(list)
}

/// The claims that each set of the mode has its range in that of one of the sets, and that no other set of the mode
/// has all of such a range.
fn all_widest_claims(
    alloc: Global,
    framework: &Framework,
    mode: Mode,
    all: &[NumSet],
) -> Result<Items<Claim>, Memory>
    requires { AreSetsOf (framework_of framework.now) all.now }
    ensures { IfOk result (λ cs. AreClaims (framework_of framework.now) cs
        (claims (framework_of framework.now) (AllWidest mode all.now) [])) }
{
    let first = first_with_ranges(alloc, framework, all)?;
    let ranges = all_ranges(alloc, framework, all)?;
    let list = first_claims(alloc, mode, &first, all, ranges.as_slice())?;
    Ok(list)
}

/// The claims of a row; `sets` are the certificate's. Each set is copied once for each claim that speaks of it.
/// `Memory` says that an allocation was refused.
pub fn claims_of(
    alloc: Global,
    framework: &Framework,
    row: &Row,
    sets: &[NumSet],
) -> Result<Items<Claim>, Memory>
    requires { HasSetsOf (framework_of framework.now) row.now }
    ensures { IfOk result (λ cs. AreClaims (framework_of framework.now) cs
        (claims (framework_of framework.now) row.now sets.now)) }
{
    match row {
        Row::Misshapen | Row::Tested(_) | Row::ByGrounded(_) => Ok(Items::new(alloc)),
        Row::Largest(set) => Ok(largest_claims(alloc, framework, set)?),
        Row::Widest(mode, set) => Ok(widest_claims(alloc, framework, *mode, set)?),
        Row::Excluded(goals) => Ok(excluded_claims(alloc, framework, goals.as_slice())?),
        Row::Covered(number) => Ok(covered_claims(alloc, framework, *number, sets)?),
        Row::Ranged(mode, bad) => Ok(ranged_claims(alloc, framework, *mode, *bad, sets)?),
        Row::AllTested(mode, all) => Ok(all_tested_claims(
            alloc,
            framework,
            *mode,
            all.as_slice(),
        )?),
        Row::AllLargest(all) => Ok(all_largest_claims(alloc, framework, all.as_slice())?),
        Row::Ideal(_, _) => Ok(ideal_claims_of(alloc, framework, sets)?),
        Row::AllWidest(mode, all) => Ok(all_widest_claims(
            alloc,
            framework,
            *mode,
            all.as_slice(),
        )?),
    }
}
