//! What no clause says: the definitions against extensions worked out by hand.

use aba_laws::Notion::{
    Admissible, Complete, ConflictFree, Grounded, Ideal, InAllPreferred, Preferred, Stable,
};
use aba_laws::{AbaLists, Notion, PlainRule, decide};
use lists::{Items, Memory};
use std::alloc::Global;
use std::test::Fail;

/// A rule: its number, its head and its body.
type RuleRow = (u32, u32, &'static [u32]);

/// A framework.
#[derive(Clone, Copy, Drop)]
struct Framework {
    assumptions: &'static [u32],
    contraries: &'static [(u32, u32)],
    rules: &'static [RuleRow],
}

/// A framework, a notion and all sets of the numbers 1 to 4 that meet it.
type Row = (Framework, Notion, &'static [&'static [u32]]);

/// The members of 1 to 4 whose bit is set, 1 being the lowest.
fn set_of(alloc: Global, bits: u32) -> Result<Items<u32>, Memory> {
    let mut set = Items::new(alloc);
    for number in 1..5u32 {
        if bits >> (number - 1) & 1 == 1 {
            set.push(number)?;
        }
    }
    Ok(set)
}

/// The rules of some rows.
fn rules_of(alloc: Global, rows: &[RuleRow]) -> Result<Vec<PlainRule<'static>>, Memory> {
    let mut rules = Vec::new(alloc);
    for &(number, head, body) in rows {
        rules.push(PlainRule { number, head, body })?;
    }
    Ok(rules)
}

/// Whether exactly the sets of a row meet its notion.
fn holds(alloc: Global, row: &Row) -> Result<bool, Memory> {
    let &(framework, notion, sets) = row;
    let rules = rules_of(alloc, framework.rules)?;
    let framework = AbaLists {
        atoms: 5,
        assumptions: framework.assumptions,
        contraries: framework.contraries,
        rules: &rules,
        next: 10,
    };
    for bits in 0..16 {
        let set = set_of(alloc, bits)?;
        let set = set.as_slice();
        if decide(alloc, &framework, set, notion)? != sets.iter().any(|listed| *listed == set) {
            return Ok(false);
        }
    }
    Ok(true)
}

/// No assumption.
const NONE: Framework = Framework {
    assumptions: &[],
    contraries: &[],
    rules: &[],
};

/// Each derives the other's contrary.
const RIVALS: Framework = Framework {
    assumptions: &[1, 2],
    contraries: &[(1, 3), (2, 4)],
    rules: &[(1, 3, &[2]), (2, 4, &[1])],
};

/// Contraries that only derive each other.
const LOOPS: Framework = Framework {
    assumptions: &[1, 2],
    contraries: &[(1, 3), (2, 4)],
    rules: &[(1, 3, &[4]), (2, 4, &[3])],
};

/// A contrary of its own.
const ITSELF: Framework = Framework {
    assumptions: &[1],
    contraries: &[(1, 1)],
    rules: &[],
};

/// An assumption that supports its contrary.
const SUPPORT: Framework = Framework {
    assumptions: &[1, 2],
    contraries: &[(1, 3)],
    rules: &[(4, 3, &[4]), (6, 4, &[1, 1])],
};

/// A contrary without premises.
const FACT: Framework = Framework {
    assumptions: &[1],
    contraries: &[(1, 2)],
    rules: &[(1, 2, &[]), (2, 2, &[])],
};

/// Two that attack a third together.
const JOINT: Framework = Framework {
    assumptions: &[1, 2, 3],
    contraries: &[(3, 4)],
    rules: &[(1, 4, &[1, 2, 1])],
};

/// One that attacks itself and its rival.
const BLOCKED: Framework = Framework {
    assumptions: &[1, 2],
    contraries: &[(1, 3), (2, 4)],
    rules: &[(1, 3, &[1]), (2, 4, &[1]), (3, 3, &[2])],
};

/// One with two contraries, each of which it is the contrary of.
const SEVERAL: Framework = Framework {
    assumptions: &[1, 2, 3],
    contraries: &[(1, 2), (1, 3), (2, 1), (3, 1)],
    rules: &[],
};

/// Two contraries, of which one follows from nothing.
const EITHER: Framework = Framework {
    assumptions: &[1],
    contraries: &[(1, 2), (1, 3)],
    rules: &[(1, 3, &[])],
};

const ROWS: &[Row] = &[
    (NONE, Admissible, &[&[]]),
    (NONE, Stable, &[&[]]),
    (NONE, Ideal, &[&[]]),
    (RIVALS, ConflictFree, &[&[], &[1], &[2]]),
    (RIVALS, Admissible, &[&[], &[1], &[2]]),
    (RIVALS, Complete, &[&[], &[1], &[2]]),
    (RIVALS, Grounded, &[&[]]),
    (RIVALS, Preferred, &[&[1], &[2]]),
    (RIVALS, Stable, &[&[1], &[2]]),
    (RIVALS, InAllPreferred, &[&[]]),
    (RIVALS, Ideal, &[&[]]),
    (LOOPS, Admissible, &[&[], &[1], &[2], &[1, 2]]),
    (LOOPS, Complete, &[&[1, 2]]),
    (LOOPS, Grounded, &[&[1, 2]]),
    (LOOPS, Stable, &[&[1, 2]]),
    (ITSELF, ConflictFree, &[&[]]),
    (ITSELF, Complete, &[&[]]),
    (ITSELF, Stable, &[]),
    (SUPPORT, Complete, &[&[2]]),
    (SUPPORT, Stable, &[]),
    (FACT, Complete, &[&[]]),
    (FACT, Stable, &[&[]]),
    (
        JOINT,
        ConflictFree,
        &[&[], &[1], &[2], &[3], &[1, 2], &[1, 3], &[2, 3]],
    ),
    (JOINT, Admissible, &[&[], &[1], &[2], &[1, 2]]),
    (JOINT, Grounded, &[&[1, 2]]),
    (JOINT, Preferred, &[&[1, 2]]),
    (BLOCKED, Grounded, &[&[]]),
    (BLOCKED, Preferred, &[&[2]]),
    (BLOCKED, Stable, &[&[2]]),
    (BLOCKED, InAllPreferred, &[&[], &[2]]),
    (BLOCKED, Ideal, &[&[2]]),
    (SEVERAL, ConflictFree, &[&[], &[1], &[2], &[3], &[2, 3]]),
    (SEVERAL, Complete, &[&[], &[1], &[2, 3]]),
    (SEVERAL, Preferred, &[&[1], &[2, 3]]),
    (SEVERAL, Stable, &[&[1], &[2, 3]]),
    (EITHER, ConflictFree, &[&[]]),
    (EITHER, Stable, &[&[]]),
];

#[test]
fn worked_frameworks(rt: HostRuntime) -> Result<(), Fail> {
    for (number, row) in ROWS.iter().enumerate() {
        assert!(rt; holds(rt.alloc(), row)?, "row {number}");
    }
    Ok(())
}
