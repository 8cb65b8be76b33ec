//! Searches for a model of the axioms that a framework needs, in which its facts have their values. What is found was
//! worked out by hand.

use af_axioms::clause_of;
use af_encoding::{fact, needed};
use atom_table::AtomTable;
use dung_notions::AfPlain;
use meaning_atoms::Atom::{Ad, Cf, Co, Member, Range, St, Tail};
use meaning_atoms::{AtomLit, AxiomName};
use plain_lits::{Budget, Clause, Lit};
use sat_core::{Added, Solved, Solver};
use std::alloc::Global;
use std::test::Fail;

/// A solver, and the atoms that its variables stand for.
#[derive(Drop)]
struct Search {
    solver: Solver,
    atoms: AtomTable,
}

/// Adds a clause; none where memory or the log's room ends.
fn add(alloc: Global, search: &mut Search, clause: &[AtomLit]) -> Option<()> {
    let mut lits = Vec::new(alloc);
    for literal in clause {
        let var = search.atoms.var_of(&literal.atom).ok()?;
        let positive = literal.positive;
        lits.push(Lit { var, positive }).ok()?;
    }
    add_lits(alloc, &mut search.solver, &lits)
}

/// Adds a clause of the solver's literals.
fn add_lits(alloc: Global, solver: &mut Solver, lits: &[Lit]) -> Option<()> {
    let clause = Clause::from_slice(alloc, lits).ok()?;
    solver.add(clause, Added::Axiom).ok()?;
    Some(())
}

/// Adds the clause of an axiom.
fn add_axiom(alloc: Global, search: &mut Search, name: &AxiomName) -> Option<()> {
    match name {
        AxiomName::Af(rule) => {
            if !rule.is_name() {
                return None;
            }
            let clause = clause_of(alloc, rule).ok()?;
            add(alloc, search, clause.as_slice())
        }
        AxiomName::Aba(_) => None,
    }
}

/// Adds the value of a variable's atom, if it is a fact.
fn add_fact(alloc: Global, search: &mut Search, plain: &AfPlain, var: usize) -> Option<()> {
    if var >= search.atoms.len() {
        return None;
    }
    match fact(plain, &search.atoms.atom_at(var)) {
        Some(positive) => add_lits(alloc, &mut search.solver, &[Lit { var, positive }]),
        None => Some(()),
    }
}

/// Adds axioms, goals and facts.
fn add_all(
    alloc: Global,
    search: &mut Search,
    plain: &AfPlain,
    names: &[AxiomName],
    goals: &[AtomLit],
) -> Option<()> {
    for name in names {
        add_axiom(alloc, search, name)?;
    }
    for goal in goals {
        add(alloc, search, &[*goal])?;
    }
    for var in 0..search.atoms.len() {
        add_fact(alloc, search, plain, var)?;
    }
    Some(())
}

/// Searches under no assumption.
fn solve_free(solver: &mut Solver) -> Option<Solved> {
    let mut budget = Budget::new(1_000);
    solver.solve(&[], &mut budget).ok()
}

/// Whether an argument is a member by a model.
fn is_member(atoms: &AtomTable, model: &[Lit], number: u32) -> bool {
    match atoms.find(&Member(number)) {
        Some(var) => model.contains(&Lit {
            var,
            positive: true,
        }),
        None => false,
    }
}

/// Whether a search finds a model whose members are the set; without a set, whether it finds none.
fn ends_so(search: &mut Search, set: Option<&[u32]>) -> Option<bool> {
    match (solve_free(&mut search.solver)?, set) {
        (Solved::Core(_), None) => Some(true),
        (Solved::Model(model), Some(set)) => Some((1..4u32).all(|number| {
            is_member(&search.atoms, model.as_slice(), number) == set.contains(&number)
        })),
        _ => Some(false),
    }
}

/// Attacks between the arguments 1, 2 and 3, goals, and the set of the members in their model; none where they have no
/// model.
#[derive(Drop)]
struct Row {
    attacks: &'static [(u32, u32)],
    goals: &'static [AtomLit],
    set: Option<&'static [u32]>,
}

/// 1 and 2 attack each other, and 2 attacks 3: 3 is defended by 1 alone.
const MUTUAL: &[(u32, u32)] = &[(1, 2), (2, 1), (2, 3)];

/// Three in a ring have no stable set, and the empty set alone is complete.
const RING: &[(u32, u32)] = &[(1, 2), (2, 3), (3, 1)];

const ROWS: &[Row] = &[
    Row {
        attacks: MUTUAL,
        goals: &[is!(Ad), is!(Member(3))],
        set: Some(&[1, 3]),
    },
    Row {
        attacks: MUTUAL,
        goals: &[is!(St), is!(Member(2))],
        set: Some(&[2]),
    },
    Row {
        attacks: MUTUAL,
        goals: &[is!(St), not!(Member(2))],
        set: Some(&[1, 3]),
    },
    Row {
        attacks: MUTUAL,
        goals: &[is!(Co), not!(Member(1)), not!(Member(2))],
        set: Some(&[]),
    },
    Row {
        attacks: MUTUAL,
        goals: &[is!(Cf), is!(Member(3)), not!(Member(1))],
        set: Some(&[3]),
    },
    Row {
        attacks: MUTUAL,
        goals: &[is!(Ad), is!(Member(3)), not!(Member(1))],
        set: None,
    },
    Row {
        attacks: MUTUAL,
        goals: &[is!(Co), is!(Member(1)), not!(Member(3))],
        set: None,
    },
    // Who is in the range, and who is attacked.
    Row {
        attacks: MUTUAL,
        goals: &[is!(Ad), is!(Range(3)), not!(Member(3))],
        set: Some(&[2]),
    },
    Row {
        attacks: MUTUAL,
        goals: &[is!(Ad), is!(Tail(1, 1))],
        set: Some(&[2]),
    },
    Row {
        attacks: MUTUAL,
        goals: &[is!(Ad), not!(Range(1))],
        set: Some(&[]),
    },
    Row {
        attacks: MUTUAL,
        goals: &[is!(Ad), is!(Member(1)), not!(Range(2))],
        set: None,
    },
    Row {
        attacks: MUTUAL,
        goals: &[is!(Cf), is!(Member(2)), not!(Tail(3, 1))],
        set: None,
    },
    Row {
        attacks: RING,
        goals: &[is!(St)],
        set: None,
    },
    Row {
        attacks: RING,
        goals: &[is!(Co)],
        set: Some(&[]),
    },
    Row {
        attacks: RING,
        goals: &[is!(Ad), is!(Member(1))],
        set: None,
    },
];

/// Whether a framework's needed axioms and facts, with goals, end so.
fn ends(alloc: Global, plain: &AfPlain, row: &Row) -> Option<bool> {
    let names = needed(alloc, plain).ok()?;
    let mut search = Search {
        solver: Solver::open(alloc, 10_000).ok()?,
        atoms: AtomTable::new(alloc),
    };
    add_all(alloc, &mut search, plain, names.as_slice(), row.goals)?;
    ends_so(&mut search, row.set)
}

/// Whether the row's goals end so.
fn holds(alloc: Global, row: &Row) -> Option<bool> {
    let plain = AfPlain::of_lists(alloc, &[1, 2, 3], row.attacks).ok()?;
    ends(alloc, &plain, row)
}

#[test]
fn searches(rt: HostRuntime) -> Result<(), Fail> {
    for (number, row) in ROWS.iter().enumerate() {
        assert!(rt; holds(rt.alloc(), row) == Some(true), "row {number}");
    }
    Ok(())
}
