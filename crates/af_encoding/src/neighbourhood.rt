//! The facts near what goals speak of.

use dung_notions::AfPlain;
use lists::{Items, Memory};
use meaning_atoms::{Atom, AtomLit, END};
use std::alloc::Global;

/// Goals on more arguments than these have no near facts: they grow a set that was found, and what refutes them lies
/// all over the framework.
const FEW_ARGUMENTS: usize = 4;

/// How many arguments count as near. On 2,000 arguments with 8,000 attacks between close ones, the facts on 100 arguments
/// refuted each of 924 goals on one argument that all facts refuted, in a tenth of the time.
const NEAR_ARGUMENTS: usize = 100;

/// How many atoms are listed at most: an argument may have a million attackers.
const MAX_ATOMS: usize = 4_096;

/// Arguments in the order in which they were found, each once, with a mark for each that was.
#[derive(Drop)]
struct Neighbourhood {
    found: Vec<u32>,
    marks: Vec<bool>,
}

impl Neighbourhood {
    /// No argument yet, and room to mark those below `bound`.
    fn new(alloc: Global, bound: usize) -> Result<Neighbourhood, Memory> {
        let mut marks = Vec::new(alloc);
        marks.resize(bound, false)?;
        Ok(Neighbourhood {
            found: Vec::new(alloc),
            marks,
        })
    }

    /// Adds an argument, unless it was found before.
    fn add(&mut self, argument: u32) -> Result<(), Memory> {
        let index = argument as usize;
        if index < self.marks.len() && !self.marks[index] {
            self.marks[index] = true;
            self.found.push(argument)?;
        }
        Ok(())
    }

    /// Adds the other ends of attacks, until enough are found.
    fn add_ends(&mut self, attacks: &[(u32, u32)]) -> Result<(), Memory> {
        for attack in attacks {
            if self.found.len() >= NEAR_ARGUMENTS {
                return Ok(());
            }
            self.add(attack.1)?;
        }
        Ok(())
    }

    /// Adds the arguments that goals speak of.
    fn add_goals(&mut self, goals: &[AtomLit]) -> Result<(), Memory> {
        for goal in goals {
            if let Some(argument) = argument_of(&goal.atom) {
                self.add(argument)?;
            }
        }
        Ok(())
    }

    /// Adds what attacks those that were found or is attacked by them, in rounds, until enough are found.
    fn find_neighbours(&mut self, plain: &AfPlain) -> Result<(), Memory> {
        for index in 0..NEAR_ARGUMENTS {
            let Some(argument) = self.found.get(index).copied() else {
                return Ok(());
            };
            self.add_ends(plain.attackers_of(argument))?;
            self.add_ends(plain.targets_of(argument))?;
        }
        Ok(())
    }
}

/// The argument that an atom of a goal is about.
fn argument_of(atom: &Atom) -> Option<u32> {
    match *atom {
        Atom::Member(argument) | Atom::Tail(argument, _) | Atom::Range(argument) => Some(argument),
        _ => None,
    }
}

/// One more than the largest live argument, or 0 where there is none.
fn bound_above(plain: &AfPlain) -> usize {
    match plain.live().last() {
        Some(largest) => *largest as usize + 1,
        None => 0,
    }
}

/// Adds the atoms that say which arguments attack this one, as the axioms that a search needs have them.
fn push_attackers(plain: &AfPlain, argument: u32, atoms: &mut Items<Atom>) -> Result<(), Memory> {
    atoms.push(Atom::Live(argument))?;
    let mut begin = 1;
    for attack in plain.attackers_of(argument) {
        if atoms.len() >= MAX_ATOMS {
            return Ok(());
        }
        atoms.push(Atom::Attack(attack.1, argument))?;
        atoms.push(Atom::Gap(argument, begin, attack.1))?;
        begin = attack.1.saturating_add(1);
    }
    atoms.push(Atom::Gap(argument, begin, END))
}

/// The atoms that the framework fixes about arguments.
fn atoms_about(alloc: Global, plain: &AfPlain, arguments: &[u32]) -> Result<Items<Atom>, Memory> {
    let mut atoms = Items::new(alloc);
    for argument in arguments {
        push_attackers(plain, *argument, &mut atoms)?;
    }
    Ok(atoms)
}

/// The atoms that the framework fixes about the arguments that goals speak of and those near them; none where goals
/// speak of no argument or of many.
pub(crate) fn near(
    alloc: Global,
    plain: &AfPlain,
    goals: &[AtomLit],
) -> Result<Items<Atom>, Memory> {
    let mut near = Neighbourhood::new(alloc, bound_above(plain))?;
    near.add_goals(goals)?;
    if near.found.len() > FEW_ARGUMENTS {
        return Ok(Items::new(alloc));
    }
    near.find_neighbours(plain)?;
    atoms_about(alloc, plain, near.found.as_slice())
}
