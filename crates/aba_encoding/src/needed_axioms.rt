//! The axioms that a search needs of a framework.

ghost use Rattle.std.specs.Prelude.{◌<◌, All, Contains, IfOk, OnOk, length};
ghost use Rattle.std.specs.List.{flat_map, range_with_len};
ghost use Rattle.semantics.specs.AbaFrameworks.{IsNumberedAba};
ghost use Rattle.meaning_atoms.specs.AxiomNames.{IsAxiomName};
ghost use Rattle.aba_notions.specs.Storage.{rule_at};
ghost use Rattle.af_encoding.specs.Enumerations.{Enumerates};
ghost use Rattle.semantics.specs.Frameworks.{aba};
ghost use Rattle.oracle_face.specs.Needed.{IsNeeded};
ghost use Rattle.aba_encoding.specs.Listing.{Gains, assumption_axioms, atom_axioms, rule_axioms};

use aba_notions::AbaPlain;
use lists::{Items, Memory};
use meaning_atoms::AbaAxiom::{
    B1, B2, B3, B4, B5, B6, B7, B8, B9, B9Con, B10, B11, B12, B13, B14, B15, B16, B18, B19,
};
use meaning_atoms::Closure::{Own, Rest};
use meaning_atoms::{AbaAxiom, AxiomName};
use std::alloc::Global;

/// The axioms that a search needs of a framework, each once: a model of these axioms that derives nothing unfounded,
/// and in which the framework's facts have their values, means a set of assumptions with each notion that the model
/// calls true. Time and memory are linear in the assumptions, their contraries, the atoms and the rules with their
/// bodies: five axioms of all, six of each assumption, five of each contrary of one, five of each atom, six of each
/// rule and four of each atom in a body. `Memory` says that an allocation was refused.
pub fn needed(alloc: Global, plain: &AbaPlain) -> Result<Items<AxiomName>, Memory>
    ensures all { IfOk result (Enumerates (IsNeeded (aba plain.now))) }
    ensures names { IfOk result (All IsAxiomName) }
{
    let mut names = Vec::new(alloc);
    push_all(
        alloc,
        &mut names,
        &[B4(Own), B4(Rest), B16(1), B16(2), B16(3)],
    )?;
    push_assumptions(alloc, plain, &mut names)?;
    push_rules(alloc, plain, &mut names)?;
    push_atoms(alloc, plain, &mut names)?;
    Ok(Items::from_vec(names))
}

/// Adds the axioms of the assumptions and their contraries.
fn push_assumptions(
    alloc: Global,
    plain: &AbaPlain,
    names: &mut Vec<AxiomName>,
) -> Result<(), Memory>
    ensures gains { OnOk result (Gains (flat_map (assumption_axioms plain.now) plain.now.assumptions)
        names.old.items names.new.items) }
    ensures form { IsNumberedAba plain.now }
{
    for a in plain.assumptions().as_slice() {
        push_assumption(alloc, plain, names, *a)?;
    }
    Ok(())
}

/// Adds the axioms of an assumption: those of it alone, then by rising contraries those of each with the steps of the
/// walks from the contrary before, and the ends of the walks.
pub fn push_assumption(
    alloc: Global,
    plain: &AbaPlain,
    names: &mut Vec<AxiomName>,
    a: u32,
) -> Result<(), Memory>
    ensures { OnOk result (Gains (assumption_axioms plain.now a) names.old.items names.new.items) }
{
    push_all(alloc, names, &[B2(a), B3(a), B14(a), B15(a)])?;
    let mut position = 1;
    for pair in plain.contraries_of(a) {
        let c = pair.1;
        push_all(
            alloc,
            names,
            &[
                B9Con(a, c),
                B12(a, c),
                B13(a, c),
                B18(Own, a, position, c),
                B18(Rest, a, position, c),
            ],
        )?;
        position = c + 1;
    }
    push_all(
        alloc,
        names,
        &[B19(Own, a, position), B19(Rest, a, position)],
    )?;
    Ok(())
}

/// Adds the axioms of the rules.
fn push_rules(alloc: Global, plain: &AbaPlain, names: &mut Vec<AxiomName>) -> Result<(), Memory>
    ensures { OnOk result (Gains (flat_map rule_axioms plain.now.rules) names.old.items names.new.items) }
{
    for index in 0..plain.rule_numbers().len() {
        push_rule(alloc, plain, names, index as u32)?;
    }
    Ok(())
}

/// Adds the axioms of the rule at an index: those of its head, then by rising atoms those of each atom of its body with
/// the steps of the walks from the atom before, and the ends of the walks.
pub fn push_rule(
    alloc: Global,
    plain: &AbaPlain,
    names: &mut Vec<AxiomName>,
    index: u32,
) -> Result<(), Memory>
    requires { index < length plain.now.rules }
    ensures { OnOk result (Gains (rule_axioms (rule_at plain.now.rules index)) names.old.items names.new.items) }
{
    let number = plain.rule_numbers()[index as usize];
    let head = plain.rule_heads()[index as usize];
    push_all(
        alloc,
        names,
        &[B5(Own, number, head), B5(Rest, number, head)],
    )?;
    let mut position = 1;
    for pair in plain.body_of(index) {
        let x = pair.1;
        push_all(
            alloc,
            names,
            &[
                B6(Own, number, x),
                B6(Rest, number, x),
                B7(Own, number, position, x),
                B7(Rest, number, position, x),
            ],
        )?;
        position = x + 1;
    }
    push_all(
        alloc,
        names,
        &[B8(Own, number, position), B8(Rest, number, position)],
    )?;
    Ok(())
}

/// Adds the axioms of the atoms.
fn push_atoms(alloc: Global, plain: &AbaPlain, names: &mut Vec<AxiomName>) -> Result<(), Memory>
    ensures { OnOk result (Gains (flat_map (atom_axioms plain.now) (range_with_len 1 plain.now.atoms))
        names.old.items names.new.items) }
{
    for before in 0..plain.atoms() {
        push_atom(alloc, plain, names, before + 1)?;
    }
    Ok(())
}

/// Adds the axioms of an atom: those of the atom alone, then by rising numbers of the rules that head it the steps of
/// the walks from the rule before, and the ends of the walks.
fn push_atom(
    alloc: Global,
    plain: &AbaPlain,
    names: &mut Vec<AxiomName>,
    x: u32,
) -> Result<(), Memory>
    ensures { OnOk result (Gains (atom_axioms plain.now x) names.old.items names.new.items) }
{
    let numbers = plain.rule_numbers();
    push_all(alloc, names, &[B1(x), B9(Own, x), B9(Rest, x)])?;
    let mut position = 1;
    for pair in plain.headed_by(x) {
        let number = numbers[pair.1 as usize];
        push_all(
            alloc,
            names,
            &[
                B10(Own, x, position, number),
                B10(Rest, x, position, number),
            ],
        )?;
        position = number + 1;
    }
    push_all(
        alloc,
        names,
        &[B11(Own, x, position), B11(Rest, x, position)],
    )?;
    Ok(())
}

/// Adds axioms at the end.
pub fn push_all(alloc: Global, names: &mut Vec<AxiomName>, added: &[AbaAxiom]) -> Result<(), Memory>
    ensures { OnOk result (Gains added.now names.old.items names.new.items) }
{
    for axiom in added {
        names.push(AxiomName::Aba(axiom.copy(alloc)?))?;
    }
    Ok(())
}
