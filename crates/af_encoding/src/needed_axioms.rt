//! The axioms that a search needs of a framework.

ghost use Rattle.std.specs.Prelude.{◌≡◌, ◌++◌, All, Contains, IfOk, OnOk, map};
ghost use Rattle.semantics.specs.Frameworks.{af, IsNumberedAf};
ghost use Rattle.meaning_atoms.specs.declared.axiom.AxiomName.TheVariants.{Af as OfAf};
ghost use Rattle.certificate_claims.specs.Refutations.{IsAxiomOf};
ghost use Rattle.oracle_face.specs.Needed.{IsNeeded};
ghost use Rattle.af_encoding.specs.Enumerations.{Enumerates, GainsEach};
ghost use Rattle.af_encoding.specs.Told.{IsNeededAt};

use dung_notions::AfPlain;
use lists::{Items, Memory};
use meaning_atoms::AfAxiom::{A1, A2, A3, A4, A5, A6, A7, A8, A9, A10, A11, A12, A13, A14};
use meaning_atoms::{AfAxiom, AxiomName};
use std::alloc::Global;

/// The axioms that a search needs of a framework, each once: a model of these axioms in which the framework's facts
/// have their values means a set of arguments with each notion that the model calls true. Time and memory are linear in
/// arguments and attacks: three axioms of all, eight of each argument and five of each attack. `Memory` says that an
/// allocation was refused.
pub fn needed(alloc: Global, plain: &AfPlain) -> Result<Items<AxiomName>, Memory>
    ensures all { IfOk result (Enumerates (IsNeeded (af plain.now))) }
    ensures names { IfOk result (All (IsAxiomOf (af plain.now))) }
{
    let mut names = Vec::with_capacity(alloc, count(plain))?;
    push_all(&mut names, &[A14(1), A14(2), A14(3)])?;
    for argument in plain.live() {
        push_axioms(plain, &mut names, *argument)?;
    }
    Ok(Items::from_vec(names))
}

/// How many axioms a framework needs.
fn count(plain: &AfPlain) -> usize {
    let arguments = plain.live().len().saturating_mul(8);
    let attacks = plain.attack_count().saturating_mul(5);
    arguments.saturating_add(attacks).saturating_add(3)
}

/// Adds the axioms of one argument: those of the argument alone, then by rising attackers those of each attack on it
/// with the two steps of the walk from the attacker before, and the two ends of the walk.
fn push_axioms(plain: &AfPlain, names: &mut Vec<AxiomName>, argument: u32) -> Result<(), Memory>
    requires form { IsNumberedAf plain.now }
    requires live { Contains plain.now.live argument }
    ensures { OnOk result (GainsEach (IsNeededAt plain.now argument) names.old.items names.new.items) }
{
    let a = argument;
    push_all(names, &[A1(a), A7(a), A10(a), A11(a), A12(a), A13(a)])?;
    let mut position = 1;
    for attack in plain.attackers_of(argument) {
        let b = attack.1;
        push_all(
            names,
            &[
                A2(b, a),
                A3(b, a),
                A4(b, a),
                A5(a, position, b),
                A8(a, position, b),
            ],
        )?;
        position = b + 1;
    }
    push_all(names, &[A6(a, position), A9(a, position)])?;
    Ok(())
}

/// Adds axioms at the end.
pub(crate) fn push_all(names: &mut Vec<AxiomName>, added: &[AfAxiom]) -> Result<(), Memory>
    ensures { OnOk result (names.new.items ≡ names.old.items ++ map OfAf added.now) }
{
    for axiom in added {
        names.push(AxiomName::Af(*axiom))?;
    }
    Ok(())
}
