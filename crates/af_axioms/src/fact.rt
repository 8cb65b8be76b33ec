//! The atoms whose value the framework alone fixes.

ghost use Rattle.std.specs.Prelude.{◌↔◌, IfNone, IfSome, IsTrue};
ghost use Rattle.meaning_atoms.specs.semantics.specs.Framework.{Attacks};
ghost use Rattle.meaning_atoms.specs.semantics.specs.Frameworks.{af};
ghost use Rattle.meaning_atoms.specs.Worlds.{HasGap, IsFact};
ghost use Rattle.af_axioms.specs.Facts.{IsFactValue};

use dung_notions::AfPlain;
use meaning_atoms::Atom;

/// Whether an atom is true, where the framework alone fixes it: `Live`, `Attack` and `Gap`. None at each other
/// atom, a side clause's number among them. It takes no memory, and time logarithmic in the arguments and
/// attacks.
pub fn fact_value(plain: &AfPlain, atom: &Atom) -> Option<bool>
    ensures some { IfSome result (IsFactValue (af plain.now) atom.now) }
    ensures none { IfNone result (¬ IsFact (af plain.now) atom.now) }
{
    match *atom {
        Atom::Live(a) => Some(plain.is_live(a)),
        Atom::Attack(b, a) => Some(has_attacker(plain, a, b)),
        Atom::Gap(a, i, j) => Some(has_gap(plain, a, i, j)),
        _ => None,
    }
}

/// Whether no attacker of an argument has a number from `begin` to just before `end`.
fn has_gap(plain: &AfPlain, argument: u32, begin: u32, end: u32) -> bool
    ensures { IsTrue result ↔ HasGap plain.now argument begin end }
{
    let attackers = plain.attackers_of(argument);
    let first = attackers.partition_point(|pair| pair.1 < begin);
    match attackers.get(first) {
        Some(attacker) => end <= attacker.1,
        None => true,
    }
}

/// Whether an argument has an attacker: looked up among its attackers, which are few as a rule.
fn has_attacker(plain: &AfPlain, argument: u32, attacker: u32) -> bool
    ensures { IsTrue result ↔ Attacks plain.now attacker argument }
{
    let attackers = plain.attackers_of(argument);
    let first = attackers.partition_point(|pair| pair.1 < attacker);
    match attackers.get(first) {
        Some(pair) => pair.1 == attacker,
        None => false,
    }
}
