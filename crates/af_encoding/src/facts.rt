//! The values that a framework alone fixes.

ghost use Rattle.std.specs.Prelude.{IfNone, IfSome};
ghost use Rattle.semantics.specs.Frameworks.{af};
ghost use Rattle.meaning_atoms.specs.Worlds.{IsFact};
ghost use Rattle.af_axioms.specs.Facts.{IsFactValue};

use af_axioms::fact_value;
use dung_notions::AfPlain;
use meaning_atoms::Atom;

/// Whether an atom is true, where the framework alone fixes it: `Live`, `Attack` and `Gap`. None at each other atom.
/// It takes no memory.
pub fn fact(plain: &AfPlain, atom: &Atom) -> Option<bool>
    ensures some { IfSome result (IsFactValue (af plain.now) atom.now) }
    ensures none { IfNone result (¬ IsFact (af plain.now) atom.now) }
{
    fact_value(plain, atom)
}
