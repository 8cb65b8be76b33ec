//! The rows of the table of certificates: what an answer of one shape to one task has to show.

ghost use Rattle.std.specs.Prelude.{◌≡◌};
ghost use Rattle.certificate_claims.specs.Claims.{mode_atom};

use lists::Items;
use meaning_atoms::{Atom, AtomLit};
use semantics::Mode;
use set_lists::NumSet;

/// What has to be shown for an answer.
#[derive(Drop)]
pub enum Row {
    /// The answer has no shape that its task gives.
    Misshapen,
    /// The set is an extension, and accepts the query or not, as the answer says.
    Tested(NumSet),
    /// The set is admissible, accepts the query or not as the answer says, and lies in no larger admissible set.
    Largest(NumSet),
    /// The set is of the mode, accepts the query or not as the answer says, and no set of the mode has a larger range.
    Widest(Mode, NumSet),
    /// No set makes these literals true.
    Excluded(Items<AtomLit>),
    /// The grounded set accepts the query, or doesn't.
    ByGrounded(bool),
    /// The certificate's sets are admissible and accept the query, and every admissible set that doesn't lies in one
    /// of them.
    Covered(u32),
    /// The certificate's sets are of the mode, and every set of the mode that makes the literal true has its range in
    /// that of one of them, but none has all of such a range.
    Ranged(Mode, AtomLit),
    /// The certificate's first set is the ideal set. The answer shows this set, if one, and says that the ideal set
    /// accepts the query or doesn't, if either.
    Ideal(Option<NumSet>, Option<bool>),
    /// The sets are extensions, and no other set makes the atom true.
    AllTested(Atom, Items<NumSet>),
    /// The sets are admissible, none lies in another, and each admissible set lies in one of them.
    AllLargest(Items<NumSet>),
    /// The sets are of the mode, no range lies in another, each set of the mode has its range in that of one of them,
    /// and no other set of the mode has all of such a range.
    AllWidest(Mode, Items<NumSet>),
}

/// The atom that says that a set is of the mode.
pub fn mode_atom(mode: Mode) -> Atom
    ensures { result ≡ mode_atom mode }
{
    match mode {
        Mode::Cf => Atom::Cf,
        Mode::Ad => Atom::Ad,
    }
}
