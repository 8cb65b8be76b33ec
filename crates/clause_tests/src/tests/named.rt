//! Literals that the tests use: by their variable, `P` where they are positive and `N` where they are not.

ghost use Rattle.std.specs.Prelude.{◌≡◌};

use plain_lits::Lit;

/// The literal of a variable with this sign.
pub(crate) fn lit(var: usize, positive: bool) -> Lit
    ensures { result.var ≡ var }
{
    Lit { var, positive }
}

pub(crate) const P0: Lit = Lit {
    var: 0,
    positive: true,
};

pub(crate) const N0: Lit = Lit {
    var: 0,
    positive: false,
};

pub(crate) const P1: Lit = Lit {
    var: 1,
    positive: true,
};

pub(crate) const N1: Lit = Lit {
    var: 1,
    positive: false,
};

pub(crate) const P2: Lit = Lit {
    var: 2,
    positive: true,
};

pub(crate) const N2: Lit = Lit {
    var: 2,
    positive: false,
};

pub(crate) const P3: Lit = Lit {
    var: 3,
    positive: true,
};

pub(crate) const N3: Lit = Lit {
    var: 3,
    positive: false,
};

pub(crate) const P5: Lit = Lit {
    var: 5,
    positive: true,
};

pub(crate) const P9: Lit = Lit {
    var: 9,
    positive: true,
};
