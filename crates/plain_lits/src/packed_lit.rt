//! A literal in one number, for flat storage.

ghost use Rattle.std.specs.Prelude.{◌≡◌, ◌<◌, ◌^◌};
ghost use Rattle.plain_lits.specs.Packed.{packed};

use crate::lit::Lit;
use std::marker::Model;

/// A literal in four bytes, which contracts see as the literal: twice its variable, and one more where it is
/// positive.
#[derive(Clone, Copy)]
pub struct PackedLit {
    code: u32,
}

impl Model for PackedLit {
    ghost use Rattle.plain_lits.specs.declared.lit.Lit.{Lit};
    ghost use Rattle.plain_lits.specs.Packed.{unpacked, packed};

    ghost Value = { Lit };

    ghost view = { λ p. unpacked p.code };

    ghost inverse = { λ l. record { code = packed l } };

    ghost use Rattle.plain_lits.specs.PackedInside.{packed-unpacked};

    ghost inverse_ok = { λ p h. packed-unpacked p };
}

impl PackedLit {
    /// The number above each variable that can be packed.
    pub const VARS: usize = 1 << 31;

    /// Packs a literal.
    pub fn pack(lit: Lit) -> PackedLit
        requires { lit.var < 2 ^ 31 }
        ensures { result ≡ lit }
    {
        let sign = if lit.positive { 1 } else { 0 };
        PackedLit {
            code: 2 * lit.var as u32 + sign,
        }
    }

    /// The literal.
    pub fn lit(self) -> Lit
        ensures lit { result ≡ self }
        ensures within { result.var < 2 ^ 31 }
    {
        Lit {
            var: self.code as usize / 2,
            positive: self.code % 2 == 1,
        }
    }

    /// The literal as an index: each literal below `2 * vars` has one of its own.
    pub fn code(self) -> usize
        ensures code { result ≡ packed self }
        ensures within { result < 2 ^ 32 }
    {
        self.code as usize
    }
}
