//! A clause: literals of which one has to be true.

ghost use Rattle.std.specs.Prelude.{◌≡◌, ◌↔◌, ◌<◌, [], ◌∷◌, ◌++◌, length, IsTrue, IfOk};
ghost use Rattle.plain_lits.specs.Literals.{LitsRise, IsClauseOf};

use crate::lit::Lit;
use lists::Memory;
use smallvec::SmallVec;
use std::alloc::Global;
use std::marker::Model;

/// The literals of a clause in rising order, each once, so that clauses with the same literals are equal. Four of
/// them take no allocation. It keeps the allocator that it was made with.
#[derive(Drop)]
pub struct Clause {
    lits: SmallVec<Lit, 4>,
}

impl Model for Clause {
    ghost use Rattle.std.specs.Prelude.{List};
    ghost use Rattle.plain_lits.specs.declared.lit.Lit.{Lit};
    ghost use Rattle.plain_lits.specs.Literals.{LitsRise};

    ghost Value = { List Lit };

    ghost view = { λ c. c.lits.items };

    ghost invariant = { λ c. LitsRise c.lits.items };
}

impl Clause {
    /// The empty clause, which takes no memory.
    pub fn new(alloc: Global) -> Clause
        ensures { result ≡ [] }
    {
        Clause {
            lits: SmallVec::new(alloc),
        }
    }

    /// The clause that has these literals, in any order and with any repeats.
    pub fn from_slice(alloc: Global, lits: &[Lit]) -> Result<Clause, Memory>
        ensures { IfOk result (IsClauseOf lits.now) }
    {
        let mut sorted = Vec::from_slice(alloc, lits)?;
        put_in_order(&mut sorted);
        let lits = SmallVec::from_slice(alloc, sorted.as_slice())?;
        Ok(Clause { lits })
    }

    /// The same clause again.
    pub fn copy(&self, alloc: Global) -> Result<Clause, Memory>
        ensures { IfOk result (λ c. c ≡ self.now) }
    {
        let lits = SmallVec::from_slice(alloc, self.lits.as_slice())?;
        Ok(Clause { lits })
    }

    /// The number of literals.
    pub fn len(&self) -> usize
        ensures length { result ≡ length self.now }
        ensures rises { LitsRise self.now }
    {
        self.lits.len()
    }

    /// Whether there is no literal.
    pub fn is_empty(&self) -> bool
        ensures { IsTrue result ↔ (self.now ≡ []) }
    {
        self.lits.is_empty()
    }

    /// The literals as a slice.
    pub fn as_slice(&self) -> &[Lit]
        ensures lits { result.now ≡ self.now }
        ensures rises { LitsRise self.now }
    {
        self.lits.as_slice()
    }
}

/// Sorts literals and drops repeats.
fn put_in_order(lits: &mut Vec<Lit>)
    ensures { IsClauseOf lits.old.items lits.new.items }
{
    lits.sort_unstable();
    lits.dedup();
}
