//! How far apart the levels of learned clauses lie, by which a search begins anew.

ghost use Rattle.std.specs.Prelude.{Contains};
ghost use Rattle.plain_lits.specs.declared.lit.Lit.{Lit};
ghost use Rattle.plain_lits.specs.Literals.{negation};

use lists::Memory;
use plain_lits::Lit;
use std::alloc::Global;
use unit_propagate::Propagator;

/// More levels than that are told as so many.
const MOST_LEVELS: usize = 1_000_000;

/// One in the averages.
const ONE: u64 = 1 << 20;

/// Averages of how many levels the learned clauses had, each weighted by how late it came: `short` over some 32 of
/// them, `long` over some 4,096. Where the short one is well above the long one, a search has come to where little is
/// to be learned (Audemard and Simon, Refining restarts strategies for SAT and UNSAT, 2012; Biere and Fröhlich,
/// Evaluating CDCL restart schemes, 2015). Both begin at none, so that a young search begins anew often.
#[derive(Clone, Copy)]
pub struct Pace {
    short: u64,
    long: u64,
}

impl Pace {
    /// No clause yet.
    pub fn new() -> Pace {
        Pace { short: 0, long: 0 }
    }

    /// A clause with so many levels was learned.
    pub fn note(&mut self, levels: u32) {
        let levels = (levels as u64).saturating_mul(ONE);
        self.short = self
            .short
            .saturating_sub(self.short / 32)
            .saturating_add(levels / 32);
        self.long = self
            .long
            .saturating_sub(self.long / 4096)
            .saturating_add(levels / 4096);
    }

    /// Whether the last clauses had more levels than the others by a ninth.
    pub fn is_slow(&self) -> bool {
        self.short / 10 * 9 >= self.long
    }
}

/// On how many levels above the second one the literals of a false clause lie (its literal block distance).
pub fn levels_of(alloc: Global, search: &Propagator, clause: &[Lit]) -> Result<u32, Memory>
    requires { (l : Lit) → Contains clause.now l → Contains search.now.lits (negation l) }
{
    let mut levels = Vec::new(alloc);
    for lit in clause {
        let index = search.position(!*lit);
        let level = search.starts().partition_point(|start| *start <= index);
        if level > 2 {
            levels.push(level)?;
        }
    }
    levels.sort_unstable();
    levels.dedup();
    Ok(levels.len().min(MOST_LEVELS) as u32)
}
