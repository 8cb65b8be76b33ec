//! What a set derives by rules, by a search that meets each use of what is derived once, and no other rule (W. Dowling,
//! J. Gallier, "Linear-time algorithms for testing the satisfiability of propositional Horn formulae", Journal of Logic
//! Programming 1, 1984).

ghost use Rattle.std.specs.Prelude.{◌≡◌, ◌↔◌, ℕ, ◌<◌, [], IsTrue, OnOk, length};
ghost use Rattle.aba_notions.specs.Closing.{IsMarked};
ghost use Rattle.marked_rules.specs.Search.{EntersClosing, FiresClosing, Fits, GoesOnTo, HasDerived, HasFew};
ghost use Rattle.marked_rules.specs.Search.{IsAtStart, IsOpen, IsSearch, IsUsesOf, derived_in, heads_of};

use crate::counts::Counts;
use crate::rule_uses::RuleUses;
use aba_notions::AbaPlain;
use lists::Memory;
use marked_sets::Marks;
use std::alloc::Global;

/// What a search has found so far. It serves search after search.
pub(crate) struct Closing {
    /// The atoms that are derived, beside those that follow from nothing.
    pub(crate) derived: Marks,
    /// How many atoms of the body of a rule, by its index, are not derived.
    pub(crate) open: Counts,
    /// Pairs of a derived atom and a rule that uses it, as far as the counts still hold them.
    pub(crate) pending: Vec<(u32, u32)>,
}

// By hand, so that a drop is one call (docs/PROVING.md).
impl Drop for Closing {
    fn drop(self) {
        let Closing {
            derived: _,
            open: _,
            pending: _,
        } = self;
    }
}

impl Closing {
    /// Nothing yet. It takes no memory.
    pub(crate) fn new(alloc: Global) -> Closing {
        Closing {
            derived: Marks::new(alloc),
            open: Counts::new(alloc),
            pending: Vec::new(alloc),
        }
    }
}

impl RuleUses {
    /// Marks what follows by the rules from the given atoms, in time linear in these, in what follows and in its uses,
    /// without what follows from nothing. Given numbers past the atoms are passed over.
    pub(crate) fn close(
        &self,
        alloc: Global,
        plain: &AbaPlain,
        closing: &mut Closing,
        given: &[u32],
    ) -> Result<(), Memory>
        requires { IsUsesOf plain.now self.now }
        ensures { OnOk result (HasDerived plain.now self.now given.now closing.new) }
    {
        self.restart(alloc, closing)?;
        for atom in given {
            self.enter(closing, *atom)?;
        }
        self.settle_all(plain, closing)?;
        Ok(())
    }

    /// Goes back to the start, in one step from the second time on.
    pub(crate) fn restart(&self, alloc: Global, closing: &mut Closing) -> Result<(), Memory>
        ensures { OnOk result (IsAtStart self.now closing.new) }
    {
        closing.derived.clear(alloc, self.start.base.len())?;
        closing.open.restart(alloc, self.start.open.as_slice())?;
        closing.pending.clear();
        Ok(())
    }

    /// Lets each rule fire once.
    pub(crate) fn fire_all(&self, plain: &AbaPlain, closing: &mut Closing) -> Result<(), Memory>
        requires few { HasFew self.now.start }
        requires search { IsSearch plain.now self.now (IsMarked (derived_in self.now closing.old)) 0 closing.old }
        ensures { OnOk result (GoesOnTo plain.now self.now (length (heads_of plain.now)) closing.old closing.new) }
    {
        for rule in 0..plain.rule_heads().len() {
            self.fire(plain, closing, rule as u32)?;
        }
        Ok(())
    }

    /// Takes all uses of derived atoms off the counts, and lets the rules fire whose counts come to 0.
    pub(crate) fn settle_all(&self, plain: &AbaPlain, closing: &mut Closing) -> Result<(), Memory>
        requires { IsSearch plain.now self.now (IsMarked (derived_in self.now closing.old)) (length (heads_of plain.now))
            closing.old }
        ensures on { OnOk result (GoesOnTo plain.now self.now (length (heads_of plain.now)) closing.old closing.new) }
        ensures done { OnOk result (closing.new.pending.items ≡ []) }
    {
        while let Some((_, rule)) = closing.pending.pop() {
            closing.open.lower(self.start.open.as_slice(), rule);
            self.fire(plain, closing, rule)?;
        }
        Ok(())
    }

    /// Lets the head of a rule enter where no atom of its body is open.
    fn fire(&self, plain: &AbaPlain, closing: &mut Closing, rule: u32) -> Result<(), Memory>
        requires within { rule < length (heads_of plain.now) }
        requires counted { rule < length self.now.start.open.items }
        requires fits { Fits self.now.start closing.old }
        ensures { OnOk result (FiresClosing plain.now self.now rule closing.old closing.new) }
    {
        let open = closing.open.get(self.start.open.as_slice(), rule);
        if open > 0 {
            return Ok(());
        }
        let head = plain.rule_heads()[rule as usize];
        self.enter(closing, head)
    }

    /// Marks an atom as derived, unless it is: its uses are to be taken off the counts.
    fn enter(&self, closing: &mut Closing, atom: u32) -> Result<(), Memory>
        requires { Fits self.now.start closing.old }
        ensures { OnOk result (EntersClosing self.now atom closing.old closing.new) }
    {
        let open = self.lacks(closing, atom);
        if !open {
            return Ok(());
        }
        closing.derived.mark(atom);
        closing.pending.extend_from_slice(self.uses.of(atom))?;
        Ok(())
    }

    /// Whether a number is an atom that is not derived.
    fn lacks(&self, closing: &Closing, number: u32) -> bool
        ensures { IsTrue result ↔ IsOpen (derived_in self.now closing.now) number }
    {
        let base = self.start.base.as_slice();
        let index = number as usize;
        if index >= base.len() {
            return false;
        }
        if base[index] {
            return false;
        }
        !closing.derived.has(number)
    }

    /// Whether a number is an atom that is derived.
    pub(crate) fn knows(&self, closing: &Closing, number: u32) -> bool
        ensures { IsTrue result ↔ IsMarked (derived_in self.now closing.now) number }
    {
        let base = self.start.base.as_slice();
        let index = number as usize;
        if index >= base.len() {
            return false;
        }
        if base[index] {
            return true;
        }
        closing.derived.has(number)
    }
}
