//! What a set derives by rules, by a search that meets each atom of each body once (W. Dowling, J. Gallier,
//! "Linear-time algorithms for testing the satisfiability of propositional Horn formulae", Journal of Logic Programming
//! 1, 1984).

ghost use Rattle.std.specs.Prelude.{◌≡◌, ℕ, ◌+◌, ◌<◌, ◌≤◌, [], Bool, true, Contains, IfOk, OnOk, length, slice_index};
ghost use Rattle.lists.specs.Members.{IsSetOf};
ghost use Rattle.semantics.specs.declared.numbers.TheConstants.{MAX_ATOM};
ghost use Rattle.semantics.specs.Rules.{Derives};
ghost use Rattle.aba_notions.specs.Storage.{IsTableOf, rules_in};
ghost use Rattle.aba_notions.specs.Closing.{EntersSearch, FiresInSearch, GoesOn, IsClosed, IsMarked, IsSearchOf};
ghost use Rattle.aba_notions.specs.Closing.{ListsDerived, is_derived};

use crate::rule_table::RuleTable;
use lists::Memory;
use set_lists::NumSet;
use std::alloc::Global;

/// What a search has found so far.
struct Search {
    /// Whether an atom, by its number, is derived.
    derived: Vec<bool>,
    /// How many atoms of the body of a rule, by its index, are not derived.
    open_atoms: Vec<usize>,
    /// Pairs of a derived atom and a rule that uses it, as far as the counts still hold them.
    pending: Vec<(u32, u32)>,
}

// By hand, so that a drop is one call (docs/PROVING.md).
impl Drop for Search {
    fn drop(self) {
        let Search {
            derived: _,
            open_atoms: _,
            pending: _,
        } = self;
    }
}

impl RuleTable {
    /// What follows by the rules from the members of a set that are among so many atoms, by rising atom.
    pub(crate) fn closure(
        &self,
        alloc: Global,
        atoms: u32,
        set: &NumSet,
    ) -> Result<Vec<u32>, Memory>
        requires table { IsTableOf atoms self.now }
        requires small { atoms ≤ MAX_ATOM }
        ensures { IfOk result (λ found. IsSetOf (λ x. (x ≤ atoms) × Derives (rules_in self.now) (Contains set.now) x)
            found.items) }
    {
        let mut search = self.begin(alloc, atoms)?;
        self.enter_all(&mut search, set.as_slice())?;
        self.fire_all(&mut search)?;
        self.settle_all(&mut search)?;
        derived_atoms(alloc, &search.derived)
    }

    /// The beginning: nothing is derived.
    fn begin(&self, alloc: Global, atoms: u32) -> Result<Search, Memory>
        requires table { IsTableOf atoms self.now }
        requires small { atoms ≤ MAX_ATOM }
        ensures state { IfOk result (λ s. IsSearchOf self.now (IsMarked s.derived.items) 0 s) }
        ensures none { IfOk result (λ s. (x : ℕ) → IsMarked s.derived.items x → ⊥) }
        ensures wide { IfOk result (λ s. length s.derived.items ≡ atoms + 1) }
    {
        let derived = vec![in alloc; false; atoms as usize + 1]?;
        let open_atoms = self.bodies.counts(alloc)?;
        let pending = Vec::new(alloc);
        Ok(Search {
            derived,
            open_atoms,
            pending,
        })
    }

    /// Marks the given atoms as derived, where nothing is yet.
    fn enter_all(&self, search: &mut Search, given: &[u32]) -> Result<(), Memory>
        requires state { IsSearchOf self.now (IsMarked search.old.derived.items) 0 search.old }
        requires none { (x : ℕ) → IsMarked search.old.derived.items x → ⊥ }
        ensures state { OnOk result (IsSearchOf self.now (Contains given.now) 0 search.new) }
        ensures entered { OnOk result ((x : ℕ) → Contains given.now x → is_derived search.new.derived.items x ≡ true) }
        ensures wide { OnOk result (length search.new.derived.items ≡ length search.old.derived.items) }
    {
        for atom in given {
            self.enter(search, *atom)?;
        }
        Ok(())
    }

    /// Lets each rule fire once.
    fn fire_all(&self, search: &mut Search) -> Result<(), Memory>
        requires { IsSearchOf self.now (IsMarked search.old.derived.items) 0 search.old }
        ensures state { OnOk result (IsSearchOf self.now (IsMarked search.new.derived.items)
            (length self.now.heads.items) search.new) }
        ensures on { OnOk result (GoesOn (rules_in self.now) search.old.derived.items search.new.derived.items) }
    {
        for rule in 0..self.heads.len() {
            self.fire(search, rule)?;
        }
        Ok(())
    }

    /// Takes all uses of derived atoms off the counts, and lets the rules fire whose counts come to 0.
    fn settle_all(&self, search: &mut Search) -> Result<(), Memory>
        requires { IsSearchOf self.now (IsMarked search.old.derived.items) (length self.now.heads.items) search.old }
        ensures closed { OnOk result (IsClosed self.now.heads.items self.now.uses.pairs search.new.derived.items) }
        ensures on { OnOk result (GoesOn (rules_in self.now) search.old.derived.items search.new.derived.items) }
    {
        while let Some((_, rule)) = search.pending.pop() {
            let rule = rule as usize;
            let left = search.open_atoms.as_slice()[rule] - 1;
            search.open_atoms[rule] = left;
            self.fire(search, rule)?;
        }
        Ok(())
    }

    /// Marks an atom as derived, unless it is: its uses are to be taken off the counts.
    fn enter(&self, search: &mut Search, atom: u32) -> Result<(), Memory>
        ensures { OnOk result (EntersSearch self.now.uses.pairs atom search.old search.new) }
    {
        let at = atom as usize;
        if at >= search.derived.len() {
            return Ok(());
        }
        if search.derived[at] {
            return Ok(());
        }
        search.derived[at] = true;
        search.pending.extend_from_slice(self.uses.of(atom))?;
        Ok(())
    }

    /// Lets the head of a rule enter where no atom of its body is open.
    fn fire(&self, search: &mut Search, rule: usize) -> Result<(), Memory>
        requires within { rule < length self.now.heads.items }
        requires counted { rule < length search.old.open_atoms.items }
        ensures { OnOk result (FiresInSearch self.now.heads.items self.now.uses.pairs rule search.old search.new) }
    {
        if search.open_atoms.as_slice()[rule] > 0 {
            return Ok(());
        }
        self.enter(search, self.heads.as_slice()[rule])
    }
}

/// The atoms that are marked as derived, by rising number.
fn derived_atoms(alloc: Global, derived: &[bool]) -> Result<Vec<u32>, Memory>
    requires { length derived.now ≤ MAX_ATOM + 1 }
    ensures { IfOk result (λ found. ListsDerived derived.now (length derived.now) found.items) }
{
    let mut found = Vec::new(alloc);
    for (atom, is_derived) in derived.iter().enumerate() {
        if *is_derived {
            found.push(atom as u32)?;
        }
    }
    Ok(found)
}
