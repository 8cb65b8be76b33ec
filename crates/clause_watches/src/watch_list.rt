//! The ids of the clauses that watch a literal.

ghost use Rattle.std.specs.Prelude.{◌≡◌, ◌+◌, ◌*◌, ◌<◌, ◌≤◌, ◌^◌, [], ◌∷◌, ◌++◌, length, Contains, OnOk, OnErr};
ghost use Rattle.std.specs.List.{swap_remove};
ghost use Rattle.plain_lits.specs.declared.lit.Lit.{Lit};
ghost use Rattle.plain_lits.specs.Packed.{packed};
ghost use Rattle.clause_watches.specs.Picks.{ClaimsAll};
ghost use Rattle.clause_watches.specs.WatchLists.{no_list, list_at, ids_at, with_id, without};
ghost use Rattle.clause_watches.specs.WatchLists.{ClaimsOne, HasMoreRoom};

use lists::Memory;
use plain_lits::Lit;
use smallvec::SmallVec;
use std::alloc::Global;
use std::marker::Model;

/// Ids of clauses, with room for `uses` of them: for each clause that holds the literal. So an id can come without
/// memory. Up to six lie in the list itself: a search mostly waits for memory, and looks into one place less so.
#[derive(Drop)]
pub struct WatchList {
    ids: SmallVec<u32, 6>,
    uses: usize,
}

impl Model for WatchList {
    ghost use Rattle.std.specs.Prelude.{◌≤◌, length};
    ghost use Rattle.clause_watches.specs.WatchLists.{Listed, IsRoomy};

    ghost Value = { Listed };

    ghost view = { λ w. record { ids = w.ids.items; uses = w.uses } };

    ghost invariant = { λ w. IsRoomy w.ids.items w.uses w.ids.capacity };
}

impl WatchList {
    /// No id, which takes no memory.
    pub fn new(alloc: Global) -> WatchList
        ensures { result ≡ no_list }
    {
        WatchList {
            ids: SmallVec::new(alloc),
            uses: 0,
        }
    }

    /// The ids.
    pub fn as_slice(&self) -> &[u32]
        ensures { result.now ≡ self.now.ids }
    {
        self.ids.as_slice()
    }

    /// Adds an id, for which there is room.
    pub fn push(&mut self, id: u32)
        requires { length self.old.ids < self.old.uses }
        ensures ids { self.new.ids ≡ self.old.ids ++ id ∷ [] }
        ensures uses { self.new.uses ≡ self.old.uses }
    {
        let _ = self.ids.push(id);
    }

    /// Takes the id at an index away; the last one takes its place.
    pub fn remove(&mut self, at: usize)
        requires { at < length self.old.ids }
        ensures ids { self.new.ids ≡ swap_remove self.old.ids at 0 }
        ensures uses { self.new.uses ≡ self.old.uses }
    {
        let _ = self.ids.swap_remove(at);
    }

    /// Makes room for one id more. After `Memory` nothing has changed.
    pub fn claim(&mut self) -> Result<(), Memory>
        ensures ids { self.new.ids ≡ self.old.ids }
        ensures ok { OnOk result (self.new.uses ≡ self.old.uses + 1) }
        ensures err { OnErr result (self.new.uses ≡ self.old.uses) }
    {
        // No id is past four bytes, so no list comes to have more.
        if self.uses >= u32::MAX as usize {
            return Err(Memory);
        }
        let more = self.uses - self.ids.len();
        self.ids.reserve(more + 1)?;
        self.uses += 1;
        Ok(())
    }
}

/// A literal's code: twice its variable, and one more where it is positive.
pub fn code_of(lit: Lit) -> usize
    requires { 2 * lit.var + 1 < 2 ^ 64 }
    ensures { result ≡ packed lit }
{
    let sign = if lit.positive { 1 } else { 0 };
    2 * lit.var + sign
}

/// Adds an id to a list.
pub fn push_id(lists: &mut Vec<WatchList>, code: usize, id: u32)
    requires within { code < length lists.old.items }
    requires room { length (ids_at lists.old.items code) < (list_at lists.old.items code).uses }
    ensures { lists.new.items ≡ with_id lists.old.items code id }
{
    lists[code].push(id);
}

/// Takes the id at an index of a list away.
pub fn remove_id(lists: &mut Vec<WatchList>, code: usize, at: usize)
    requires within { code < length lists.old.items }
    requires at { at < length (ids_at lists.old.items code) }
    ensures { lists.new.items ≡ without lists.old.items code at }
{
    lists[code].remove(at);
}

/// Makes room for one id more in a list. After `Memory` nothing has changed.
fn claim_id(lists: &mut Vec<WatchList>, code: usize) -> Result<(), Memory>
    requires { code < length lists.old.items }
    ensures ok { OnOk result (ClaimsOne lists.old.items lists.new.items code) }
    ensures err { OnErr result (HasMoreRoom lists.old.items lists.new.items) }
{
    lists[code].claim()
}

/// Makes room for a clause in the lists of its literals. After `Memory` there may be room for a part.
pub fn claim_all(lists: &mut Vec<WatchList>, clause: &[Lit]) -> Result<(), Memory>
    requires { (l : Lit) → Contains clause.now l → packed l < length lists.old.items }
    ensures room { HasMoreRoom lists.old.items lists.new.items }
    ensures ok { OnOk result (ClaimsAll lists.old.items lists.new.items clause.now) }
{
    let _count = lists.len();
    for lit in clause {
        claim_id(lists, code_of(*lit))?;
    }
    Ok(())
}

/// The ids of a list.
pub fn ids_in(lists: &[WatchList], code: usize) -> &[u32]
    requires { code < length lists.now }
    ensures { result.now ≡ ids_at lists.now code }
{
    lists[code].as_slice()
}

/// Makes lists for the codes below `count`. After `Memory` there may be some of them.
pub fn grow_lists(alloc: Global, lists: &mut Vec<WatchList>, count: usize) -> Result<(), Memory>
    ensures kept { HasMoreRoom lists.old.items lists.new.items }
    ensures ok { OnOk result (count ≤ length lists.new.items) }
{
    'grow: while lists.len() < count {
        lists.push(WatchList::new(alloc))?;
    }
    Ok(())
}
