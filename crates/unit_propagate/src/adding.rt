//! Clauses, variables and blocks come.

ghost use Rattle.std.specs.Prelude.{◌≡◌, ◌≢◌, ℕ, ◌+◌, ◌*◌, ◌<◌, ◌≤◌, ◌^◌, [], ◌∷◌, ◌++◌, length, take, Contains};
ghost use Rattle.std.specs.Prelude.{IfOk, OnOk, OnErr, IsTrue, Some, slice_index, vec_len, vec_capacity, ◌⊎◌, ◌↔◌};
ghost use Rattle.plain_lits.specs.declared.lit.Lit.{Lit};
ghost use Rattle.plain_lits.specs.HintCheck.{IsUnit};
ghost use Rattle.plain_lits.specs.Literals.{negation};
ghost use Rattle.plain_lits.specs.Packed.{packed};
ghost use Rattle.plain_lits.specs.Trails.{AreLevels};
ghost use Rattle.unit_propagate.specs.Search.{StaysSearch, GainsClause, GainsBlock};
ghost use Rattle.unit_propagate.specs.States.{state_of, search_of, IsKept, progress_at, no_progress};
ghost use Rattle.clause_watches.specs.Picks.{IsPairOf, IsUnfalse, WatchesLast};
ghost use Rattle.unit_propagate.specs.Steps.{IsLonger, MakesRoom};
ghost use Rattle.unit_propagate.specs.Steps.{LowersOne, LowersProgress, Lowers, HasRoomFor, IsLow, IsReady};
ghost use Rattle.unit_propagate.specs.Steps.{Inserts};
ghost use Rattle.unit_propagate.specs.Steps.{with_mark, begun, Assumes, AssumesAll, HasLearned};
ghost use Rattle.clause_watches.specs.WatchLists.{HasPairRoom, Joins};

use crate::watch_state::{Progress, WatchState, progress_in};
use clause_watches::{Pair, claim_all, grow_lists, pick, pick_second, push_id, rank_of, vars_of};
use lists::Memory;
use plain_lits::{Lit, Value};
use std::alloc::Global;

/// Makes a list of ids at least so long, with zeros.
fn grow_ids(ids: &mut Vec<u32>, count: usize) -> Result<(), Memory>
    ensures kept { IsLonger 0 ids.old.items ids.new.items }
    ensures ok { OnOk result (count ≤ length ids.new.items) }
{
    if count <= ids.len() {
        return Ok(());
    }
    ids.resize(count, 0)?;
    Ok(())
}

/// Makes a list of marks at least so long, with marks of nothing.
fn grow_progress(progress: &mut Vec<Progress>, count: usize) -> Result<(), Memory>
    ensures kept { IsLonger no_progress progress.old.items progress.new.items }
    ensures ok { OnOk result (count ≤ length progress.new.items) }
{
    if count <= progress.len() {
        return Ok(());
    }
    progress.resize(count, Progress { head: 0, done: 0 })?;
    Ok(())
}

/// The lesser of two numbers.
fn smaller(a: usize, b: usize) -> usize
    ensures first { result ≤ a }
    ensures second { result ≤ b }
    ensures one_of { (result ≡ a) ⊎ (result ≡ b) }
{
    if a <= b { a } else { b }
}

/// Lowers a mark to an index.
fn lower_progress_at(progress: &mut Vec<Progress>, at: usize, index: usize)
    requires { at < length progress.old.items }
    ensures { LowersOne progress.old.items progress.new.items at index }
{
    let mark = progress_in(progress.as_slice(), at);
    progress[at] = Progress {
        head: smaller(mark.head, index),
        done: mark.done,
    };
}

/// Lowers the marks of levels to an index, from the last level down to one that began no later.
fn lower_progress(progress: &mut Vec<Progress>, starts: &[usize], index: usize)
    requires within { (k : ℕ) → k < length starts.now → slice_index starts.now k < length progress.old.items }
    requires levels { (i j : ℕ) → i ≤ j → j < length starts.now → slice_index starts.now i ≤ slice_index starts.now j }
    requires heads { (n : ℕ) → (progress_at progress.old.items n).head ≤ n }
    ensures { LowersProgress progress.old.items progress.new.items starts.now 0 index }
{
    let mut level = starts.len();
    'levels: while level > 0 {
        let start = starts[level - 1];
        if start <= index {
            return;
        }
        lower_progress_at(progress, start, index);
        level -= 1;
    }
}

impl WatchState {
    /// Makes room for the variables below `vars`.
    fn make_room(&mut self, vars: usize) -> Result<(), Memory>
        requires kept { IsKept (state_of self.old) }
        requires few { vars ≤ 2 ^ 31 }
        ensures kept { IsKept (state_of self.new) }
        ensures room { MakesRoom (state_of self.old) (state_of self.new) }
        ensures ok { OnOk result (vars ≤ self.new.trail.vars) }
    {
        if vars <= self.trail.vars() {
            return Ok(());
        }
        grow_lists(self.alloc, &mut self.lists, 2 * vars)?;
        grow_ids(&mut self.reasons, vars)?;
        grow_progress(&mut self.progress, vars + 1)?;
        self.trail.make_room(vars)?;
        Ok(())
    }

    /// Takes back how far propagation has come to an index, now and at each level.
    fn lower(&mut self, index: usize)
        requires kept { IsKept (state_of self.old) }
        ensures kept { IsKept (state_of self.new) }
        ensures low { Lowers (state_of self.old) (state_of self.new) index }
    {
        let _form = self.trail.len();
        lower_progress(&mut self.progress, self.trail.starts(), index);
        self.head = smaller(self.head, index);
    }

    /// Has a new clause stand in the lists of its pair, or among those that watch nothing.
    fn join(&mut self, pair: Pair, id: u32)
        requires room { HasPairRoom self.old.lists.items pair }
        requires short { vec_len self.old.short < vec_capacity self.old.short }
        ensures rest { state_of self.new ≡ record (state_of self.old) {
          lists = self.new.lists.items;
          short =
              self.new.short.items;
        } }
        ensures joins { Joins self.old.lists.items self.new.lists.items pair id }
        ensures alone { pair.first ≡ pair.second → self.new.short.items ≡ self.old.short.items ++ id ∷ [] }
        ensures apart { pair.first ≢ pair.second → self.new.short.items ≡ self.old.short.items }
    {
        if pair.first.code() == pair.second.code() {
            let _ = self.short.push(id);
            return;
        }
        push_id(&mut self.lists, pair.first.code(), id);
        push_id(&mut self.lists, pair.second.code(), id);
    }

    /// Adds a clause with its pair and its id, for which there is room. After `Memory` nothing has changed.
    fn insert(&mut self, clause: &[Lit], pair: Pair, id: u32, index: usize) -> Result<(), Memory>
        requires kept { IsKept (state_of self.old) }
        requires ready { IsReady (state_of self.old) clause.now }
        requires pair { IsPairOf clause.now pair }
        requires id_is { id ≡ length self.old.arena.clauses + 1 }
        requires low { IsLow (state_of self.old) index }
        requires first { IsUnfalse self.old.trail.lits pair.first index }
        requires second { IsUnfalse self.old.trail.lits pair.second index }
        ensures kept { IsKept (state_of self.new) }
        ensures ok { OnOk result (Inserts (state_of self.old) (state_of self.new) clause.now) }
        ensures pairs { OnOk result (self.new.arena.pairs ≡ self.old.arena.pairs ++ pair ∷ []) }
        ensures err { OnErr result (state_of self.new ≡ state_of self.old) }
    {
        let joined = Pair {
            first: pair.first,
            second: pair.second,
        };
        self.short.reserve(1)?;
        self.arena.push(self.alloc, clause, pair)?;
        self.join(joined, id);
        Ok(())
    }

    /// The id that the next clause has.
    fn next_id(&self) -> Result<u32, Memory>
        ensures { IfOk result (λ id. id ≡ length self.now.arena.clauses + 1) }
    {
        let count = self.arena.len();
        if count >= u32::MAX as usize {
            return Err(Memory);
        }
        Ok(count as u32 + 1)
    }

    /// Makes room for a clause and its variables.
    fn prepare(&mut self, clause: &[Lit]) -> Result<(), Memory>
        requires { IsKept (state_of self.old) }
        ensures kept { IsKept (state_of self.new) }
        ensures room { MakesRoom (state_of self.old) (state_of self.new) }
        ensures ok { OnOk result (IsReady (state_of self.new) clause.now) }
    {
        let vars = vars_of(clause)?;
        self.make_room(vars)?;
        claim_all(&mut self.lists, clause)?;
        Ok(())
    }

    /// Adds a clause, for which there is room, with the pair that it watches, and gives its id.
    fn add_watching(&mut self, clause: &[Lit], pair: Pair) -> Result<u32, Memory>
        requires kept { IsKept (state_of self.old) }
        requires ready { IsReady (state_of self.old) clause.now }
        requires pair { IsPairOf clause.now pair }
        requires last { WatchesLast self.old.trail.lits clause.now pair }
        ensures kept { IsKept (state_of self.new) }
        ensures ok { IfOk result (GainsClause (search_of (state_of self.old)) (search_of (state_of self.new))
            clause.now) }
        ensures pairs { OnOk result (self.new.arena.pairs ≡ self.old.arena.pairs ++ pair ∷ []) }
        ensures err { OnErr result (StaysSearch (search_of (state_of self.old)) (search_of (state_of self.new))) }
    {
        let id = self.next_id()?;
        let index = smaller(
            rank_of(&self.trail, pair.first.lit()),
            rank_of(&self.trail, pair.second.lit()),
        );
        self.lower(index);
        self.insert(clause, pair, id, index)?;
        Ok(id)
    }

    /// Adds a clause, and gives its id.
    pub(crate) fn add(&mut self, clause: &[Lit]) -> Result<u32, Memory>
        requires { IsKept (state_of self.old) }
        ensures kept { IsKept (state_of self.new) }
        ensures ok { IfOk result (GainsClause (search_of (state_of self.old)) (search_of (state_of self.new))
            clause.now) }
        ensures err { OnErr result (StaysSearch (search_of (state_of self.old)) (search_of (state_of self.new))) }
    {
        self.prepare(clause)?;
        let pair = pick(&self.trail, clause);
        let id = self.add_watching(clause, pair)?;
        Ok(id)
    }

    /// Begins a level without a literal. After `Memory` all is as before.
    fn begin_level(&mut self) -> Result<(), Memory>
        requires { IsKept (state_of self.old) }
        ensures kept { IsKept (state_of self.new) }
        ensures ok { OnOk result (state_of self.new ≡ begun (with_mark (state_of self.old))) }
        ensures err { OnErr result (state_of self.new ≡ with_mark (state_of self.old)) }
    {
        let _form = self.trail.len();
        self.mark();
        self.trail.begin_level()?;
        Ok(())
    }

    /// Makes a literal of a block true, unless it is true already. It isn't false.
    fn assume_one(&mut self, lit: Lit)
        requires kept { IsKept (state_of self.old) }
        requires known { lit.var < self.old.trail.vars }
        requires not_false { Contains self.old.trail.lits (negation lit) → ⊥ }
        ensures kept { IsKept (state_of self.new) }
        ensures assumed { Assumes (state_of self.old) (state_of self.new) lit }
    {
        let _form = self.trail.len();
        match self.trail.value(lit) {
            Value::Unset => self.imply(lit, 0),
            _ => {}
        }
    }

    /// Makes the literals of a block true.
    fn assume_all(&mut self, lits: &[Lit])
        requires kept { IsKept (state_of self.old) }
        requires known { (l : Lit) → Contains lits.now l → l.var < self.old.trail.vars }
        requires not_false { (l : Lit) → Contains lits.now l → Contains self.old.trail.lits (negation l) → ⊥ }
        requires plain { (l : Lit) → Contains lits.now l → Contains lits.now (negation l) → ⊥ }
        ensures kept { IsKept (state_of self.new) }
        ensures assumed { AssumesAll (state_of self.old) (state_of self.new) lits.now }
    {
        for lit in lits {
            self.assume_one(*lit);
        }
    }

    /// Begins a level with the literals of a block.
    pub(crate) fn assume_block(&mut self, lits: &[Lit]) -> Result<(), Memory>
        requires kept { IsKept (state_of self.old) }
        requires not_false { (l : Lit) → Contains lits.now l → Contains self.old.trail.lits (negation l) → ⊥ }
        requires plain { (l : Lit) → Contains lits.now l → Contains lits.now (negation l) → ⊥ }
        ensures kept { IsKept (state_of self.new) }
        ensures ok { OnOk result (GainsBlock (search_of (state_of self.old)) (search_of (state_of self.new)) lits.now) }
        ensures err { OnErr result (StaysSearch (search_of (state_of self.old)) (search_of (state_of self.new))) }
    {
        let vars = vars_of(lits)?;
        self.make_room(vars)?;
        self.begin_level()?;
        self.assume_all(lits);
        Ok(())
    }

    /// Adds a clause that is unit, and makes its literal true at once, with the clause as its reason. The clause watches
    /// this literal, so propagation goes on from where it was.
    pub(crate) fn add_learned(&mut self, clause: &[Lit], lit: Lit) -> Result<u32, Memory>
        requires kept { IsKept (state_of self.old) }
        requires unit { IsUnit negation self.old.trail.lits clause.now lit }
        ensures kept { IsKept (state_of self.new) }
        ensures ok { IfOk result (HasLearned (state_of self.old) (state_of self.new) clause.now lit) }
        ensures head { OnOk result (self.new.head ≡ self.old.head) }
        ensures err { OnErr result (StaysSearch (search_of (state_of self.old)) (search_of (state_of self.new))) }
    {
        let head = self.head;
        self.prepare(clause)?;
        let pair = pick_second(&self.trail, clause, lit);
        let id = self.add_watching(clause, pair)?;
        let _form = self.trail.len();
        self.imply(lit, id);
        self.head = head;
        Ok(id)
    }
}
