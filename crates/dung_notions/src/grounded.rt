//! The grounded set, by a search that meets each attack once.

ghost use Rattle.std.specs.Prelude.{◌≡◌, ℕ, ◌<◌, ◌==◌, []};
ghost use Rattle.std.specs.Prelude.{Contains, IfOk, OnOk, length, filter, slice_index};
ghost use Rattle.attack_index.specs.semantics.specs.Framework.{Attacks, IsAttackedBy};
ghost use Rattle.attack_index.specs.semantics.specs.Frameworks.{IsNumberedAf};
ghost use Rattle.dung_notions.specs.Grounding.{GroundsInOrder};
ghost use Rattle.dung_notions.specs.Search.{Defeats, IsAttackedFrom, IsFinished, IsSearchOf, ReleasesTarget, ReleasesTargets};

use crate::af_plain::AfPlain;
use lists::{Items, Memory};
use set_lists::NumSet;
use std::alloc::Global;

/// The grounded set, and its members in an order in which each is defended by those before it.
#[derive(Drop)]
pub struct Grounded {
    pub set: NumSet,
    pub order: Items<u32>,
}

/// What a search has found so far.
#[derive(Drop)]
struct Search {
    /// Whether an argument, by its number, is attacked by a member.
    out: Vec<bool>,
    /// How many attackers of an argument are not out.
    open_attackers: Vec<usize>,
    /// The members found, as they entered.
    members: Vec<u32>,
    /// The attacks of arguments that are out, as far as the counts still hold them.
    pending: Vec<(u32, u32)>,
}

impl AfPlain {
    /// The grounded set, in time linear in arguments and attacks. `Memory` says that an allocation was
    /// refused.
    pub fn grounded(&self, alloc: Global) -> Result<Grounded, Memory>
        ensures { IfOk result (λ g. GroundsInOrder self.now g.set g.order) }
    {
        let Search {
            out: _,
            open_attackers,
            members,
            pending: _,
        } = self.run_rounds(alloc)?;
        let rising = unattacked(alloc, self.live(), &open_attackers)?;
        let set = NumSet::from_rising(alloc, &rising)?;
        Ok(Grounded {
            set,
            order: Items::from_vec(members),
        })
    }

    /// The end of the search. It goes in rounds: first all that the members of a round attack is defeated, then the
    /// attacks of the defeated are taken off the counts, which lets the members of the next round enter. So
    /// the attacks of a round are fetched one beside the other: one argument after the other took nearly twice
    /// as long on 3,000,000 random attacks.
    fn run_rounds(&self, alloc: Global) -> Result<Search, Memory>
        ensures { IfOk result (λ s. IsFinished self.now s.members.items s.open_attackers.items) }
    {
        let mut search = self.begin(alloc)?;
        let mut head = 0;
        while head < search.members.len() {
            let end = search.members.len();
            self.defeat_targets_from(&mut search, head)?;
            self.release_targets(&mut search)?;
            head = end;
        }
        Ok(search)
    }

    /// The beginning: nothing is out, and what nothing attacks is in.
    fn begin(&self, alloc: Global) -> Result<Search, Memory>
        ensures state { IfOk result (IsSearchOf self.now) }
        ensures pending { IfOk result (λ s. s.pending.items ≡ []) }
        ensures form { IfOk result (λ s. IsNumberedAf self.now) }
    {
        let open_attackers = self.attacker_counts(alloc)?;
        let out = vec![in alloc; false; open_attackers.len()]?;
        let members = unattacked(alloc, self.live(), &open_attackers)?;
        let pending = Vec::new(alloc);
        Ok(Search {
            out,
            open_attackers,
            members,
            pending,
        })
    }

    /// Defeats each argument that a member attacks which entered at an index from `head` on.
    fn defeat_targets_from(&self, search: &mut Search, head: usize) -> Result<(), Memory>
        requires { IsSearchOf self.now search.old }
        ensures { OnOk result (Defeats self.now (IsAttackedFrom self.now search.old.members.items head)
            search.old search.new) }
    {
        for index in head..search.members.len() {
            let member = search.members.as_slice()[index];
            self.defeat_targets(search, member)?;
        }
        Ok(())
    }

    /// Defeats each argument that a member attacks.
    fn defeat_targets(&self, search: &mut Search, member: u32) -> Result<(), Memory>
        requires state { IsSearchOf self.now search.old }
        requires member { Contains search.old.members.items member }
        ensures { OnOk result (Defeats self.now (Attacks self.now member) search.old search.new) }
    {
        let leaving = self.leaving(member);
        for pair in leaving {
            self.defeat(search, pair.1)?;
        }
        Ok(())
    }

    /// Puts out an argument that a member attacks, unless it is out: its attacks are to be taken off the counts.
    fn defeat(&self, search: &mut Search, argument: u32) -> Result<(), Memory>
        requires form { IsNumberedAf self.now }
        requires state { IsSearchOf self.now search.old }
        requires attacked { IsAttackedBy self.now search.old.members.items argument }
        ensures { OnOk result (Defeats self.now (λ b. b ≡ argument) search.old search.new) }
    {
        let at = argument as usize;
        if search.out[at] {
            return Ok(());
        }
        search.out[at] = true;
        search.pending.extend_from_slice(self.leaving(argument))?;
        Ok(())
    }

    /// Takes the pending attacks off the counts of what they reach.
    fn release_targets(&self, search: &mut Search) -> Result<(), Memory>
        requires form { IsNumberedAf self.now }
        requires state { IsSearchOf self.now search.old }
        ensures { OnOk result (ReleasesTargets self.now search.old search.new) }
    {
        for index in 0..search.pending.len() {
            let target = search.pending.as_slice()[index].1;
            release(search, target)?;
        }
        search.pending.clear();
        Ok(())
    }
}

/// Takes one open attacker off the count of an argument, which enters where that was the last one.
fn release(search: &mut Search, argument: u32) -> Result<(), Memory>
    requires within { argument < length search.old.open_attackers.items }
    requires counted { 0 < slice_index search.old.open_attackers.items argument }
    ensures { OnOk result (ReleasesTarget argument search.old search.new) }
{
    let at = argument as usize;
    let left = search.open_attackers.as_slice()[at] - 1;
    search.open_attackers[at] = left;
    if left > 0 {
        return Ok(());
    }
    search.members.push(argument)?;
    Ok(())
}

/// The live arguments with no open attacker.
fn unattacked(alloc: Global, live: &[u32], open_attackers: &[usize]) -> Result<Vec<u32>, Memory>
    requires { (a : ℕ) → Contains live.now a → a < length open_attackers.now }
    ensures { IfOk result (λ v. v.items ≡ filter (λ a. slice_index open_attackers.now a == 0) live.now) }
{
    let mut members = Vec::new(alloc);
    for argument in live {
        if open_attackers[*argument as usize] == 0 {
            members.push(*argument)?;
        }
    }
    Ok(members)
}
