//! The table of atoms.

ghost use Rattle.std.specs.Prelude.{◌≡◌, ◌⊎◌, ◌<◌, ℕ, [], length, slice_get, Contains, Some, IfOk, IfSome, IfNone, OnErr};
ghost use Rattle.meaning_atoms.specs.declared.atom.Atom.TheVariants.{Member};
ghost use Rattle.atom_table.specs.Numbering.{AreDifferent, Numbers};

use indexmap::IndexSet;
use lists::Memory;
use meaning_atoms::Atom;
use meaning_atoms::laws::atoms_are_equal;
use std::alloc::Global;
use std::marker::Model;

/// The fewest places for guesses.
const FEWEST: usize = 64;

/// How many places for arguments there are for each variable, at most.
const APART: usize = 16;

/// A number for two others, so that pairs with a number in common lie apart.
fn mixed(first: u32, second: u32) -> u32 {
    first.wrapping_mul(31).wrapping_add(second.wrapping_mul(7))
}

/// The place of an atom's guess among so many: by its numbers, so that the members of a set lie beside each other.
fn place_of(atom: &Atom, places: usize) -> usize {
    let number = match *atom {
        Atom::Member(a) | Atom::Der(_, a) => a,
        Atom::Live(a) | Atom::Asm(a) => a.wrapping_mul(3).wrapping_add(1),
        Atom::Attack(b, a) | Atom::Con(b, a) | Atom::Head(b, a) | Atom::Body(b, a) => mixed(b, a),
        Atom::Gap(a, i, j) | Atom::ConGap(a, i, j) | Atom::HGap(a, i, j) | Atom::BGap(a, i, j) =>
            mixed(mixed(a, i), j),
        Atom::Tail(a, i) | Atom::Miss(_, a, i) => a
            .wrapping_mul(5)
            .wrapping_add(i.wrapping_mul(17)),
        Atom::Unmet(a, i) | Atom::Sup(_, a, i) => a
            .wrapping_mul(11)
            .wrapping_add(i.wrapping_mul(19)),
        Atom::Hit(_, a, i) => a.wrapping_mul(13).wrapping_add(i.wrapping_mul(21)),
        Atom::Range(a) => a.wrapping_mul(9).wrapping_add(2),
        Atom::Ask(n) => n.wrapping_mul(33),
        Atom::Cf => 0,
        Atom::Ad => 1,
        Atom::Co => 2,
        Atom::St => 3,
    };
    number as usize & places.saturating_sub(1)
}

/// The variable that is guessed at a place, where it is the atom's.
fn guess(atoms: &[Atom], recent: &[u32], place: usize, atom: &Atom) -> Option<usize>
    ensures { IfSome result (λ var. slice_get atoms.now var ≡ Some atom.now) }
{
    if place >= recent.len() {
        return None;
    }
    let var = recent[place] as usize;
    if var >= atoms.len() || !atoms_are_equal(&atoms[var], atom) {
        return None;
    }
    Some(var)
}

/// Keeps a variable as the guess at a place. Where the variables have outgrown the places, there are twice as many from
/// then on, as far as memory goes.
fn note(recent: &mut Vec<u32>, place: usize, var: usize) {
    if var >= u32::MAX as usize {
        return;
    }
    if place < recent.len() {
        recent[place] = var as u32;
    }
    if var >= recent.len() {
        let _ = recent.resize(recent.len().saturating_mul(2).max(FEWEST), 0);
    }
}

/// The variable that is kept for an argument's being a member, if any.
fn member_var(members: &[Option<u32>], argument: u32) -> Option<usize>
    ensures { IfSome result (λ var. slice_get members.now argument ≡ Some (Some var)) }
{
    let index = argument as usize;
    if index >= members.len() {
        return None;
    }
    match members[index] {
        Some(var) => Some(var as usize),
        None => None,
    }
}

/// Makes room for an argument's variable, where the arguments don't lie too far apart for so many variables and memory
/// allows.
fn make_room(members: &mut Vec<Option<u32>>, index: usize, vars: usize)
    ensures { (a var : ℕ) → slice_get members.new.items a ≡ Some (Some var)
        → slice_get members.old.items a ≡ Some (Some var) }
{
    if index < members.len() || index / APART >= vars.max(FEWEST) {
        return;
    }
    let more = members.len().saturating_mul(2).max(index.saturating_add(1));
    match members.resize(more, None) {
        Ok(()) => {}
        Err(_) => {}
    }
}

/// Keeps the variable of an argument's being a member.
fn note_member(members: &mut Vec<Option<u32>>, argument: u32, var: usize)
    ensures { (a v : ℕ) → slice_get members.new.items a ≡ Some (Some v)
        → (slice_get members.old.items a ≡ Some (Some v)) ⊎ ((a ≡ argument) × (v ≡ var)) }
{
    if var >= u32::MAX as usize {
        return;
    }
    let index = argument as usize;
    make_room(members, index, var);
    if index < members.len() {
        members[index] = Some(var as u32);
    }
}

/// Atoms in the order in which they came, each once. An atom's variable is its index, so variables begin at 0 and none
/// is left out. It keeps the allocator that it was made with. `recent` has at each place the variable of the last atom
/// that has this place, as a guess that is compared before it is used: most looks then hash nothing. `members` has for
/// arguments the variables of their being members, which need no comparison: most looks are for these.
pub struct AtomTable {
    atoms: IndexSet<Atom>,
    recent: Vec<u32>,
    members: Vec<Option<u32>>,
}

// By hand, so that a drop is one call (docs/PROVING.md).
impl Drop for AtomTable {
    fn drop(self) {
        let Self {
            atoms,
            recent,
            members,
        } = self;
    }
}

impl Model for AtomTable {
    ghost use Rattle.std.specs.Prelude.{List};
    ghost use Rattle.meaning_atoms.specs.declared.atom.Atom.{Atom};
    ghost use Rattle.atom_table.specs.Numbering.{IsTable};

    ghost Value = { List Atom };

    ghost view = { λ t. t.atoms.keys };

    ghost invariant = { λ t. IsTable t.atoms.keys t.members.items };
}

impl AtomTable {
    /// The table without atoms, which takes no memory.
    pub fn new(alloc: Global) -> AtomTable
        ensures { result ≡ [] }
    {
        AtomTable {
            atoms: IndexSet::new(alloc),
            recent: Vec::new(alloc),
            members: Vec::new(alloc),
        }
    }

    /// The variable of an atom, which is looked for by a guess first.
    fn guessed_var_of(&mut self, atom: &Atom) -> Result<usize, Memory>
        ensures ok { IfOk result (Numbers self.old self.new atom.now) }
        ensures err { OnErr result (self.new ≡ self.old) }
    {
        let place = place_of(atom, self.recent.len());
        if let Some(known) = guess(self.atoms.as_slice(), self.recent.as_slice(), place, atom) {
            return Ok(known);
        }
        let (var, _) = self.atoms.insert_full(*atom)?;
        note(&mut self.recent, place, var);
        Ok(var)
    }

    /// The variable of an argument's being a member.
    fn var_of_member(&mut self, argument: u32) -> Result<usize, Memory>
        ensures ok { IfOk result (Numbers self.old self.new (Member argument)) }
        ensures err { OnErr result (self.new ≡ self.old) }
    {
        if let Some(known) = member_var(self.members.as_slice(), argument) {
            return Ok(known);
        }
        let var = self.guessed_var_of(&Atom::Member(argument))?;
        note_member(&mut self.members, argument, var);
        Ok(var)
    }

    /// The variable of an atom, which is given one if it has none. Each atom keeps the variable that it has. After
    /// `Memory` the table is as before.
    pub fn var_of(&mut self, atom: &Atom) -> Result<usize, Memory>
        ensures ok { IfOk result (Numbers self.old self.new atom.now) }
        ensures err { OnErr result (self.new ≡ self.old) }
    {
        match *atom {
            Atom::Member(argument) => self.var_of_member(argument),
            _ => self.guessed_var_of(atom),
        }
    }

    /// The atom of a variable.
    pub fn atom_at(&self, var: usize) -> Atom
        requires { var < length self.now }
        ensures { slice_get self.now var ≡ Some result }
    {
        self.atoms.as_slice()[var]
    }

    /// The variable of an atom, if it has one.
    pub fn find(&self, atom: &Atom) -> Option<usize>
        ensures some { IfSome result (λ var. slice_get self.now var ≡ Some atom.now) }
        ensures none { IfNone result (¬ Contains self.now atom.now) }
    {
        self.atoms.get_index_of(atom)
    }

    /// The number of atoms, which is the number of variables.
    pub fn len(&self) -> usize
        ensures len { result ≡ length self.now }
        ensures different { AreDifferent self.now }
    {
        self.atoms.len()
    }
}
