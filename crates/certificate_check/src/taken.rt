//! The steps that were taken. A side clause is written out only where a hint names it that may use it, and then it has
//! one row, however many steps name it.

ghost use Rattle.std.specs.Prelude.{◌≡◌, ◌≤◌, length, map, IfOk, OnOk};
ghost use Rattle.certificate_check.specs.StepRows.{AddsClause, AddsDerived, IsUntouched, NotesRow, NotesSide, WritesSide};
ghost use Rattle.certificate_check.specs.StepRows.{place_named, row_named, row_of};

use clause_bench::Bench;
use lists::Memory;
use meaning_atoms::AtomLit;
use plain_lits::StepId;
use std::alloc::Global;

/// Where the clause of a step stands.
#[derive(Clone, Copy)]
pub(crate) enum Place {
    /// In a row of the bench, counted from 1.
    Row(u32),
    /// In the set of this number, as its side clause.
    Side(u32),
}

/// Steps, each with the place of its clause.
pub(crate) struct Taken {
    bench: Bench,
    places: Vec<Place>,
    /// The row of each side clause, counted from 1, or 0 where it isn't written out.
    sides: Vec<u32>,
    /// The rows that the hints of a step name.
    named: Vec<StepId>,
}

// By hand, so that a drop is one call (docs/PROVING.md).
impl Drop for Taken {
    fn drop(self) {
        let Taken {
            bench: _,
            places: _,
            sides: _,
            named: _,
        } = self;
    }
}

impl Taken {
    /// No step, beside so many side clauses.
    pub(crate) fn new(alloc: Global, count: usize) -> Result<Taken, Memory>
        ensures { IfOk result (IsUntouched count) }
    {
        let sides = vec![in alloc; 0u32; count]?;
        Ok(Taken {
            bench: Bench::new(alloc),
            places: Vec::new(alloc),
            sides,
            named: Vec::new(alloc),
        })
    }

    /// Makes the last row that of one step more.
    fn note_row(&mut self) -> Result<(), Memory>
        ensures { OnOk result (NotesRow self.old self.new) }
    {
        let row = last_row(&self.bench)?;
        self.places.push(Place::Row(row))?;
        Ok(())
    }

    /// Adds a step with a clause in a row of its own.
    pub(crate) fn push(&mut self, clause: &[AtomLit]) -> Result<(), Memory>
        ensures { OnOk result (AddsClause clause.now self.old self.new) }
    {
        self.bench.push(clause)?;
        self.note_row()?;
        Ok(())
    }

    /// Adds a step that names a side clause, which isn't looked at.
    pub(crate) fn push_side(&mut self, number: u32) -> Result<(), Memory>
        ensures { OnOk result (NotesSide number self.old self.new) }
    {
        self.places.push(Place::Side(number))?;
        Ok(())
    }

    /// The place of the clause of the step that a hint names, or row 0 where it names none.
    pub(crate) fn place_of(&self, hint: u32) -> Place
        ensures { result ≡ place_named self.now.places.items hint }
    {
        place_at(self.places.as_slice(), hint)
    }

    /// The row of a side clause, or 0 where it isn't written out.
    pub(crate) fn row_of_side(&self, number: u32) -> u32
        ensures { result ≡ row_of self.now.sides.items (Place.Side number) }
    {
        side_row(self.sides.as_slice(), number)
    }

    /// Gives a side clause a row.
    pub(crate) fn write_side(&mut self, number: usize, clause: &[AtomLit]) -> Result<(), Memory>
        requires from_one { 1 ≤ number }
        requires within { number ≤ length self.old.sides.items }
        ensures { OnOk result (WritesSide number clause.now self.old self.new) }
    {
        self.bench.push(clause)?;
        let row = last_row(&self.bench)?;
        self.sides[number - 1] = row;
        Ok(())
    }

    /// Adds a step with a clause if the check of its hints takes it, and answers whether it does. A hint that names a
    /// side clause which isn't written out names no row.
    pub(crate) fn derive(&mut self, clause: &[AtomLit], hints: &[u32]) -> Result<bool, Memory>
        ensures { IfOk result (AddsDerived clause.now hints.now self.old self.new) }
    {
        let places = self.places.as_slice();
        name_rows(&mut self.named, places, self.sides.as_slice(), hints)?;
        let derived = self.bench.derive(clause, self.named.as_slice())?;
        if !derived {
            return Ok(false);
        }
        self.note_row()?;
        Ok(true)
    }
}

/// The number of the last row of a bench.
fn last_row(bench: &Bench) -> Result<u32, Memory>
    ensures { IfOk result (λ row. row ≡ length bench.now) }
{
    let row = bench.len();
    if row > u32::MAX as usize {
        return Err(Memory);
    }
    Ok(row as u32)
}

/// The rows of the steps that hints name.
fn name_rows(
    named: &mut Vec<StepId>,
    places: &[Place],
    sides: &[u32],
    hints: &[u32],
) -> Result<(), Memory>
    ensures { OnOk result (named.new.items ≡ map (row_named places.now sides.now) hints.now) }
{
    named.clear();
    for hint in hints {
        named.push(StepId::new(row_at(places, sides, *hint)))?;
    }
    Ok(())
}

/// The row of the step that a hint names, or 0 where it names none.
fn row_at(places: &[Place], sides: &[u32], hint: u32) -> u32
    ensures { result ≡ row_named places.now sides.now hint }
{
    match place_at(places, hint) {
        Place::Row(row) => row,
        Place::Side(number) => side_row(sides, number),
    }
}

/// The place of the clause of the step that a hint names, or row 0 where it names none.
fn place_at(places: &[Place], hint: u32) -> Place
    ensures { result ≡ place_named places.now hint }
{
    if hint == 0 || hint as usize > places.len() {
        return Place::Row(0);
    }
    places[hint as usize - 1]
}

/// The row of a side clause, or 0 where it has none.
fn side_row(sides: &[u32], number: u32) -> u32
    ensures { result ≡ row_of sides.now (Place.Side number) }
{
    if number == 0 || number as usize > sides.len() {
        return 0;
    }
    sides[number as usize - 1]
}
