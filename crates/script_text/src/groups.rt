//! How lines open, fill and end the groups of edits of a script.

ghost use Rattle.std.specs.Prelude.{◌≡◌, ◌↔◌, ◌<◌, ◌≤◌, ◌+◌, ◌==◌, ◌++◌, ◌∷◌, [], ℕ, List, IfOk, OnOk};
ghost use Rattle.std.specs.Prelude.{IsTrue, false};
ghost use Rattle.std.specs.Prelude.{if◌then◌else◌, length};
ghost use Rattle.edit_rules.specs.declared.edit.Edit.{Edit as AnEdit};
ghost use Rattle.script_text.specs.declared.open_groups.Place.TheVariants.{Unbegun, Inside};
ghost use Rattle.script_text.specs.declared.script.ScriptCommand.TheVariants.{Edit as changes};
ghost use Rattle.script_text.specs.declared.text_line.LineCommand.TheVariants.{Ask as asks, Begin, Edit as change_by, End, Use as on};
ghost use Rattle.script_text.specs.Groups.{after_line, all_unbegun, told_at};
ghost use Rattle.script_text.specs.Sizes.{AreSmall, place_at};
ghost use Rattle.script_text.specs.Steps.{FitsIn, places_of, line_by};
ghost use Rattle.script_text.specs.Uses.{used_at};

use crate::open_groups::{OpenGroups, Place};
use crate::script::{Group, MAX_SESSIONS, Script, ScriptCommand, ScriptLine, ScriptUse};
use crate::text_line::{LineCommand, TextLine};
use edit_rules::Edit;
use iccma_tasks::Query;
use lists::{Items, Memory};
use std::alloc::Global;
use std::mem::replace;

// No line of any session so far.
fn none_begun(alloc: Global) -> Result<Vec<Place>, Memory>
    ensures long { IfOk result (λ places. length places.items ≡ MAX_SESSIONS + 1) }
    ensures none { IfOk result (λ places. (s : ℕ) → place_at places.items s ≡ Unbegun) }
{
    let mut places = Vec::new(alloc);
    'sessions: while places.len() <= MAX_SESSIONS as usize {
        places.push(Place::Unbegun)?;
    }
    Ok(places)
}

// Says where a session stands now, and gives where it stood.
fn replace_at(places: &mut Vec<Place>, at: usize, place: Place) -> Place
    requires { at < length places.old.items }
    ensures long { length places.new.items ≡ length places.old.items }
    ensures given { result ≡ place_at places.old.items at }
    ensures put { (s : ℕ) → place_at places.new.items s ≡ (if s == at then place else place_at places.old.items s) }
{
    replace(&mut places[at], place)
}

// Whether a session is inside a group.
fn is_inside(place: &Place) -> bool
    ensures { IsTrue result ↔ ((edits : List AnEdit) × (place.now ≡ Inside edits)) }
{
    match place {
        Place::Inside(_) => true,
        _ => false,
    }
}

// The edits and another one.
fn with_edit(mut edits: Items<Edit>, edit: Edit) -> Result<Items<Edit>, Memory>
    ensures { IfOk result (λ more. more ≡ edits ++ edit ∷ []) }
{
    edits.push(edit)?;
    Ok(edits)
}

// The command that makes one edit alone.
fn single(alloc: Global, edit: Edit) -> Result<ScriptCommand, Memory>
    ensures { IfOk result (λ command. command ≡ changes (edit ∷ []) false) }
{
    let edits = with_edit(Items::new(alloc), edit)?;
    Ok(ScriptCommand::Edit(Group::new(edits), false))
}

impl OpenGroups {
    /// No session has had a line.
    pub(crate) fn new(alloc: Global) -> Result<OpenGroups, Memory>
        ensures { IfOk result (λ groups. places_of groups ≡ all_unbegun) }
    {
        Ok(OpenGroups {
            places: none_begun(alloc)?,
        })
    }

    /// Where the session stands.
    pub(crate) fn place(&self, session: u32) -> &Place
        requires { session ≤ MAX_SESSIONS }
        ensures { result.now ≡ places_of self.now session }
    {
        let places = self.places.as_slice();
        &places[session as usize]
    }

    /// Whether any session has a group open.
    pub(crate) fn is_any_open(&self) -> bool
        ensures { IsTrue result ↔ ((s : ℕ) × (edits : List AnEdit) × (places_of self.now s ≡ Inside edits)) }
    {
        let places = self.places.as_slice();
        for place in places {
            if is_inside(place) {
                return true;
            }
        }
        false
    }

    /// Takes in a line that may stand here. The command that ends there, if one does, joins the others, and so does the use
    /// that it is.
    pub(crate) fn take(
        &mut self,
        alloc: Global,
        line: TextLine,
        script: &mut Script,
    ) -> Result<(), Memory>
        requires session { line.session ≤ MAX_SESSIONS }
        requires fits { FitsIn (places_of self.old) line }
        ensures after { OnOk result (places_of self.new ≡ after_line line (places_of self.old)) }
        ensures told { OnOk result
            (script.new.lines ≡ script.old.lines ++ told_at line (places_of self.old line.session)) }
        ensures used { OnOk result (script.new.uses ≡ script.old.uses ++ used_at line) }
    {
        let TextLine { session, command } = line;
        match command {
            LineCommand::Edit(edit) => self.take_edit(alloc, session, edit, &mut script.lines),
            LineCommand::Ask(query) => self.ask(session, query, &mut script.lines),
            LineCommand::Begin => {
                self.begin(alloc, session);
                Ok(())
            }
            LineCommand::End => self.end(session, &mut script.lines),
            LineCommand::Use(framework) => self.put_on(session, framework, &mut script.uses),
        }
    }

    // A query is a command of its own.
    fn ask(
        &mut self,
        session: u32,
        query: Query,
        script: &mut Items<ScriptLine>,
    ) -> Result<(), Memory>
        requires { session ≤ MAX_SESSIONS }
        ensures after { places_of self.new ≡ after_line (line_by session (asks query)) (places_of self.old) }
        ensures told { OnOk result (script.new
            ≡ script.old ++ told_at (line_by session (asks query)) (places_of self.old session)) }
    {
        replace_at(&mut self.places, session as usize, Place::Between);
        let command = ScriptCommand::Ask(query);
        script.push(ScriptLine { session, command })
    }

    // A session is put on a framework.
    fn put_on(
        &mut self,
        session: u32,
        framework: u32,
        uses: &mut Items<ScriptUse>,
    ) -> Result<(), Memory>
        requires { session ≤ MAX_SESSIONS }
        ensures after { places_of self.new ≡ after_line (line_by session (on framework)) (places_of self.old) }
        ensures used { OnOk result (uses.new ≡ uses.old ++ used_at (line_by session (on framework))) }
    {
        replace_at(&mut self.places, session as usize, Place::Between);
        uses.push(ScriptUse { session, framework })
    }

    // An edit joins its session's group, or is a command of its own.
    fn take_edit(
        &mut self,
        alloc: Global,
        session: u32,
        edit: Edit,
        script: &mut Items<ScriptLine>,
    ) -> Result<(), Memory>
        requires session { session ≤ MAX_SESSIONS }
        requires fits { FitsIn (places_of self.old) (line_by session (change_by edit)) }
        ensures after { OnOk result
            (places_of self.new ≡ after_line (line_by session (change_by edit)) (places_of self.old)) }
        ensures told { OnOk result (script.new
            ≡ script.old ++ told_at (line_by session (change_by edit)) (places_of self.old session)) }
    {
        match replace_at(&mut self.places, session as usize, Place::Between) {
            Place::Inside(edits) => {
                let more = with_edit(edits, edit)?;
                replace_at(&mut self.places, session as usize, Place::Inside(more));
                Ok(())
            }
            Place::Unbegun | Place::Between => {
                let command = single(alloc, edit)?;
                script.push(ScriptLine { session, command })
            }
        }
    }

    // A group begins.
    fn begin(&mut self, alloc: Global, session: u32)
        requires { session ≤ MAX_SESSIONS }
        ensures { places_of self.new ≡ after_line (line_by session Begin) (places_of self.old) }
    {
        replace_at(
            &mut self.places,
            session as usize,
            Place::Inside(Items::new(alloc)),
        );
    }

    // A group ends, and is a command.
    fn end(&mut self, session: u32, script: &mut Items<ScriptLine>) -> Result<(), Memory>
        requires session { session ≤ MAX_SESSIONS }
        requires fits { FitsIn (places_of self.old) (line_by session End) }
        ensures after { places_of self.new ≡ after_line (line_by session End) (places_of self.old) }
        ensures told { OnOk result (script.new
            ≡ script.old ++ told_at (line_by session End) (places_of self.old session)) }
    {
        match replace_at(&mut self.places, session as usize, Place::Between) {
            Place::Inside(edits) => {
                let command = ScriptCommand::Edit(Group::new(edits), true);
                script.push(ScriptLine { session, command })
            }
            Place::Unbegun | Place::Between => Ok(()),
        }
    }
}
