//! The commands that change a framework, by their names.

ghost use Rattle.std.specs.Prelude.{◌≡◌, ◌↔◌, IfSome, IfNone, IsTrue, Some};
ghost use Rattle.script_text.specs.Changes.{change_name, Takes};

/// A command that changes a framework.
#[derive(Clone, Copy, PartialEq, Eq)]
pub enum EditWord {
    /// `arg N`: an argument comes.
    Arg,
    /// `noarg N`: an argument goes.
    NoArg,
    /// `att B A`: an attack comes.
    Att,
    /// `noatt B A`: an attack goes.
    NoAtt,
    /// `asm A C`: an assumption comes, with one contrary or none.
    Asm,
    /// `noasm A`: an assumption goes.
    NoAsm,
    /// `con A C`: an assumption gets one contrary alone, or none.
    Con,
    /// `addcon A C`: a contrary comes.
    AddCon,
    /// `delcon A C`: a contrary goes.
    DelCon,
    /// `rule H B1 .. Bk`: a rule comes.
    Rule,
    /// `norule R`: a rule goes.
    NoRule,
}

impl EditWord {
    /// The command of that name, where there is one.
    pub fn read(name: &[u8]) -> Option<EditWord>
        ensures named { IfSome result (λ change. change_name change ≡ name.now) }
        ensures read { (change : EditWord) → change_name change ≡ name.now → result ≡ Some change }
        ensures none { IfNone result ((change : EditWord) → ¬ (change_name change ≡ name.now)) }
    {
        match name {
            b"arg" => Some(EditWord::Arg),
            b"noarg" => Some(EditWord::NoArg),
            b"att" => Some(EditWord::Att),
            b"noatt" => Some(EditWord::NoAtt),
            b"asm" => Some(EditWord::Asm),
            b"noasm" => Some(EditWord::NoAsm),
            b"con" => Some(EditWord::Con),
            b"addcon" => Some(EditWord::AddCon),
            b"delcon" => Some(EditWord::DelCon),
            b"rule" => Some(EditWord::Rule),
            b"norule" => Some(EditWord::NoRule),
            _ => None,
        }
    }

    /// The command's name.
    pub fn name(self) -> &'static str
        ensures { result.now ≡ change_name self }
    {
        match self {
            EditWord::Arg => "arg",
            EditWord::NoArg => "noarg",
            EditWord::Att => "att",
            EditWord::NoAtt => "noatt",
            EditWord::Asm => "asm",
            EditWord::NoAsm => "noasm",
            EditWord::Con => "con",
            EditWord::AddCon => "addcon",
            EditWord::DelCon => "delcon",
            EditWord::Rule => "rule",
            EditWord::NoRule => "norule",
        }
    }

    /// Whether so many numbers may follow the command's name.
    pub fn takes(self, count: usize) -> bool
        ensures { IsTrue result ↔ Takes self count }
    {
        match self {
            EditWord::Arg | EditWord::NoArg | EditWord::NoAsm | EditWord::NoRule => count == 1,
            EditWord::Att
            | EditWord::NoAtt
            | EditWord::Asm
            | EditWord::Con
            | EditWord::AddCon
            | EditWord::DelCon => count == 2,
            EditWord::Rule => count >= 1,
        }
    }
}
