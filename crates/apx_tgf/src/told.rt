//! What the lines of a text tell.

ghost use Rattle.std.specs.Prelude.{◌≡◌, OnOk, length};
ghost use Rattle.apx_tgf.specs.Told.{nothing_told, told_after};
ghost use Rattle.apx_tgf.specs.Told.Statement.{declares, tells};
ghost use Rattle.apx_tgf.specs.Views.{told_attack};

use crate::names::Names;
use lists::{Items, Memory};
use std::alloc::Global;
use std::marker::Model;

/// An attack as a text tells it.
#[derive(Clone, Copy)]
pub struct NamedAttack<'a> {
    /// The number of the line that tells it.
    pub line: usize,
    /// The attacker's name.
    pub attacker: &'a [u8],
    /// The target's name.
    pub target: &'a [u8],
}

/// The names that are declared, each once, and the attacks that are told, each as often as it is told.
#[derive(Drop)]
pub(crate) struct ToldSoFar<'a> {
    pub names: Names<'a>,
    pub attacks: Items<NamedAttack<'a>>,
}

impl<'a> Model for ToldSoFar<'a> {
    ghost use Rattle.std.specs.Prelude.{map};
    ghost use Rattle.apx_tgf.specs.Told.{Told};
    ghost use Rattle.apx_tgf.specs.Views.{told_attack};

    ghost Value = { Told };

    ghost view = { λ t. record { names = t.names; attacks = map told_attack t.attacks } };
}

impl<'a> ToldSoFar<'a> {
    /// Nothing, which takes no memory.
    pub fn new(alloc: Global) -> ToldSoFar<'a>
        ensures { result ≡ nothing_told }
    {
        ToldSoFar {
            names: Names::new(alloc),
            attacks: Items::new(alloc),
        }
    }

    /// Takes the declaration of a name.
    pub fn declare(&mut self, name: &'a [u8]) -> Result<(), Memory>
        ensures { OnOk result (self.new ≡ told_after self.old (declares name.now)) }
    {
        self.names.declare(name)
    }

    /// Takes an attack.
    pub fn tell(&mut self, attack: NamedAttack<'a>) -> Result<(), Memory>
        ensures { OnOk result (self.new ≡ told_after self.old (tells (told_attack attack.entry))) }
    {
        self.attacks.push(attack)
    }

    /// How many names are declared.
    pub fn name_count(&self) -> usize
        ensures { result ≡ length self.now.names }
    {
        self.names.len()
    }

    /// How many attacks are told.
    pub fn attack_count(&self) -> usize
        ensures { result ≡ length self.now.attacks }
    {
        self.attacks.len()
    }
}
