//! The names of the elements that are open, the innermost first.
ghost use Rattle.std.specs.Prelude.{◌≡◌, ◌∷◌, [], List, length, OnOk, MatchOption, IsTrue, ◌↔◌, IfErr};
ghost use Rattle.doc_shred.specs.declared.fault.Fault.TheVariants.{Memory};

use crate::fault::Fault;
use std::alloc::Global;
use std::marker::Model;

/// Names, seen as the list of their texts, the innermost first.
#[derive(Drop)]
pub struct OpenNames<'a> {
    names: Vec<&'a str>,
}

impl<'a> Model for OpenNames<'a> {
    ghost use Rattle.std.specs.Prelude.{List, ℕ, map, reverse};

    ghost Value = { List (List ℕ) };

    ghost view = { λ a. reverse (map (λ s. s.now) a.names.items) };
}

impl<'a> OpenNames<'a> {
    /// No names.
    pub fn new(alloc: Global) -> Self
        ensures { result ≡ [] }
    {
        OpenNames {
            names: Vec::new(alloc),
        }
    }

    /// Whether there are no names.
    pub fn is_empty(&self) -> bool
        ensures { IsTrue result ↔ (self.now ≡ []) }
    {
        self.names.is_empty()
    }

    /// Adds an innermost name.
    pub fn push(&mut self, name: &'a str) -> Result<(), Fault>
        ensures ok { OnOk result (self.new ≡ name.now ∷ self.old) }
        ensures err { IfErr result (λ e. e ≡ Memory) }
    {
        self.names.push(name)?;
        Ok(())
    }

    /// Takes the innermost name, where there is one.
    pub fn pop(&mut self) -> Option<&'a str>
        ensures { MatchOption result ((self.old ≡ []) × (self.new ≡ [])) (λ name. self.old ≡ name.now ∷ self.new) }
    {
        self.names.pop()
    }
}
