//! The visible variables, by name.
ghost use Rattle.std.specs.Prelude.{◌≡◌, OnOk, IfOk, Some};
ghost use Rattle.core_scope.specs.Names.{is_there, no_names, with_name};
ghost use Rattle.core_scope.specs.Held.{names_in};

use std::alloc::Global;
use std::collections::HashMap;
use xq_base::Want;

/// A visible variable: the place of the `$` that binds it, and its number, if it is one of the prolog's.
#[derive(Clone, Copy, Debug, PartialEq, Eq)]
pub struct Visible {
    pub place: u64,
    pub number: Option<u64>,
}

/// The variable that each name stands for.
#[derive(Drop)]
pub struct Names<'a> {
    known: HashMap<&'a [u8], Visible>,
}

impl<'a> Names<'a> {
    /// No variable is visible. It takes no memory.
    pub fn new(alloc: Global) -> Names<'a>
        ensures { names_in result ≡ no_names }
    {
        Names {
            known: HashMap::new(alloc),
        }
    }

    /// The variable of a name, if there is one. It takes no memory.
    pub fn get(&self, name: &[u8]) -> Option<Visible>
        ensures { result ≡ names_in self.now name.now }
    {
        self.known.get(name).copied()
    }

    /// Whether a name stands for a variable. It takes no memory.
    pub fn has(&self, name: &[u8]) -> bool
        ensures { result ≡ is_there (names_in self.now name.now) }
    {
        match self.get(name) {
            Some(_) => true,
            None => false,
        }
    }

    /// Lets a name stand for a variable, or for none.
    ///
    /// Errors: `Want`, where memory is wanting.
    pub fn set(&mut self, name: &'a [u8], v: Option<Visible>) -> Result<(), Want>
        ensures { OnOk result (names_in self.new ≡ with_name name.now v (names_in self.old)) }
    {
        match v {
            None => {
                self.known.remove(name);
            }
            Some(v) => {
                self.known.insert(name, v)?;
            }
        }
        Ok(())
    }

    /// Lets a name stand for a variable. Gives what it stood for before, so that `set` can give it back.
    ///
    /// Errors: `Want`, where memory is wanting.
    pub fn enter(&mut self, name: &'a [u8], v: Visible) -> Result<Option<Visible>, Want>
        ensures names { OnOk result (names_in self.new ≡ with_name name.now (Some v) (names_in self.old)) }
        ensures before { IfOk result (λ u. with_name name.now u (names_in self.new) ≡ names_in self.old) }
    {
        let before = self.get(name);
        self.set(name, Some(v))?;
        Ok(before)
    }
}
