//! The visible variables while an expression is walked.
ghost use Rattle.std.specs.Prelude.{◌≡◌, OnOk, length};
ghost use Rattle.core_scope.specs.Names.{is_there};
ghost use Rattle.core_scope.specs.Open as spec;
ghost use Rattle.core_scope.specs.Open.{entered, left_to, none_open, open_in};

use crate::names::{Names, Visible};
use sqlite_items::Items;
use std::alloc::Global;
use xq_ast::leaf::{Name, Variable};
use xq_base::Want;

/// A name that was bound, and what it stood for before.
#[derive(Clone, Copy)]
pub struct Entry<'a> {
    pub name: &'a [u8],
    pub before: Option<Visible>,
}

/// The visible variables, which are bound and left like a stack.
#[derive(Drop)]
pub struct Bindings<'a> {
    alloc: Global,
    names: Names<'a>,
    entered: Vec<Entry<'a>>,
}

impl<'a> Bindings<'a> {
    /// No variable is visible. It takes no memory.
    pub fn new(alloc: Global) -> Bindings<'a>
        ensures { open_in result ≡ none_open }
    {
        Bindings {
            alloc,
            names: Names::new(alloc),
            entered: Vec::new(alloc),
        }
    }

    pub fn alloc(&self) -> Global {
        self.alloc
    }

    /// The variable of a name, if there is one. It takes no memory.
    pub fn get(&self, name: &[u8]) -> Option<Visible>
        ensures { result ≡ (open_in self.now).scope name.now }
    {
        self.names.get(name)
    }

    /// Whether a name stands for a variable. It takes no memory.
    pub fn has(&self, name: &[u8]) -> bool
        ensures { result ≡ is_there ((open_in self.now).scope name.now) }
    {
        self.names.has(name)
    }

    /// How many bindings are entered. It takes no memory.
    pub fn depth(&self) -> usize
        ensures { result ≡ length ((open_in self.now).outer) }
    {
        self.entered.len()
    }

    /// Binds a variable.
    ///
    /// Errors: `Want`, where memory is wanting.
    pub fn enter(&mut self, name: &'a [u8], v: Visible) -> Result<(), Want>
        ensures { OnOk result (open_in self.new ≡ entered name.now v (open_in self.old)) }
    {
        let before = self.names.get(name);
        self.names.set(name, Some(v))?;
        self.entered.push(Entry { name, before })?;
        Ok(())
    }

    /// Binds a variable as it is read.
    ///
    /// Errors: `Want`, where memory is wanting.
    pub fn enter_variable(&mut self, variable: &'a Variable<Name<Items<u8>>>) -> Result<(), Want>
        ensures { OnOk result (open_in self.new ≡ spec.entered_variable variable.now (open_in self.old)) }
    {
        self.enter(
            variable.name.text.as_slice(),
            Visible {
                place: variable.offset,
                number: None,
            },
        )
    }

    /// Binds a variable, if it is there.
    ///
    /// Errors: `Want`, where memory is wanting.
    pub fn enter_maybe(
        &mut self,
        variable: &'a Option<Variable<Name<Items<u8>>>>,
    ) -> Result<(), Want>
        ensures { OnOk result (open_in self.new ≡ spec.entered_maybe variable.now (open_in self.old)) }
    {
        match variable {
            None => Ok(()),
            Some(v) => self.enter_variable(v),
        }
    }

    /// Leaves the latest binding.
    fn leave(&mut self) -> Result<(), Want>
        ensures { OnOk result (open_in self.new ≡ spec.left_one (open_in self.old)) }
    {
        match self.entered.pop() {
            None => Ok(()),
            Some(e) => self.names.set(e.name, e.before),
        }
    }

    /// Leaves the latest bindings, until no more than so many are there.
    ///
    /// Errors: `Want`, where memory is wanting.
    #[tactic(auto, using(crate::proofs::Opening::left_step, crate::proofs::Opening::left_done, crate::proofs::Opening::left_shorter))]
    pub fn leave_to(&mut self, mark: usize) -> Result<(), Want>
        ensures { OnOk result (open_in self.new ≡ left_to mark (open_in self.old)) }
    {
        while self.entered.len() > mark {
            self.leave()?;
        }
        Ok(())
    }
}
