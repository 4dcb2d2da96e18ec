//! The variables of the Core that stand for those of a query.
ghost use Rattle.std.specs.Prelude.{◌≡◌, OnOk, IfOk};
ghost use Rattle.core_normal.specs.Standing.{no_value, vars_in, with_value};

use std::alloc::Global;
use std::collections::HashMap;
use xq_base::Want;

/// The variable of the Core for each visible variable of the query, which is the place of its `$`. The
/// number 0 stands for none.
#[derive(Drop)]
pub struct Vars {
    alloc: Global,
    known: HashMap<u32, u32>,
}

impl Vars {
    /// No variable is visible. It takes no memory.
    pub fn new(alloc: Global) -> Vars
        ensures { vars_in result ≡ no_value }
    {
        Vars {
            alloc,
            known: HashMap::new(alloc),
        }
    }

    /// The variable of the Core for one of the query. It takes no memory.
    pub fn get(&self, v: u32) -> u32
        ensures { result ≡ vars_in self.now v }
    {
        match self.known.get(&v) {
            Some(x) => *x,
            None => 0,
        }
    }

    /// Lets a variable of the Core stand for one of the query.
    ///
    /// Errors: `Want`, where memory is wanting.
    pub fn set(&mut self, v: u32, x: u32) -> Result<(), Want>
        ensures { OnOk result (vars_in self.new ≡ with_value v x (vars_in self.old)) }
    {
        self.known.insert(v, x)?;
        Ok(())
    }

    /// Lets a variable of the Core stand for one of the query. Gives what stood for it before, so that
    /// `set` can give it back.
    ///
    /// Errors: `Want`, where memory is wanting.
    pub fn enter(&mut self, v: u32, x: u32) -> Result<u32, Want>
        ensures bound { OnOk result (vars_in self.new ≡ with_value v x (vars_in self.old)) }
        ensures before { IfOk result (λ y. with_value v y (vars_in self.new) ≡ vars_in self.old) }
    {
        let before = self.get(v);
        self.set(v, x)?;
        Ok(before)
    }
}
