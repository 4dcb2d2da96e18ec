ghost use Rattle.std.specs.Prelude.{◌≡◌, OnOk, IfOk, IfErr};
ghost use Rattle.xq_types.specs.declared.fault.TypeFault.TheVariants.{NoMemory};
ghost use Rattle.xq_types.specs.Held.{typ_of};
ghost use Rattle.xq_types.specs.Typing.{no_types, with_type, loop_types};
ghost use Rattle.xq_types.specs.Scopes.{types_in};

use crate::fault::TypeFault;
use crate::typ::{Known, nothing, once, one_item};
use core_meaning::VarId;
use std::alloc::Global;
use std::collections::HashMap;
use xq_base::{AtomKind, ItemKind};

/// The type of each variable that is bound.
#[derive(Drop)]
pub struct Scope {
    alloc: Global,
    types: HashMap<u32, Known>,
}

impl Scope {
    /// The scope of no variable. It takes no memory.
    pub fn new(alloc: Global) -> Scope
        ensures { types_in result ≡ no_types }
    {
        Scope {
            alloc,
            types: HashMap::new(alloc),
        }
    }

    pub fn alloc(&self) -> Global {
        self.alloc
    }

    /// The type of a variable.
    pub fn get(&self, var: VarId) -> Known
        ensures { typ_of result ≡ types_in self.now var.0 }
    {
        match self.types.get(&var.0) {
            Some(t) => *t,
            None => nothing(),
        }
    }

    /// Gives a variable a type.
    pub fn set(&mut self, var: VarId, t: Known) -> Result<(), TypeFault>
        ensures ok { OnOk result (types_in self.new ≡ with_type (types_in self.old) var.0 (typ_of t)) }
        ensures fault { IfErr result (λ e. e ≡ NoMemory) }
    {
        self.types.insert(var.0, t)?;
        Ok(())
    }

    /// Binds the variables of a loop over items of this type. Gives the types that they had before.
    pub fn enter_loop(
        &mut self,
        var: VarId,
        pos: VarId,
        seq: Known,
    ) -> Result<(Known, Known), TypeFault>
        ensures types { OnOk result (types_in self.new ≡ loop_types var.0 pos.0 (typ_of seq) (types_in self.old)) }
        ensures before { IfOk result (λ p. with_type (with_type (types_in self.new) pos.0 (typ_of p.1)) var.0 (typ_of p.0) ≡ types_in self.old) }
        ensures fault { IfErr result (λ e. e ≡ NoMemory) }
    {
        let before = self.get(var);
        self.set(var, one_item(seq))?;
        let place = self.get(pos);
        self.set(pos, once(ItemKind::Atom(AtomKind::Integer)))?;
        Ok((before, place))
    }

    /// Gives the variables of a loop the types that they had before it.
    pub fn leave_loop(
        &mut self,
        var: VarId,
        pos: VarId,
        before: (Known, Known),
    ) -> Result<(), TypeFault>
        ensures types { OnOk result (types_in self.new ≡ with_type (with_type (types_in self.old) pos.0 (typ_of before.1)) var.0 (typ_of before.0)) }
        ensures fault { IfErr result (λ e. e ≡ NoMemory) }
    {
        self.set(pos, before.1)?;
        self.set(var, before.0)
    }

    /// Binds a variable to a value of this type. Gives the type that it had before.
    pub fn enter(&mut self, var: VarId, t: Known) -> Result<Known, TypeFault>
        ensures types { OnOk result (types_in self.new ≡ with_type (types_in self.old) var.0 (typ_of t)) }
        ensures before { IfOk result (λ u. with_type (types_in self.new) var.0 (typ_of u) ≡ types_in self.old) }
        ensures fault { IfErr result (λ e. e ≡ NoMemory) }
    {
        let before = self.get(var);
        self.set(var, t)?;
        Ok(before)
    }
}
