//! The binds of a sorted loop that are entered.
ghost use Rattle.std.specs.Prelude.{◌≡◌, ◌∷◌, [], OnOk, IfOk, IfErr, MatchOption};
ghost use Rattle.xq_types.specs.declared.fault.TypeFault.TheVariants.{NoMemory};
ghost use Rattle.xq_types.specs.Held.{typ_of};
ghost use Rattle.xq_types.specs.Entered.{around_one, before_one, around, before};
ghost use Rattle.xq_types.specs.Scopes.{types_in};

use crate::fault::TypeFault;
use crate::scope::Scope;
use crate::typ::{Known, dropped, for_each};
use core_meaning::VarId;
use std::alloc::Global;
use std::marker::Model;

/// A bind of a sorted loop, with the types that its variables had before it.
#[derive(Clone, Copy, Debug)]
pub enum Entered {
    For {
        var: VarId,
        pos: VarId,
        seq: Known,
        was: (Known, Known),
    },
    Let {
        var: VarId,
        was: Known,
    },
    Where,
}

/// Binds that are entered, the innermost one first.
#[derive(Drop)]
pub struct EnteredBinds {
    binds: Vec<Entered>,
}

impl Model for EnteredBinds {
    ghost use Rattle.std.specs.Prelude.{List, reverse};
    ghost use Rattle.xq_types.specs.declared.entered.Entered.{Entered};

    ghost Value = { List Entered };

    ghost view = { λ b. reverse b.binds.items };
}

impl EnteredBinds {
    /// No bind. It takes no memory.
    pub fn new(alloc: Global) -> EnteredBinds
        ensures { result ≡ [] }
    {
        EnteredBinds {
            binds: Vec::new(alloc),
        }
    }

    /// Adds an innermost bind.
    pub fn push(&mut self, bind: Entered) -> Result<(), TypeFault>
        ensures ok { OnOk result (self.new ≡ bind ∷ self.old) }
        ensures fault { IfErr result (λ e. e ≡ NoMemory) }
    {
        self.binds.push(bind)?;
        Ok(())
    }

    /// Takes the innermost bind away.
    pub fn pop(&mut self) -> Option<Entered>
        ensures { MatchOption result ((self.old ≡ []) × (self.new ≡ [])) (λ bind. self.old ≡ bind ∷ self.new) }
    {
        self.binds.pop()
    }
}

/// Gives the variables of a bind the types that they had before it, and says what the bind makes of the type of what follows it.
fn leave_bind(bind: Entered, t: Known, scope: &mut Scope) -> Result<Known, TypeFault>
    ensures value { IfOk result (λ u. typ_of u ≡ around_one bind (typ_of t)) }
    ensures types { OnOk result (types_in scope.new ≡ before_one bind (types_in scope.old)) }
    ensures fault { IfErr result (λ e. e ≡ NoMemory) }
{
    match bind {
        Entered::For { var, pos, seq, was } => {
            scope.leave_loop(var, pos, was)?;
            Ok(for_each(seq, t))
        }
        Entered::Let { var, was } => {
            scope.set(var, was)?;
            Ok(t)
        }
        Entered::Where => Ok(dropped(t)),
    }
}

/// Leaves all binds of a sorted loop, from the innermost one on.
pub fn leave_binds(mut binds: EnteredBinds, t: Known, scope: &mut Scope) -> Result<Known, TypeFault>
    ensures value { IfOk result (λ u. typ_of u ≡ around binds (typ_of t)) }
    ensures types { OnOk result (types_in scope.new ≡ before binds (types_in scope.old)) }
    ensures fault { IfErr result (λ e. e ≡ NoMemory) }
{
    let mut found = t;
    while let Some(bind) = binds.pop() {
        found = leave_bind(bind, found, scope)?;
    }
    Ok(found)
}
