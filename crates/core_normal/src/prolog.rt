//! The variables of the prolog (XQuery 1.0, section 4.14) round the main expression.
ghost use Rattle.std.specs.Prelude.{◌≡◌, ◌+◌, ◌*◌, ◌∷◌, IfOk, None, OnOk};
ghost use Rattle.core_meaning.specs.Erasure.{Texts, core_of};
ghost use Rattle.core_normal.specs.Making.{Makes_};
ghost use Rattle.core_normal.specs.Measuring.{Declarations};
ghost use Rattle.core_normal.specs.Prologue.{IsPassed, normed_prolog, with_global, with_globals};
ghost use Rattle.core_normal.specs.Standing.{no_value, vars_in};
ghost use Rattle.core_normal.specs.Templating as spec;
ghost use Rattle.core_normal.specs.Templating.{global_values, var_count};

use crate::bodies::{State, Tree};
use crate::calling::plus;
use crate::leaves::maybe_type;
use crate::make::let_be;
use crate::maker::{Maker, Nested};
use crate::order::Declaration;
use crate::pieces::tested;
use crate::places::place;
use crate::vars::Vars;
use core_meaning;
use core_meaning::Core;
use std::alloc::Global;
use xq_ast::leaf::SeqType;
use xq_base::Want;

/// A variable of the prolog whose value is made: its place, the value, its type with the place of its test.
#[derive(Drop)]
pub struct GlobalValue {
    pub offset: u64,
    pub value: Core,
    pub ty: Option<core_meaning::SeqType>,
    pub place: u64,
}

/// The variable for the value of the variable of this number, and the one for its tested value.
pub fn two_vars(j: u32) -> Result<(u32, u32), Want>
    ensures { IfOk result (λ r. (r.0 ≡ 2 * j + 1) × (r.1 ≡ 2 * j + 2)) }
{
    let twice = plus(j, j)?;
    let next = plus(j, 1)?;
    let first = plus(twice, 1)?;
    let second = plus(next, next)?;
    Ok((first, second))
}

/// The variable of the Core for the variable of this number.
fn global_var(ty: Option<SeqType>, j: u32) -> Result<u32, Want>
    ensures { IfOk result (λ x. x ≡ spec.global_var ty j) }
{
    let vars = two_vars(j)?;
    match ty {
        None => Ok(vars.0),
        Some(_) => Ok(vars.1),
    }
}

/// Lets the variable of a declaration, if it declares one, have this number. Gives the next number.
fn enter(declaration: &Declaration, vars: &mut Vars, j: u32) -> Result<u32, Want>
    ensures vars { IfOk result (λ k. (ds : Declarations) → global_values (declaration.now ∷ ds) j (vars_in vars.old) ≡ global_values ds k (vars_in vars.new)) }
    ensures count { IfOk result (λ k. (ds : Declarations) → j + var_count (declaration.now ∷ ds) ≡ k + var_count ds) }
{
    match declaration {
        Declaration::Fun(_, _, _, _, _) => Ok(j),
        Declaration::Var(_, var, ty, _) => {
            let x = global_var(*ty, j)?;
            vars.set(var.name, x)?;
            let next = plus(j, 1)?;
            Ok(next)
        }
    }
}

/// What stands for the variables of the prolog, and how many there are.
pub fn globals(alloc: Global, declarations: &[Declaration]) -> Result<(Vars, u32), Want>
    ensures vars { IfOk result (λ r. vars_in r.0 ≡ global_values declarations.now 0 no_value) }
    ensures count { IfOk result (λ r. r.1 ≡ var_count declarations.now) }
{
    let mut vars = Vars::new(alloc);
    let mut j: u32 = 0;
    for declaration in declarations {
        j = enter(declaration, &mut vars, j)?;
    }
    Ok((vars, j))
}

/// A number of 32 bits.
fn small(n: usize) -> Result<u32, Want>
    ensures { IfOk result (λ x. x ≡ n) }
{
    match u32::try_from(n) {
        Err(_) => Err(Want),
        Ok(x) => Ok(x),
    }
}

/// A variable of the prolog round what follows it, which has this number.
fn with_global(alloc: Global, n: usize, global: GlobalValue, e: Core) -> Result<Core, Want>
    ensures { IfOk result (λ core. (t : Texts) → core_of t core ≡ with_global t n global (core_of t e)) }
{
    let j = small(n)?;
    let vars = two_vars(j)?;
    let inner = tested(alloc, global.place, global.ty, vars.0, vars.1, e)?;
    let core = let_be(alloc, global.offset, vars.0, global.value, inner)?;
    Ok(core)
}

/// The variables of the prolog round the main expression.
fn with_globals(alloc: Global, globals: Vec<GlobalValue>, e: Core) -> Result<Core, Want>
    ensures { IfOk result (λ core. (t : Texts) → core_of t core ≡ with_globals t 0 globals.items (core_of t e)) }
{
    let mut left = globals;
    let mut core = e;
    while let Some(global) = left.pop() {
        let n = left.len();
        core = with_global(alloc, n, global, core)?;
    }
    Ok(core)
}

impl<'q, N: Nested> Maker<'q, N> {
    /// The value of a declaration behind those of `values`, if it declares a variable.
    fn pass(
        &self,
        declaration: &Declaration,
        values: &mut Vec<GlobalValue>,
        state: &mut State,
    ) -> Result<(), Want>
        requires { N.norms self.now.nested self.now.levels }
        ensures { OnOk result (IsPassed self.now.bodies.now state.old declaration.now values.old.items values.new.items state.new) }
    {
        match declaration {
            Declaration::Fun(_, _, _, _, _) => Ok(()),
            Declaration::Var(_, var, ty, e) => {
                let tree = e.get();
                let value = self.expr(tree, state, None)?;
                values.push(GlobalValue {
                    offset: var.offset,
                    value,
                    ty: maybe_type(*ty),
                    place: place(tree),
                })?;
                Ok(())
            }
        }
    }

    /// The variables of the prolog round the main expression.
    ///
    /// Errors: `Want`, where memory is wanting, the number of a variable passes 32 bits, expressions nest
    /// deeper than the levels, or a function that is called isn't made.
    pub fn prolog(
        &self,
        declarations: &[Declaration],
        main: &Tree,
        state: &mut State,
    ) -> Result<Core, Want>
        requires { N.norms self.now.nested self.now.levels }
        ensures { Makes_ core_of self.now.bodies.now state.old None (normed_prolog self.now.bodies.now declarations.now main.now) result state.new }
    {
        let mut values = Vec::new(self.alloc);
        for declaration in declarations {
            self.pass(declaration, &mut values, state)?;
        }
        let core = self.expr(main, state, None)?;
        let whole = with_globals(self.alloc, values, core)?;
        Ok(whole)
    }
}
