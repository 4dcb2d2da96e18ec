//! The bodies of declared functions (XQuery 1.0, section 4.15), each made behind no new variable.
ghost use Rattle.std.specs.Prelude.{◌≡◌, ◌+◌, ◌*◌, ℕ, Some, None, IfOk, OnOk, IsTrue, false, map, true, slice_get, slice_set};
ghost use Rattle.core_meaning.specs.Erasure.{Texts};
ghost use Rattle.core_scope.specs.Leaves.{syn_resolved};
ghost use Rattle.core_normal.specs.Making.{types_in};
ghost use Rattle.core_normal.specs.Order as order_spec;
ghost use Rattle.core_normal.specs.Ordered.{AllHeld};
ghost use Rattle.core_normal.specs.Standing.{no_value, vars_in};
ghost use Rattle.core_normal.specs.Templating.{AreBodies, HasCalls, IsBodied, IsTemplate, IsTemplateOf, global_values, held_in, var_count};
ghost use Rattle.core_normal.specs.Trees as trees;

use crate::bodies::{Bodies, State, Template, Tree};
use crate::calls::calls_of;
use crate::leaves::maybe_type;
use crate::maker::{Maker, Nested};
use crate::order::{Declaration, declared};
use core_meaning;
use core_meaning::Core;
use std::alloc::Global;
use xq_ast::leaf::SeqType;
use xq_ast::query::Param;
use xq_base::Want;

/// How what nests is made, over which declarations, and where the functions stand among them.
#[derive(Clone, Copy)]
pub struct Making<'q, N> {
    pub alloc: Global,
    pub levels: u32,
    pub nested: N,
    pub declarations: &'q [Declaration],
    pub places: &'q [usize],
}

/// The types of parameters, where they are written.
fn types(
    alloc: Global,
    params: &[Param<u32, SeqType>],
) -> Result<Vec<Option<core_meaning::SeqType>>, Want>
    ensures { IfOk result (λ v. (t : Texts) → types_in t v.items ≡ map (λ q. trees.type_of t q.ty) params.now) }
{
    let mut types = Vec::new(alloc);
    for param in params {
        types.push(maybe_type(param.ty))?;
    }
    Ok(types)
}

impl<'q, N: Nested> Maker<'q, N> {
    /// A function's body behind its parameters, whose variables come behind those of `vars`. Each parameter
    /// is a level of the Core of a call.
    fn body(
        &self,
        params: &[Param<u32, SeqType>],
        e: &Tree,
        vars: &mut Vec<u32>,
        state: &mut State,
    ) -> Result<Core, Want>
        requires { N.norms self.now.nested self.now.levels }
        ensures { IfOk result (λ core. IsBodied self.now.bodies.now state.old params.now (λ t. syn_resolved t e.now) vars.old.items vars.new.items core state.new) }
    {
        match params.split_first() {
            None => {
                let core = self.expr(e, state, None)?;
                Ok(core)
            }
            Some((param, rest)) => {
                let x = self.next_var(state)?;
                vars.push(x)?;
                let before = state.vars.enter(param.var.name, x)?;
                let core = self.body(rest, e, vars, state)?;
                state.vars.set(param.var.name, before)?;
                Ok(core)
            }
        }
    }

    /// The body of a declared function.
    fn template(
        &self,
        params: &[Param<u32, SeqType>],
        ty: Option<SeqType>,
        e: &Tree,
        state: &mut State,
    ) -> Result<Template, Want>
        requires { N.norms self.now.nested self.now.levels }
        ensures made { IfOk result (λ b. IsTemplate self.now.bodies.now (vars_in state.old.vars) params.now ty e.now b) }
        ensures same { OnOk result (vars_in state.new.vars ≡ vars_in state.old.vars) }
    {
        state.next = 0;
        let mut vars = Vec::new(self.alloc);
        let body = self.body(params, e, &mut vars, state)?;
        let types = types(self.alloc, params)?;
        Ok(Template {
            vars,
            types,
            body,
            result: maybe_type(ty),
            made: state.next,
        })
    }
}

/// Whether the body of this number is made.
fn is_made(bodies: &Bodies, k: u32) -> bool
    ensures { result ≡ held_in bodies.now k }
{
    match bodies.templates.get(k as usize) {
        None => false,
        Some(template) => template.is_some(),
    }
}

/// Whether these bodies are all made.
pub fn all_made(bodies: &Bodies, ks: &[u32]) -> bool
    ensures { IsTrue result → AllHeld (held_in bodies.now) ks.now }
{
    for k in ks {
        if !is_made(bodies, *k) {
            return false;
        }
    }
    true
}

/// Nothing, where all functions that an expression calls are made.
fn has_calls(alloc: Global, bodies: &Bodies, e: &Tree) -> Result<(), Want>
    ensures { OnOk result (HasCalls bodies.now e.now) }
{
    let found = calls_of(alloc, e)?;
    if all_made(bodies, found.as_slice()) {
        Ok(())
    } else {
        Err(Want)
    }
}

/// The body of the function of a declaration, where the functions that it calls are made.
///
/// Errors: `Want`, where memory is wanting, the number of a variable passes 32 bits, or a function that it
/// calls isn't made.
fn template_of<N: Nested>(
    maker: &Maker<'_, N>,
    declaration: &Declaration,
    state: &mut State,
) -> Result<Template, Want>
    requires { N.norms maker.now.nested maker.now.levels }
    ensures made { IfOk result (λ b. IsTemplateOf maker.now.bodies.now (vars_in state.old.vars) declaration.now b) }
    ensures same { OnOk result (vars_in state.new.vars ≡ vars_in state.old.vars) }
{
    match declaration {
        Declaration::Var(_, _, _, _) => Err(Want),
        Declaration::Fun(_, _, params, ty, body) => {
            let (first, e) = (params.as_slice(), body.get());
            has_calls(maker.alloc, maker.bodies, e)?;
            let template = maker.template(first, *ty, e, state)?;
            Ok(template)
        }
    }
}

/// Whether the body of this number isn't made yet, among those that are to be made.
fn is_new(bodies: &Bodies, k: u32) -> bool
    ensures { result ≡ true → slice_get bodies.now.templates.items k ≡ Some None }
{
    match bodies.templates.get(k as usize) {
        None => false,
        Some(template) => template.is_none(),
    }
}

/// Keeps the body of this number.
fn put(bodies: &mut Bodies, k: u32, template: Template) -> Result<(), Want>
    ensures base { bodies.new.base ≡ bodies.old.base }
    ensures put { OnOk result (bodies.new.templates.items ≡ slice_set bodies.old.templates.items k (Some template)) }
{
    let at = k as usize;
    if at >= bodies.templates.len() {
        return Err(Want);
    }
    bodies.templates[at] = Some(template);
    Ok(())
}

/// Makes the body of the function of this number, which isn't made yet.
fn add_new<N: Nested>(
    making: &Making<'_, N>,
    k: u32,
    bodies: &mut Bodies,
    state: &mut State,
) -> Result<(), Want>
    requires norms { N.norms making.now.nested making.now.levels }
    requires places { making.now.places.now ≡ order_spec.places 0 making.now.declarations.now }
    requires new { slice_get bodies.old.templates.items k ≡ Some None }
    ensures made { OnOk result (AreBodies making.now.declarations.now bodies.old → vars_in state.old.vars ≡ global_values making.now.declarations.now 0 no_value → AreBodies making.now.declarations.now bodies.new) }
    ensures same { OnOk result (vars_in state.new.vars ≡ vars_in state.old.vars) }
{
    match declared(making.declarations, making.places, k as usize) {
        None => Err(Want),
        Some(declaration) => {
            let maker = Maker {
                alloc: making.alloc,
                bodies,
                levels: making.levels,
                nested: making.nested,
            };
            let template = template_of(&maker, declaration, state)?;
            put(bodies, k, template)?;
            Ok(())
        }
    }
}

/// Makes the body of the function of this number, if it isn't made yet.
fn add<N: Nested>(
    making: &Making<'_, N>,
    k: u32,
    bodies: &mut Bodies,
    state: &mut State,
) -> Result<(), Want>
    requires norms { N.norms making.now.nested making.now.levels }
    requires places { making.now.places.now ≡ order_spec.places 0 making.now.declarations.now }
    ensures made { OnOk result (AreBodies making.now.declarations.now bodies.old → vars_in state.old.vars ≡ global_values making.now.declarations.now 0 no_value → AreBodies making.now.declarations.now bodies.new) }
    ensures same { OnOk result (vars_in state.new.vars ≡ vars_in state.old.vars) }
{
    if is_new(bodies, k) {
        return add_new(making, k, bodies, state);
    }
    Ok(())
}

/// No body is made yet.
fn none_made(alloc: Global, base: u32, count: usize) -> Result<Bodies, Want>
    ensures base { IfOk result (λ p. p.base ≡ base) }
    ensures none { IfOk result (λ p. (k : ℕ) → held_in p k ≡ false) }
{
    let mut templates = Vec::new(alloc);
    for _k in 0..count {
        templates.push(None)?;
    }
    Ok(Bodies { base, templates })
}

/// The bodies of the functions of an order, in which each stands behind those that it calls. The variables
/// of the prolog are visible.
///
/// Errors: `Want`, where memory is wanting, the number of a variable passes 32 bits, or a function stands
/// before one that it calls.
pub fn templates<N: Nested>(
    making: &Making<'_, N>,
    base: u32,
    order: &[u32],
    state: &mut State,
) -> Result<Bodies, Want>
    requires norms { N.norms making.now.nested making.now.levels }
    requires places { making.now.places.now ≡ order_spec.places 0 making.now.declarations.now }
    requires base { base ≡ 2 * var_count making.now.declarations.now + 1 }
    requires globals { vars_in state.old.vars ≡ global_values making.now.declarations.now 0 no_value }
    ensures made { IfOk result (λ p. AreBodies making.now.declarations.now p) }
    ensures same { OnOk result (vars_in state.new.vars ≡ vars_in state.old.vars) }
{
    let mut bodies = none_made(making.alloc, base, making.places.len())?;
    for k in order {
        add(making, *k, &mut bodies, state)?;
    }
    Ok(bodies)
}
