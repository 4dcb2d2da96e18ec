//! The Core of calls (Formal Semantics, section 4.1.5).
ghost use Rattle.std.specs.Prelude.{◌≡◌, ◌+◌, IfOk, Some, slice_get};
ghost use Rattle.xq_base.specs.declared.fun.Fun.TheVariants as fun_;
ghost use Rattle.core_meaning.specs.Erasure.{Texts, core_of};
ghost use Rattle.core_meaning.specs.PlainCore as c;
ghost use Rattle.core_scope.specs.Syn as s;
ghost use Rattle.core_normal.specs.Calling.{IsInlined, normed_called, param_in};
ghost use Rattle.core_normal.specs.Held.{focus_of};
ghost use Rattle.core_normal.specs.Making.{Makes_, Norms, cores_in, template_of, types_in};
ghost use Rattle.core_normal.specs.Pieces as spec;
ghost use Rattle.core_normal.specs.Shift as shift;
ghost use Rattle.core_normal.specs.Trees as trees;

use crate::bodies::{Bodies, State, Template, Tree};
use crate::copies::{MAX_LEVELS, Moving, moved, variable};
use crate::make::{call_one, called, cast, fail, let_be};
use crate::maker::{Maker, Nested};
use crate::pieces::{Context, converted, dot, last, place};
use core_meaning::{Core, SeqType};
use sqlite_items::Items;
use std::alloc::Global;
use xq_ast::leaf::Callee;
use xq_base::{AtomKind, Code, Fun, Want};

/// A cast by a function of the type's name, where it has one argument.
fn cast_to(
    alloc: Global,
    offset: u64,
    kind: AtomKind,
    fun: Fun,
    args: Items<Core>,
) -> Result<Core, Want>
    ensures { IfOk result (λ core. (t : Texts) → core_of t core ≡ spec.cast_to offset kind fun (cores_in t args)) }
{
    let count = args.len();
    let mut rest = args;
    if count != 1 {
        return Ok(called(offset, fun, rest));
    }
    match rest.pop() {
        None => Ok(called(offset, fun, rest)),
        Some(only) => {
            let core = cast(alloc, offset, only, kind, true)?;
            Ok(core)
        }
    }
}

/// A function that takes `item` where it has no argument.
fn of_dot(alloc: Global, offset: u64, fun: Fun, args: Items<Core>, item: Core) -> Result<Core, Want>
    ensures { IfOk result (λ core. (t : Texts) → core_of t core ≡ spec.of_dot offset fun (cores_in t args) (core_of t item)) }
{
    if args.len() > 0 {
        return Ok(called(offset, fun, args));
    }
    let core = call_one(alloc, offset, fun, item)?;
    Ok(core)
}

/// A function that takes the string value of the context item where it has no argument.
fn of_text(
    alloc: Global,
    offset: u64,
    fun: Fun,
    args: Items<Core>,
    focus: Option<Context>,
) -> Result<Core, Want>
    ensures { IfOk result (λ core. (t : Texts) → core_of t core ≡ spec.of_dot offset fun (cores_in t args) (c.Call offset fun_.StringOf (spec.one (spec.dot_at offset (focus_of focus))))) }
{
    let item = dot(offset, focus);
    let text = call_one(alloc, offset, Fun::StringOf, item)?;
    let core = of_dot(alloc, offset, fun, args, text)?;
    Ok(core)
}

/// A call of a built-in function.
fn built_in(
    alloc: Global,
    offset: u64,
    fun: Fun,
    args: Items<Core>,
    focus: Option<Context>,
) -> Result<Core, Want>
    ensures { IfOk result (λ core. (t : Texts) → core_of t core ≡ spec.built_in_call offset fun (cores_in t args) (focus_of focus)) }
{
    match fun {
        Fun::Position => Ok(place(offset, focus)),
        Fun::Last => Ok(last(offset, focus)),
        Fun::Error => Ok(fail(offset, Code::FOER0000)),
        Fun::XsInteger => cast_to(alloc, offset, AtomKind::Integer, fun, args),
        Fun::XsString => cast_to(alloc, offset, AtomKind::Text, fun, args),
        Fun::XsBoolean => cast_to(alloc, offset, AtomKind::Boolean, fun, args),
        Fun::XsUntypedAtomic => cast_to(alloc, offset, AtomKind::Untyped, fun, args),
        Fun::Root => of_dot(alloc, offset, fun, args, dot(offset, focus)),
        Fun::StringOf => of_dot(alloc, offset, fun, args, dot(offset, focus)),
        Fun::Name => of_dot(alloc, offset, fun, args, dot(offset, focus)),
        Fun::LocalName => of_dot(alloc, offset, fun, args, dot(offset, focus)),
        Fun::StringLength => of_text(alloc, offset, fun, args, focus),
        Fun::NormalizeSpace => of_text(alloc, offset, fun, args, focus),
        _ => Ok(called(offset, fun, args)),
    }
}

/// The variable of the parameter of this number.
fn var_at(template: &Template, i: usize) -> Option<u32>
    ensures { result ≡ slice_get template.now.vars.items i }
{
    match template.vars.get(i) {
        None => None,
        Some(x) => Some(*x),
    }
}

/// The type of the parameter of this number, where one is written.
fn type_at(template: &Template, i: usize) -> Option<Option<SeqType>>
    ensures { result ≡ slice_get template.now.types.items i }
{
    match template.types.get(i) {
        None => None,
        Some(ty) => Some(*ty),
    }
}

/// The parameter of this number over its converted argument, round `e`; what no parameter takes is left out.
fn with_param(
    alloc: Global,
    offset: u64,
    template: &Template,
    moving: Moving,
    i: usize,
    arg: Core,
    e: Core,
) -> Result<Core, Want>
    ensures { IfOk result (λ core. (t : Texts) → core_of t core ≡ param_in t offset moving.base moving.by (slice_get template.now.vars.items i) (slice_get template.now.types.items i) (core_of t arg) (core_of t e)) }
{
    match var_at(template, i) {
        None => Ok(e),
        Some(x) => match type_at(template, i) {
            None => Ok(e),
            Some(ty) => {
                let var = variable(x, moving)?;
                let value = converted(alloc, offset, ty, arg)?;
                let core = let_be(alloc, offset, var, value, e)?;
                Ok(core)
            }
        },
    }
}

/// The parameters over the converted arguments, round the body. Each argument is a level of the Core.
fn with_params(
    alloc: Global,
    offset: u64,
    template: &Template,
    moving: Moving,
    mut args: Items<Core>,
    body: Core,
) -> Result<Core, Want>
    ensures { IfOk result (λ core. (t : Texts) → core_of t core ≡ spec.with_params offset (shift.vars moving.base moving.by template.now.vars.items) (types_in t template.now.types.items) (cores_in t args) (core_of t body)) }
{
    match args.pop() {
        None => Ok(body),
        Some(arg) => {
            let i = args.len();
            let inner = with_param(alloc, offset, template, moving, i, arg, body)?;
            let whole = with_params(alloc, offset, template, moving, args, inner)?;
            Ok(whole)
        }
    }
}

/// A declared function's body with its new variables moved, over the arguments.
fn inlined(
    alloc: Global,
    offset: u64,
    template: &Template,
    moving: Moving,
    args: Items<Core>,
) -> Result<Core, Want>
    ensures { IfOk result (λ core. (t : Texts) → core_of t core ≡ spec.inlined offset (shift.inlined moving.base moving.by (template_of t template.now).made) (cores_in t args)) }
{
    let copy = moved(alloc, &template.body, moving, MAX_LEVELS)?;
    let body = converted(alloc, offset, template.result, copy)?;
    let core = with_params(alloc, offset, template, moving, args, body)?;
    Ok(core)
}

/// The body of the declared function of this number, if it is made.
fn template(bodies: &Bodies, k: u32) -> Result<&Template, Want>
    ensures { IfOk result (λ b. slice_get bodies.now.templates.items k ≡ Some (Some b.now)) }
{
    match bodies.templates.get(k as usize) {
        None => Err(Want),
        Some(slot) => match slot {
            None => Err(Want),
            Some(template) => Ok(template),
        },
    }
}

/// A sum of 32 bits.
///
/// Errors: `Want`, where it passes them.
pub fn plus(a: u32, b: u32) -> Result<u32, Want>
    ensures { IfOk result (λ x. x ≡ a + b) }
{
    match a.checked_add(b) {
        None => Err(Want),
        Some(x) => Ok(x),
    }
}

impl<'q, N: Nested> Maker<'q, N> {
    /// A call of the declared function of this number, whose body is made.
    ///
    /// Errors: `Want`, where memory is wanting, the number of a variable passes 32 bits, or the body isn't
    /// made.
    fn declared(
        &self,
        offset: u64,
        k: u32,
        args: Items<Core>,
        state: &mut State,
    ) -> Result<Core, Want>
        ensures { IfOk result (λ core. IsInlined self.now.bodies.now state.old offset k args core state.new) }
    {
        let template = template(self.bodies, k)?;
        let moving = Moving {
            base: self.bodies.base,
            by: state.next,
        };
        let core = inlined(self.alloc, offset, template, moving, args)?;
        state.next = plus(state.next, template.made)?;
        Ok(core)
    }

    /// A call over the Cores of its arguments.
    fn called(
        &self,
        offset: u64,
        callee: Callee,
        args: Items<Core>,
        state: &mut State,
        focus: Option<Context>,
    ) -> Result<Core, Want>
        ensures { Makes_ core_of self.now.bodies.now state.old focus (normed_called self.now.bodies.now offset callee args) result state.new }
    {
        match callee {
            Callee::Known(fun) => {
                let core = built_in(self.alloc, offset, fun, args, focus)?;
                Ok(core)
            }
            Callee::Declared(k) => {
                let core = self.declared(offset, k, args, state)?;
                Ok(core)
            }
        }
    }

    /// A call (XQuery 1.0, section 3.1.5).
    pub fn call(
        &self,
        offset: u64,
        callee: Callee,
        es: &[Tree],
        state: &mut State,
        focus: Option<Context>,
    ) -> Result<Core, Want>
        requires { N.norms self.now.nested self.now.levels }
        ensures { Norms self.now.bodies.now state.old focus (λ t. s.call offset callee (trees.syns t es.now)) result state.new }
    {
        let args = self.all(es, state, focus)?;
        let core = self.called(offset, callee, args, state, focus)?;
        Ok(core)
    }
}
