ghost use Rattle.std.specs.Prelude.{◌≡◌, ◌++◌, [], OnOk, IfOk, map, option_map};
ghost use Rattle.core_meaning.specs.Erasure.{core_of, plain_bind, plain_key, cores_of, name_of, binds_of, keys_of, node_kind};
ghost use Rattle.core_meaning.specs.PlainCore as c;
ghost use Rattle.xq_types.specs.Held.{typ_of};
ghost use Rattle.xq_types.specs.Judging.{Gives, judged, judged_all, judged_bind, judged_binds, judged_keys};
ghost use Rattle.xq_types.specs.Entered.{around_one, before_one, around, before};
ghost use Rattle.xq_types.specs.Scopes.{types_in};

use crate::calls::type_of_call;
use crate::entered::{Entered, EnteredBinds, leave_binds};
use crate::fault::TypeFault;
use crate::marks::refuses;
use crate::rules::{
    type_of_atom, type_of_build, type_of_cast, type_of_convert, type_of_step, type_of_treat,
};
use crate::scope::Scope;
use crate::typ::{Known, after, for_each, nothing, once, one_of_two};
use core_meaning::{Bind, Core, CoreKind, SortKey};
use xq_base::{AtomKind, Fun, ItemKind};

/// The type of a Core in a scope, which is left as it was.
#[cycle(infer)]
pub fn infer(core: &Core, scope: &mut Scope) -> Result<Known, TypeFault>
    ensures gives { Gives typ_of (judged (types_in scope.old) (core_of [] core.now)) result }
    ensures same { OnOk result (types_in scope.new ≡ types_in scope.old) }
{
    match &core.kind {
        CoreKind::Lit(atom) => Ok(type_of_atom(*atom)),
        CoreKind::Empty => Ok(nothing()),
        CoreKind::Seq(first, second) => {
            let t = infer(first.get(), scope)?;
            let u = infer(second.get(), scope)?;
            Ok(after(t, u))
        }
        CoreKind::Var(var) => Ok(scope.get(*var)),
        CoreKind::Let(var, bound, body) => {
            let t = infer(bound.get(), scope)?;
            let before = scope.enter(*var, t)?;
            let u = infer(body.get(), scope)?;
            scope.set(*var, before)?;
            Ok(u)
        }
        CoreKind::For {
            var,
            pos,
            seq,
            body,
        } => {
            let t = infer(seq.get(), scope)?;
            let before = scope.enter_loop(*var, *pos, t)?;
            let u = infer(body.get(), scope)?;
            scope.leave_loop(*var, *pos, before)?;
            Ok(for_each(t, u))
        }
        CoreKind::If(condition, first, second) => {
            infer(condition.get(), scope)?;
            let t = infer(first.get(), scope)?;
            let u = infer(second.get(), scope)?;
            Ok(one_of_two(t, u))
        }
        CoreKind::Call(fun, args) => {
            let whole = infer_call(core.offset, *fun, args.as_slice(), scope)?;
            Ok(whole)
        }
        CoreKind::Step {
            axis,
            test,
            input,
            ..
        } => {
            let t = infer(input.get(), scope)?;
            Ok(type_of_step(*axis, *test, t))
        }
        CoreKind::Treat(value, ty) => {
            let t = infer(value.get(), scope)?;
            Ok(type_of_treat(*ty, t))
        }
        CoreKind::Convert(value, ty) => {
            let t = infer(value.get(), scope)?;
            Ok(type_of_convert(*ty, t))
        }
        CoreKind::Cast(value, kind, optional) => {
            let t = infer(value.get(), scope)?;
            Ok(type_of_cast(*kind, *optional, t))
        }
        CoreKind::Instance(value, _) | CoreKind::Castable(value, _, _) => {
            infer(value.get(), scope)?;
            Ok(once(ItemKind::Atom(AtomKind::Boolean)))
        }
        CoreKind::Fail(_) => Ok(nothing()),
        CoreKind::Build {
            what,
            name: Some(name),
            content,
        } => {
            let t = infer(name.get(), scope)?;
            let u = infer(content.get(), scope)?;
            Ok(type_of_build(*what, Some(t), u))
        }
        CoreKind::Build {
            what,
            name: None,
            content,
        } => {
            let u = infer(content.get(), scope)?;
            Ok(type_of_build(*what, None, u))
        }
        CoreKind::Sorted { binds, keys, body } => {
            let entered = enter_binds(binds.as_slice(), scope)?;
            infer_keys(keys.as_slice(), scope)?;
            let t = infer(body.get(), scope)?;
            let u = leave_binds(entered, t, scope)?;
            Ok(u)
        }
    }
}

/// The types of some Cores in turn.
#[cycle(infer)]
fn infer_all(cores: &[Core], scope: &mut Scope) -> Result<Vec<Known>, TypeFault>
    ensures gives { Gives (λ ts. map typ_of ts.items) (judged_all (types_in scope.old) (cores_of (map (core_of []) cores.now))) result }
    ensures same { OnOk result (types_in scope.new ≡ types_in scope.old) }
{
    let mut types = Vec::new(scope.alloc());
    for core in cores {
        let t = infer(core, scope)?;
        types.push(t)?;
    }
    Ok(types)
}

/// The type of a call, if it isn't refused.
#[cycle(infer)]
fn infer_call(offset: u64, fun: Fun, args: &[Core], scope: &mut Scope) -> Result<Known, TypeFault>
    ensures gives { Gives typ_of (judged (types_in scope.old) (c.Call offset fun (cores_of (map (core_of []) args.now)))) result }
    ensures same { OnOk result (types_in scope.new ≡ types_in scope.old) }
{
    let types = infer_all(args, scope)?;
    if refuses(fun, types.as_slice()) {
        return Err(TypeFault::Refused { offset });
    }
    Ok(type_of_call(fun, types.as_slice()))
}

/// Enters a bind of a sorted loop: types its part, and binds its variables.
#[cycle(infer)]
fn enter_bind(bind: &Bind, scope: &mut Scope) -> Result<Entered, TypeFault>
    ensures gives { Gives (λ e. (types_in scope.new, around_one e)) (judged_bind (types_in scope.old) (plain_bind [] bind.now)) result }
    ensures back { IfOk result (λ e. before_one e (types_in scope.new) ≡ types_in scope.old) }
{
    match bind {
        Bind::For { var, pos, seq } => {
            let t = infer(seq.get(), scope)?;
            let was = scope.enter_loop(*var, *pos, t)?;
            Ok(Entered::For {
                var: *var,
                pos: *pos,
                seq: t,
                was,
            })
        }
        Bind::Let(var, bound) => {
            let t = infer(bound.get(), scope)?;
            let was = scope.enter(*var, t)?;
            Ok(Entered::Let { var: *var, was })
        }
        Bind::Where(condition) => {
            infer(condition.get(), scope)?;
            Ok(Entered::Where)
        }
    }
}

/// Enters the binds of a sorted loop in turn.
#[cycle(infer)]
fn enter_binds(binds: &[Bind], scope: &mut Scope) -> Result<EnteredBinds, TypeFault>
    ensures gives { Gives (λ es. (types_in scope.new, around es)) (judged_binds (types_in scope.old) (binds_of (map (plain_bind []) binds.now))) result }
    ensures back { IfOk result (λ es. before es (types_in scope.new) ≡ types_in scope.old) }
{
    let mut entered = EnteredBinds::new(scope.alloc());
    for bind in binds {
        let one = enter_bind(bind, scope)?;
        entered.push(one)?;
    }
    Ok(entered)
}

/// Types the keys of a sorted loop, whose types are not used.
#[cycle(infer)]
fn infer_keys(keys: &[SortKey], scope: &mut Scope) -> Result<(), TypeFault>
    ensures gives { Gives (λ _. tt) (judged_keys (types_in scope.old) (keys_of (map (plain_key []) keys.now))) result }
    ensures same { OnOk result (types_in scope.new ≡ types_in scope.old) }
{
    for key in keys {
        infer(key.key.get(), scope)?;
    }
    Ok(())
}
