//! The resolved form of a query: its declarations in the order of the prolog, and its body.
ghost use Rattle.std.specs.Prelude.{◌≡◌, suc, IfOk, OnOk, map};
ghost use Rattle.doc_table.specs.OtherTexts.{Grows};
ghost use Rattle.xq_ast.specs.declared.node.AsRead.{AsRead as Unresolved};
ghost use Rattle.xq_ast.specs.declared.node.AsResolved.{AsResolved as Resolved_};
ghost use Rattle.xq_ast.specs.declared.query.Declaration.TheVariants as declaration_;
ghost use Rattle.core_scope.specs.Declaring as spec;
ghost use Rattle.core_scope.specs.Erasure.{version_of};
ghost use Rattle.core_scope.specs.Gathering.{entered_params};
ghost use Rattle.core_scope.specs.Leaves.{query_read, query_resolved, read_leaves, resolved_leaves};
ghost use Rattle.core_scope.specs.Open as opens;
ghost use Rattle.core_scope.specs.Open.{open_in};
ghost use Rattle.core_scope.specs.Prolog as prolog;
ghost use Rattle.core_scope.specs.Standing.{Lasting};

use crate::bindings::Bindings;
use crate::leaves::{name as resolved_name, named, seq_types, variable};
use crate::names::Visible;
use crate::prolog::functions_of;
use crate::resolving::{Read, Resolved, resolve_expression};
use crate::signatures::Functions;
use sqlite_items::{Boxed, Items};
use std::alloc::Global;
use xq_ast::leaf::{Name, ReadType, SeqType, Variable};
use xq_ast::node::{AsRead, AsResolved};
use xq_ast::query::{Declaration, Param, Prolog, Query, Version};
use xq_base::{Pool, TextId, Want};

/// A parameter, which is entered.
fn param<'a>(
    from: &'a Param<Name<Items<u8>>, ReadType>,
    names: &mut Bindings<'a>,
    pool: &mut Pool,
) -> Result<Param<u32, SeqType>, Want>
    ensures stands { IfOk result (λ x. Lasting pool.new (λ later. spec.param_in later x ≡ spec.param_for from.now)) }
    ensures keeps { Grows pool.old pool.new }
    ensures names { OnOk result (open_in names.new ≡ opens.entered_variable from.now.var (open_in names.old)) }
{
    let var = variable(&from.var)?;
    let ty = seq_types(&from.ty, pool)?;
    names.enter_variable(&from.var)?;
    Ok(Param { var, ty })
}

/// Parameters, which are entered.
fn params<'a>(
    from: &'a [Param<Name<Items<u8>>, ReadType>],
    names: &mut Bindings<'a>,
    pool: &mut Pool,
) -> Result<Items<Param<u32, SeqType>>, Want>
    ensures stands { IfOk result (λ xs. Lasting pool.new (λ later. map (spec.param_in later) xs ≡ map spec.param_for from.now)) }
    ensures keeps { Grows pool.old pool.new }
    ensures names { OnOk result (open_in names.new ≡ entered_params from.now (open_in names.old)) }
{
    let mut found = Items::new(names.alloc());
    for one in from {
        let one = param(one, names, pool)?;
        found.push(one)?;
    }
    Ok(found)
}

/// A declared function.
fn function<'a>(
    offset: u64,
    name: &'a Name<Items<u8>>,
    from: &'a [Param<Name<Items<u8>>, ReadType>],
    ty: &'a Option<ReadType>,
    body: &'a Boxed<Read>,
    functions: &Functions<'a>,
    names: &mut Bindings<'a>,
    pool: &mut Pool,
) -> Result<Declaration<TextId, u32, SeqType, Resolved>, Want>
    ensures stands { IfOk result (λ d. Lasting pool.new (λ later. spec.declaration_in later d ≡ spec.declaration_for functions.now (open_in names.old) (declaration_.Fun offset name.now from.now ty.now body.now))) }
    ensures keeps { Grows pool.old pool.new }
    ensures names { OnOk result (open_in names.new ≡ open_in names.old) }
{
    let mark = names.depth();
    let name = resolved_name(name, pool)?;
    let params = params(from, names, pool)?;
    let ty = seq_types(ty, pool)?;
    let body = resolve_expression(body, functions, names, pool)?;
    names.leave_to(mark)?;
    Ok(Declaration::Fun(offset, name, params, ty, body))
}

/// A variable of the prolog with this number, which is entered.
fn global<'a>(
    offset: u64,
    from: &'a Variable<Name<Items<u8>>>,
    ty: &'a Option<ReadType>,
    value: &'a Boxed<Read>,
    number: u64,
    functions: &Functions<'a>,
    names: &mut Bindings<'a>,
    pool: &mut Pool,
) -> Result<Declaration<TextId, u32, SeqType, Resolved>, Want>
    ensures stands { IfOk result (λ d. Lasting pool.new (λ later. spec.declaration_in later d ≡ spec.declaration_for functions.now (open_in names.old) (declaration_.Var offset from.now ty.now value.now))) }
    ensures keeps { Grows pool.old pool.new }
    ensures names { OnOk result (open_in names.new ≡ opens.entered from.now.name.text (opens.global_at from.now.offset number) (open_in names.old)) }
{
    let var = variable(from)?;
    let ty = seq_types(ty, pool)?;
    let value = resolve_expression(value, functions, names, pool)?;
    names.enter(
        from.name.text.as_slice(),
        Visible {
            place: from.offset,
            number: Some(number),
        },
    )?;
    Ok(Declaration::Var(offset, var, ty, value))
}

fn next(number: u64) -> Result<u64, Want>
    ensures { IfOk result (λ n. n ≡ suc number) }
{
    match number.checked_add(1) {
        None => Err(Want),
        Some(n) => Ok(n),
    }
}

/// A declaration, behind which its variable is visible.
fn declaration<'a>(
    from: &'a Declaration<Items<u8>, Name<Items<u8>>, ReadType, Read>,
    number: &mut u64,
    functions: &Functions<'a>,
    names: &mut Bindings<'a>,
    pool: &mut Pool,
) -> Result<Declaration<TextId, u32, SeqType, Resolved>, Want>
    ensures stands { IfOk result (λ d. Lasting pool.new (λ later. spec.declaration_in later d ≡ spec.declaration_for functions.now (open_in names.old) from.now)) }
    ensures keeps { Grows pool.old pool.new }
    ensures behind { OnOk result (record { open' = open_in names.new; next = number.new } ≡ spec.behind_one from.now (record { open' = open_in names.old; next = number.old })) }
{
    match from {
        Declaration::Fun(offset, name, params, ty, body) => function(
            *offset,
            name,
            params.as_slice(),
            ty,
            body,
            functions,
            names,
            pool,
        ),
        Declaration::Var(offset, variable, ty, value) => {
            let found = global(
                *offset, variable, ty, value, *number, functions, names, pool,
            )?;
            *number = next(*number)?;
            Ok(found)
        }
    }
}

/// The declarations of a prolog, behind which its variables are visible.
fn declarations<'a>(
    from: &'a [Declaration<Items<u8>, Name<Items<u8>>, ReadType, Read>],
    functions: &Functions<'a>,
    names: &mut Bindings<'a>,
    pool: &mut Pool,
) -> Result<Items<Declaration<TextId, u32, SeqType, Resolved>>, Want>
    ensures stands { IfOk result (λ ds. Lasting pool.new (λ later. map (spec.declaration_in later) ds ≡ spec.declarations_for functions.now (record { open' = open_in names.old; next = 0 }) from.now)) }
    ensures keeps { Grows pool.old pool.new }
    ensures names { OnOk result (open_in names.new ≡ (spec.behind_all from.now (record { open' = open_in names.old; next = 0 })).open') }
{
    let mut found = Items::new(names.alloc());
    let mut number = 0;
    for one in from {
        let one = declaration(one, &mut number, functions, names, pool)?;
        found.push(one)?;
    }
    Ok(found)
}

/// A version declaration, if it is there.
fn version(
    from: &Option<Version<Items<u8>>>,
    pool: &mut Pool,
) -> Result<Option<Version<TextId>>, Want>
    ensures stands { IfOk result (λ v. Lasting pool.new (λ later. version_of (resolved_leaves later) Resolved_ v ≡ version_of read_leaves Unresolved from.now)) }
    ensures keeps { Grows pool.old pool.new }
{
    match from {
        None => Ok(None),
        Some(v) => {
            let version = resolved_name(&v.version, pool)?;
            let encoding = named(&v.encoding, pool)?;
            Ok(Some(Version { version, encoding }))
        }
    }
}

/// The resolved query, where nothing is refused (XQuery 1.0, sections 3.1, 3.7, 3.8, 3.11, 3.12 and 4). The pool gains its
/// texts. A query of which something is refused has some form here too.
///
/// Errors: `Want`, where memory is wanting, a text isn't UTF-8, or the place of a variable isn't below 2^32.
pub fn resolved_query(
    alloc: Global,
    query: &Query<AsRead>,
    pool: &mut Pool,
) -> Result<Query<AsResolved>, Want>
    ensures resolved { IfOk result (λ q. Lasting pool.new (λ later. query_resolved later q ≡ prolog.resolved_query (query_read query.now))) }
    ensures keeps { Grows pool.old pool.new }
{
    let from = query.prolog.declarations.as_slice();
    let functions = functions_of(alloc, from)?;
    let mut names = Bindings::new(alloc);
    let version = version(&query.version, pool)?;
    let setters = Items::from_slice(alloc, query.prolog.setters.as_slice())?;
    let declarations = declarations(from, &functions, &mut names, pool)?;
    let body = resolve_expression(&query.body, &functions, &mut names, pool)?;
    Ok(Query {
        version,
        prolog: Prolog {
            setters,
            declarations,
        },
        body,
    })
}
