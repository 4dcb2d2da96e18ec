//! The sizes of the declared functions: each found once, those that it calls first, or all of them in rounds.
ghost use Rattle.std.specs.Prelude.{ℕ, ◌+◌, ◌≡◌, IfOk, OnOk, length, true, false};
ghost use Rattle.core_meaning.specs.Erasure.{Texts};
ghost use Rattle.core_normal.specs.Counting as size;
ghost use Rattle.core_normal.specs.Measuring as spec;
ghost use Rattle.core_normal.specs.Order as order;
ghost use Rattle.core_normal.specs.Settling.{AreUnknown, IsSettled};

use crate::bodies::Tree;
use crate::order::{Declaration, declared, order, places};
use crate::sized::{FunSize, sized};
use crate::sizes::{Size, over, unknown};
use std::alloc::Global;
use xq_ast::leaf::SeqType;
use xq_ast::query::Param;
use xq_base::Want;

/// Which parameters have a type.
fn typed(alloc: Global, params: &[Param<u32, SeqType>]) -> Result<Vec<bool>, Want>
    ensures { IfOk result (λ v. v.items ≡ spec.typed params.now) }
{
    let mut typed = Vec::new(alloc);
    for param in params {
        typed.push(param.ty.is_some())?;
    }
    Ok(typed)
}

/// The size of a function's body, converted where it has a type.
fn body_size(body: &Tree, has_result: bool, table: &[FunSize]) -> Size
    ensures { result ≡ spec.converted has_result (size.size_of table.now body.now) }
{
    let size = sized(body, table);
    if has_result { over(size) } else { size }
}

/// The sizes of the declared functions, where calls inside them have these sizes.
fn round(
    alloc: Global,
    declarations: &[Declaration],
    table: &[FunSize],
) -> Result<Vec<FunSize>, Want>
    ensures { IfOk result (λ next. spec.IsNext table.now declarations.now next.items) }
{
    let mut next = Vec::new(alloc);
    for declaration in declarations {
        match declaration {
            Declaration::Var(_, _, _, _) => {}
            Declaration::Fun(_, _, params, result, body) => {
                let typed = typed(alloc, params.as_slice())?;
                let body = body_size(body.get(), result.is_some(), table);
                next.push(FunSize { typed, body })?;
            }
        }
    }
    Ok(next)
}

/// How many functions are declared.
fn how_many(declarations: &[Declaration]) -> usize
    ensures { result ≡ spec.how_many declarations.now }
{
    let mut found = 0;
    for declaration in declarations {
        match declaration {
            Declaration::Var(_, _, _, _) => {}
            Declaration::Fun(_, _, _, _, _) => found += 1,
        }
    }
    found
}

/// The sizes of the declared functions, with calls inside them as deep as there are functions.
///
/// Errors: `Want`, where memory is wanting.
#[tactic(auto, using(crate::proofs::Tables::none_known))]
pub fn by_rounds(alloc: Global, declarations: &[Declaration]) -> Result<Vec<FunSize>, Want>
    ensures { IfOk result (λ table. (t : Texts) → spec.IsTable t false declarations.now table.items) }
{
    let mut table = Vec::new(alloc);
    for _turn in 0..how_many(declarations) {
        table = round(alloc, declarations, table.as_slice())?;
    }
    Ok(table)
}

/// A table of so many functions, none of whose sizes is known.
fn all_unknown(alloc: Global, count: usize) -> Result<Vec<FunSize>, Want>
    ensures unknown { IfOk result (λ v. AreUnknown v.items) }
    ensures count { IfOk result (λ v. length v.items ≡ count) }
{
    let mut table = Vec::new(alloc);
    for _k in 0..count {
        let typed = Vec::new(alloc);
        let body = unknown();
        table.push(FunSize { typed, body })?;
    }
    Ok(table)
}

/// Finds the size of the function of this number, where calls inside it have the sizes of the table.
fn settle(
    alloc: Global,
    declarations: &[Declaration],
    places: &[usize],
    k: usize,
    table: &mut Vec<FunSize>,
) -> Result<(), Want>
    requires { places.now ≡ order.places 0 declarations.now }
    ensures settled { OnOk result ((t : Texts) (n : ℕ) → IsSettled t declarations.now n table.old.items → IsSettled t declarations.now (n + 1) table.new.items) }
    ensures count { OnOk result (length table.new.items ≡ length table.old.items) }
{
    match declared(declarations, places, k) {
        None => Ok(()),
        Some(Declaration::Var(_, _, _, _)) => Ok(()),
        Some(Declaration::Fun(_, _, params, result, body)) => {
            if k >= table.len() {
                return Ok(());
            }
            let typed = typed(alloc, params.as_slice())?;
            let body = body_size(body.get(), result.is_some(), table.as_slice());
            table[k] = FunSize { typed, body };
            Ok(())
        }
    }
}

/// The sizes of the declared functions that the main expression or a variable of the prolog reaches, each found once. A
/// size is unknown where the order is wrong, and that of a function that isn't reached.
///
/// Errors: `Want`, where memory is wanting.
pub fn settled(
    alloc: Global,
    declarations: &[Declaration],
    main: &Tree,
) -> Result<Vec<FunSize>, Want>
    ensures { IfOk result (λ table. (t : Texts) → spec.IsTable t true declarations.now table.items) }
{
    let places = places(alloc, declarations)?;
    let order = order(alloc, declarations, places.as_slice(), main)?;
    let mut table = all_unknown(alloc, places.len())?;
    let count = table.len().min(order.len());
    for i in 0..count {
        settle(
            alloc,
            declarations,
            places.as_slice(),
            order[i] as usize,
            &mut table,
        )?;
    }
    Ok(table)
}
