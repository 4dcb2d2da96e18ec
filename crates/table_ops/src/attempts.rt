//! A function on the cells of a row.
ghost use Rattle.std.specs.Prelude.{◌≡◌, true, length, take, Some, None, IfOk};
ghost use Rattle.std.specs.List.{list_all};
ghost use Rattle.doc_table.specs.Stores.{AreGiven};
ghost use Rattle.doc_table.specs.Given.{trees_given};
ghost use Rattle.doc_table.specs.Documents.{documents_in};
ghost use Rattle.doc_table.specs.StoredItems.{ItemsGiven, meanings};
ghost use Rattle.plan_dag.specs.Schema.{takes};
ghost use Rattle.plan_dag.specs.ItemRules.{fun_outcome};
ghost use Rattle.xq_funs.specs.CallRules.{is_call, is_connective, is_boolean};
ghost use Rattle.table_ops.specs.Attempts.{outcome_in, AttemptGiven};

use doc_table::Store;
use std::alloc::Global;
use xq_base::{Code, Fun, Item, Pool, Want};
use xq_funs::{FunFault, call};

/// What a function gives of the cells of a row: a value, a code, or neither.
#[derive(Clone, Copy)]
pub enum Attempt {
    Value(Item),
    Fails(Code),
    Silent,
}

/// What a function gives of cells, one for each argument.
///
/// Errors: `Want`, where memory is wanting.
#[tactic(auto, using(crate::proofs::Attempting::gives_value, crate::proofs::Attempting::gives_code, crate::proofs::Attempting::silent))]
pub fn outcome(
    alloc: Global,
    fun: Fun,
    args: &[Item],
    store: &Store,
    pool: &mut Pool,
) -> Result<Attempt, Want>
    requires fun { takes fun (length args.now) ≡ true }
    requires items { ItemsGiven pool.old store.now args.now }
    requires trees { trees_given (length pool.old) store.now ≡ true }
    requires names { AreGiven pool.old store.now.docs }
    ensures outcome { IfOk result (λ a. outcome_in pool.new store.now a ≡ fun_outcome (documents_in pool.old store.now) fun (meanings pool.old store.now args.now)) }
    ensures given { IfOk result (λ a. AttemptGiven pool.new store.now a) }
    ensures keeps { take (length pool.old) pool.new ≡ pool.old }
{
    if !is_applicable(fun, args) {
        return Ok(Attempt::Silent);
    }
    match call(alloc, fun, args, store, pool) {
        Ok(item) => Ok(Attempt::Value(item)),
        Err(FunFault::Code(code)) => Ok(Attempt::Fails(code)),
        Err(FunFault::NoMemory) => Err(Want),
    }
}

/// Whether a function that takes so many cells takes these: `and` and `or` take booleans alone.
#[tactic(auto, using(crate::proofs::Attempting::other_call, crate::proofs::Attempting::connective_call))]
fn is_applicable(fun: Fun, args: &[Item]) -> bool
    requires { takes fun (length args.now) ≡ true }
    ensures { result ≡ is_call fun args.now }
{
    if is_connective(fun) {
        are_booleans(args)
    } else {
        true
    }
}

fn is_connective(fun: Fun) -> bool
    ensures { result ≡ is_connective fun }
{
    match fun {
        Fun::And | Fun::Or => true,
        _ => false,
    }
}

/// Whether all cells are booleans.
fn are_booleans(args: &[Item]) -> bool
    ensures { result ≡ list_all is_boolean args.now }
{
    match args.split_first() {
        None => true,
        Some((first, rest)) => is_boolean(*first) && are_booleans(rest),
    }
}

fn is_boolean(cell: Item) -> bool
    ensures { result ≡ is_boolean cell }
{
    match cell {
        Item::Bool(_) => true,
        _ => false,
    }
}
