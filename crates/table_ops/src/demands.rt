//! The number of rows of each operator.
ghost use Rattle.std.specs.Prelude.{◌≡◌, ◌<◌, ◌^◌, true, length, take, IfOk, None};
ghost use Rattle.doc_table.specs.Given.{trees_given};
ghost use Rattle.doc_table.specs.Stores.{AreGiven, Holdings};
ghost use Rattle.plan_dag.specs.Schema.{fits_over, site_of};
ghost use Rattle.table_ops.specs.Demands.{op_rows, HasRows, counted, is_mapped, is_grouped, is_compared};
ghost use Rattle.table_ops.specs.Sorting.{columns_given};
ghost use Rattle.table_ops.specs.Standing.{RowsGiven};

use crate::aggregating::{aggregate, aggregate_fails, tell_apart};
use crate::comparing::{Sides, Wanted, compare_rows};
use crate::contents::content_fails;
use crate::counting::{count_join, count_range};
use crate::failing::map_fails;
use crate::grouping::{count, distinct};
use crate::mapping::map;
use crate::matching::difference;
use crate::plain::select;
use crate::table::Table;
use doc_table::Store;
use plan_dag::Op;
use std::alloc::Global;
use xq_base::{HashKeys, Pool, Want};

/// The number of rows that an operator gives, without a table that is larger than those that it is
/// given (own rule). An operator with one input takes the left table.
///
/// Errors: `Want`, where memory is wanting; the pool may then have more texts.
pub fn demand(
    alloc: Global,
    op: &Op,
    left: &Table,
    right: &Table,
    store: &Store,
    pool: &mut Pool,
) -> Result<u128, Want>
    requires kind { site_of op.now ≡ None }
    requires fits { fits_over op.now left.now.cols right.now.cols ≡ true }
    requires left_few { length left.now.rows < 2 ^ 32 }
    requires right_few { length right.now.rows < 2 ^ 32 }
    requires left_rows { RowsGiven pool.old store.now left.now.rows }
    requires right_rows { RowsGiven pool.old store.now right.now.rows }
    requires trees { trees_given (length pool.old) store.now ≡ true }
    requires names { AreGiven pool.old store.now.docs }
    ensures rows { IfOk result (λ n. n ≡ length (op_rows pool.old store.now op.now left.now right.now)) }
    ensures keeps { take (length pool.old) pool.new ≡ pool.old }
{
    let rows = count_rows(alloc, pool.keys(), *op, left, right, store, pool)?;
    tell_apart(pool)?;
    Ok(rows)
}

/// The number of rows of an operator, where the pool has each text once.
fn count_rows(
    alloc: Global,
    hash: HashKeys,
    operator: Op,
    left: &Table,
    right: &Table,
    store: &Store,
    pool: &mut Pool,
) -> Result<u128, Want>
    requires kind { site_of operator ≡ None }
    requires fits { fits_over operator left.now.cols right.now.cols ≡ true }
    requires left_few { length left.now.rows < 2 ^ 32 }
    requires right_few { length right.now.rows < 2 ^ 32 }
    requires left_rows { RowsGiven pool.old store.now left.now.rows }
    requires right_rows { RowsGiven pool.old store.now right.now.rows }
    requires trees { trees_given (length pool.old) store.now ≡ true }
    requires names { AreGiven pool.old store.now.docs }
    ensures rows { IfOk result (λ n. HasRows pool.old store.now operator left.now right.now n) }
    ensures keeps { take (length pool.old) pool.new ≡ pool.old }
{
    match operator {
        Op::Unit { .. } => Ok(1),
        Op::Empty { .. } => Ok(0),
        Op::Project { .. } => Ok(left.height() as u128),
        Op::Attach { .. } => Ok(left.height() as u128),
        Op::Rownum { .. } => Ok(left.height() as u128),
        Op::Union { .. } => Ok(left.height() as u128 + right.height() as u128),
        Op::Select { col, .. } => counted(select(alloc, left, col)),
        Op::Range { low, high, .. } => Ok(count_range(left, low, high)),
        Op::Distinct { cols, .. } => counted(distinct(alloc, hash, left, &cols)),
        Op::Count { group, col, .. } => counted(count(alloc, hash, left, group, col)),
        Op::Join {
            left_col,
            right_col,
            ..
        } => count_join(alloc, hash, left, right, left_col, right_col),
        Op::Difference {
            left_col,
            right_col,
            ..
        } => counted(difference(alloc, hash, left, right, left_col, right_col)),
        Op::Map { .. } | Op::MapFails { .. } => {
            count_mapped(alloc, operator, left, right, store, pool)
        }
        Op::Aggregate { .. } | Op::AggregateFails { .. } | Op::ContentFails { .. } => {
            count_groups(alloc, hash, operator, left, right, store, pool)
        }
        Op::ExistsCompare { .. } | Op::CompareFails { .. } => {
            count_compared(alloc, hash, operator, left, right, pool)
        }
        Op::Step { .. }
        | Op::Element { .. }
        | Op::Attribute { .. }
        | Op::Pi { .. }
        | Op::Text { .. }
        | Op::Comment { .. }
        | Op::Document { .. } => unreachable!(),
    }
}

/// The number of rows that were made.
fn counted(rows: Result<Table, Want>) -> Result<u128, Want>
    ensures { result ≡ counted rows }
{
    match rows {
        Ok(rows) => Ok(rows.height() as u128),
        Err(want) => Err(want),
    }
}

/// The number of rows on which a function has a value, or fails.
fn count_mapped(
    alloc: Global,
    operator: Op,
    left: &Table,
    right: &Table,
    store: &Store,
    pool: &mut Pool,
) -> Result<u128, Want>
    requires kind { is_mapped operator ≡ true }
    requires fits { fits_over operator left.now.cols right.now.cols ≡ true }
    requires left_few { length left.now.rows < 2 ^ 32 }
    requires left_rows { RowsGiven pool.old store.now left.now.rows }
    requires trees { trees_given (length pool.old) store.now ≡ true }
    requires names { AreGiven pool.old store.now.docs }
    ensures rows { IfOk result (λ n. HasRows pool.old store.now operator left.now right.now n) }
    ensures keeps { take (length pool.old) pool.new ≡ pool.old }
{
    match operator {
        Op::Map { fun, args, col, .. } => {
            counted(map(alloc, left, fun, &args, col, store, pool))
        }
        Op::MapFails {
            fun,
            code,
            args,
            ..
        } => counted(map_fails(alloc, left, fun, code, &args, store, pool)),
        _ => unreachable!(),
    }
}

/// The number of groups for which an aggregate or content has a value, or fails.
fn count_groups(
    alloc: Global,
    hash: HashKeys,
    operator: Op,
    left: &Table,
    right: &Table,
    store: &Store,
    pool: &mut Pool,
) -> Result<u128, Want>
    requires kind { is_grouped operator ≡ true }
    requires fits { fits_over operator left.now.cols right.now.cols ≡ true }
    requires left_few { length left.now.rows < 2 ^ 32 }
    requires left_rows { RowsGiven pool.old store.now left.now.rows }
    requires trees { trees_given (length pool.old) store.now ≡ true }
    requires names { AreGiven pool.old store.now.docs }
    ensures rows { IfOk result (λ n. HasRows pool.old store.now operator left.now right.now n) }
    ensures keeps { take (length pool.old) pool.new ≡ pool.old }
{
    match operator {
        Op::Aggregate {
            agg,
            group,
            item,
            col,
            ..
        } => counted(aggregate(alloc, hash, left, agg, group, item, col, store, pool)),
        Op::AggregateFails {
            agg,
            code,
            group,
            item,
            ..
        } => counted(aggregate_fails(alloc, hash, left, agg, code, group, item, store, pool)),
        Op::ContentFails {
            place,
            code,
            iter,
            pos,
            item,
            ..
        } => counted(content_fails(alloc, hash, left, place, code, iter, pos, item, store, pool)),
        _ => unreachable!(),
    }
}

/// The number of different cells whose rows make a pair of values that is true, or fails.
fn count_compared(
    alloc: Global,
    hash: HashKeys,
    operator: Op,
    left: &Table,
    right: &Table,
    pool: &Pool,
) -> Result<u128, Want>
    requires kind { is_compared operator ≡ true }
    requires fits { fits_over operator left.now.cols right.now.cols ≡ true }
    requires left_few { length left.now.rows < 2 ^ 32 }
    requires right_few { length right.now.rows < 2 ^ 32 }
    requires left_given { columns_given (length pool.now) left.now.rows ≡ true }
    requires right_given { columns_given (length pool.now) right.now.rows ≡ true }
    ensures { IfOk result (λ n. (h : Holdings) → RowsGiven pool.now h left.now.rows → RowsGiven pool.now h right.now.rows → HasRows pool.now h operator left.now right.now n) }
{
    match operator {
        Op::ExistsCompare {
            op,
            left_group,
            left_item,
            right_group,
            right_item,
            ..
        } => {
            let sides = Sides {
                left: left_group,
                left_value: left_item,
                right: right_group,
                right_value: right_item,
            };
            counted(compare_rows(alloc, hash, left, right, op, sides, Wanted::True, pool))
        }
        Op::CompareFails {
            op,
            code,
            left_group,
            left_item,
            right_group,
            right_item,
            ..
        } => {
            let sides = Sides {
                left: left_group,
                left_value: left_item,
                right: right_group,
                right_value: right_item,
            };
            counted(compare_rows(
                alloc,
                hash,
                left,
                right,
                op,
                sides,
                Wanted::Fails(code),
                pool,
            ))
        }
        _ => unreachable!(),
    }
}
