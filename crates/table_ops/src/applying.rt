//! The rows of each operator.
ghost use Rattle.std.specs.Prelude.{◌≡◌, ◌<◌, ◌^◌, true, length, take, IfOk, None};
ghost use Rattle.doc_table.specs.Given.{trees_given};
ghost use Rattle.doc_table.specs.Stores.{AreGiven, Holdings};
ghost use Rattle.plan_dag.specs.Schema.{fits_over, site_of};
ghost use Rattle.table_ops.specs.Demands.{is_mapped, is_grouped, is_compared};
ghost use Rattle.table_ops.specs.Results.{op_table, Makes, constant_given, is_of_one, is_of_two};
ghost use Rattle.table_ops.specs.Sorting.{columns_given};
ghost use Rattle.table_ops.specs.Standing.{standing, RowsGiven};

use crate::aggregating::{aggregate, aggregate_fails, tell_apart};
use crate::comparing::{Sides, Wanted, compare_rows};
use crate::contents::content_fails;
use crate::failing::map_fails;
use crate::grouping::{count, distinct};
use crate::mapping::map;
use crate::matching::{difference, join};
use crate::numbering::rownum;
use crate::plain::{attach, project, select, union, unit};
use crate::ranges::range;
use crate::table::Table;
use doc_table::Store;
use plan_dag::Op;
use std::alloc::Global;
use xq_base::{HashKeys, Pool, Want};

/// The table that an operator gives over its inputs' tables (own rule). An operator with one input takes
/// the left table; one without input takes none.
///
/// Errors: `Want`, where memory is wanting; the pool may then have more texts.
pub fn apply(
    alloc: Global,
    op: &Op,
    left: &Table,
    right: &Table,
    store: &Store,
    pool: &mut Pool,
) -> Result<Table, Want>
    requires kind { site_of op.now ≡ None }
    requires fits { fits_over op.now left.now.cols right.now.cols ≡ true }
    requires constant { constant_given (length pool.old) op.now ≡ true }
    requires left_few { length left.now.rows < 2 ^ 32 }
    requires right_few { length right.now.rows < 2 ^ 32 }
    requires left_rows { RowsGiven pool.old store.now left.now.rows }
    requires right_rows { RowsGiven pool.old store.now right.now.rows }
    requires trees { trees_given (length pool.old) store.now ≡ true }
    requires names { AreGiven pool.old store.now.docs }
    ensures rows { IfOk result (λ t. standing pool.new store.now t ≡ op_table pool.old store.now op.now left.now right.now) }
    ensures given { IfOk result (λ t. RowsGiven pool.new store.now t.rows) }
    ensures keeps { take (length pool.old) pool.new ≡ pool.old }
{
    let table = make(alloc, pool.keys(), *op, left, right, store, pool)?;
    tell_apart(pool)?;
    Ok(table)
}

/// The table of an operator, where the pool has each text once.
fn make(
    alloc: Global,
    hash: HashKeys,
    operator: Op,
    left: &Table,
    right: &Table,
    store: &Store,
    pool: &mut Pool,
) -> Result<Table, Want>
    requires kind { site_of operator ≡ None }
    requires fits { fits_over operator left.now.cols right.now.cols ≡ true }
    requires constant { constant_given (length pool.old) operator ≡ true }
    requires left_few { length left.now.rows < 2 ^ 32 }
    requires right_few { length right.now.rows < 2 ^ 32 }
    requires left_rows { RowsGiven pool.old store.now left.now.rows }
    requires right_rows { RowsGiven pool.old store.now right.now.rows }
    requires trees { trees_given (length pool.old) store.now ≡ true }
    requires names { AreGiven pool.old store.now.docs }
    ensures made { IfOk result (λ t. Makes pool.old store.now operator left.now right.now pool.new t) }
    ensures keeps { take (length pool.old) pool.new ≡ pool.old }
{
    match operator {
        Op::Map { .. } | Op::MapFails { .. } => {
            make_mapped(alloc, operator, left, right, store, pool)
        }
        Op::Aggregate { .. } | Op::AggregateFails { .. } | Op::ContentFails { .. } => {
            make_grouped(alloc, hash, operator, left, right, store, pool)
        }
        Op::ExistsCompare { .. } | Op::CompareFails { .. } => {
            make_compared(alloc, hash, operator, left, right, pool)
        }
        Op::Join { .. } | Op::Union { .. } | Op::Difference { .. } => {
            make_of_two(alloc, hash, operator, left, right, pool)
        }
        Op::Unit { .. }
        | Op::Empty { .. }
        | Op::Project { .. }
        | Op::Attach { .. }
        | Op::Select { .. }
        | Op::Distinct { .. }
        | Op::Rownum { .. }
        | Op::Count { .. }
        | Op::Range { .. } => make_of_one(alloc, hash, operator, left, right, pool),
        Op::Step { .. }
        | Op::Element { .. }
        | Op::Attribute { .. }
        | Op::Pi { .. }
        | Op::Text { .. }
        | Op::Comment { .. }
        | Op::Document { .. } => unreachable!(),
    }
}

/// The table of an operator over one table or none that applies no function and makes no group's value.
fn make_of_one(
    alloc: Global,
    hash: HashKeys,
    operator: Op,
    left: &Table,
    right: &Table,
    pool: &Pool,
) -> Result<Table, Want>
    requires kind { is_of_one operator ≡ true }
    requires fits { fits_over operator left.now.cols right.now.cols ≡ true }
    requires constant { constant_given (length pool.now) operator ≡ true }
    requires left_few { length left.now.rows < 2 ^ 32 }
    requires left_given { columns_given (length pool.now) left.now.rows ≡ true }
    ensures { IfOk result (λ t. (h : Holdings) → RowsGiven pool.now h left.now.rows → Makes pool.now h operator left.now right.now pool.now t) }
{
    match operator {
        Op::Unit { col } => unit(alloc, col),
        Op::Empty { cols } => Table::new(alloc, cols.as_slice()),
        Op::Project { pairs, .. } => project(alloc, left, &pairs),
        Op::Attach { col, value, .. } => attach(alloc, left, col, value),
        Op::Select { col, .. } => select(alloc, left, col),
        Op::Distinct { cols, .. } => distinct(alloc, hash, left, &cols),
        Op::Rownum {
            col,
            keys,
            part,
            ..
        } => rownum(alloc, left, col, &keys, part, pool),
        Op::Count { group, col, .. } => count(alloc, hash, left, group, col),
        Op::Range { low, high, col, .. } => range(alloc, left, low, high, col),
        _ => unreachable!(),
    }
}

/// The table of an operator over two tables that compares no values.
fn make_of_two(
    alloc: Global,
    hash: HashKeys,
    operator: Op,
    left: &Table,
    right: &Table,
    pool: &Pool,
) -> Result<Table, Want>
    requires kind { is_of_two operator ≡ true }
    requires fits { fits_over operator left.now.cols right.now.cols ≡ true }
    requires left_few { length left.now.rows < 2 ^ 32 }
    requires right_few { length right.now.rows < 2 ^ 32 }
    ensures { IfOk result (λ t. (h : Holdings) → RowsGiven pool.now h left.now.rows → RowsGiven pool.now h right.now.rows → Makes pool.now h operator left.now right.now pool.now t) }
{
    match operator {
        Op::Join {
            left_col,
            right_col,
            ..
        } => join(alloc, hash, left, right, left_col, right_col),
        Op::Union { .. } => union(alloc, left, right),
        Op::Difference {
            left_col,
            right_col,
            ..
        } => difference(alloc, hash, left, right, left_col, right_col),
        _ => unreachable!(),
    }
}

/// The table of a function on each row, or of the rows on which it fails.
pub fn make_mapped(
    alloc: Global,
    operator: Op,
    left: &Table,
    right: &Table,
    store: &Store,
    pool: &mut Pool,
) -> Result<Table, Want>
    requires kind { is_mapped operator ≡ true }
    requires fits { fits_over operator left.now.cols right.now.cols ≡ true }
    requires left_few { length left.now.rows < 2 ^ 32 }
    requires left_rows { RowsGiven pool.old store.now left.now.rows }
    requires trees { trees_given (length pool.old) store.now ≡ true }
    requires names { AreGiven pool.old store.now.docs }
    ensures made { IfOk result (λ t. Makes pool.old store.now operator left.now right.now pool.new t) }
    ensures keeps { take (length pool.old) pool.new ≡ pool.old }
{
    match operator {
        Op::Map { fun, args, col, .. } => map(alloc, left, fun, &args, col, store, pool),
        Op::MapFails {
            fun,
            code,
            args,
            ..
        } => map_fails(alloc, left, fun, code, &args, store, pool),
        _ => unreachable!(),
    }
}

/// The table of the groups for which an aggregate or content has a value, or fails.
pub fn make_grouped(
    alloc: Global,
    hash: HashKeys,
    operator: Op,
    left: &Table,
    right: &Table,
    store: &Store,
    pool: &mut Pool,
) -> Result<Table, Want>
    requires kind { is_grouped operator ≡ true }
    requires fits { fits_over operator left.now.cols right.now.cols ≡ true }
    requires left_few { length left.now.rows < 2 ^ 32 }
    requires left_rows { RowsGiven pool.old store.now left.now.rows }
    requires trees { trees_given (length pool.old) store.now ≡ true }
    requires names { AreGiven pool.old store.now.docs }
    ensures made { IfOk result (λ t. Makes pool.old store.now operator left.now right.now pool.new t) }
    ensures keeps { take (length pool.old) pool.new ≡ pool.old }
{
    match operator {
        Op::Aggregate {
            agg,
            group,
            item,
            col,
            ..
        } => aggregate(alloc, hash, left, agg, group, item, col, store, pool),
        Op::AggregateFails {
            agg,
            code,
            group,
            item,
            ..
        } => aggregate_fails(alloc, hash, left, agg, code, group, item, store, pool),
        Op::ContentFails {
            place,
            code,
            iter,
            pos,
            item,
            ..
        } => content_fails(alloc, hash, left, place, code, iter, pos, item, store, pool),
        _ => unreachable!(),
    }
}

/// The table of the different cells whose rows make a pair of values that is true, or fails.
pub fn make_compared(
    alloc: Global,
    hash: HashKeys,
    operator: Op,
    left: &Table,
    right: &Table,
    pool: &Pool,
) -> Result<Table, Want>
    requires kind { is_compared operator ≡ true }
    requires fits { fits_over operator left.now.cols right.now.cols ≡ true }
    requires left_few { length left.now.rows < 2 ^ 32 }
    requires right_few { length right.now.rows < 2 ^ 32 }
    requires left_given { columns_given (length pool.now) left.now.rows ≡ true }
    requires right_given { columns_given (length pool.now) right.now.rows ≡ true }
    ensures { IfOk result (λ t. (h : Holdings) → RowsGiven pool.now h left.now.rows → RowsGiven pool.now h right.now.rows → Makes pool.now h operator left.now right.now pool.now t) }
{
    match operator {
        Op::ExistsCompare {
            op,
            left_group,
            left_item,
            right_group,
            right_item,
            ..
        } => {
            let sides = Sides {
                left: left_group,
                left_value: left_item,
                right: right_group,
                right_value: right_item,
            };
            compare_rows(alloc, hash, left, right, op, sides, Wanted::True, pool)
        }
        Op::CompareFails {
            op,
            code,
            left_group,
            left_item,
            right_group,
            right_item,
            ..
        } => {
            let sides = Sides {
                left: left_group,
                left_value: left_item,
                right: right_group,
                right_value: right_item,
            };
            compare_rows(
                alloc,
                hash,
                left,
                right,
                op,
                sides,
                Wanted::Fails(code),
                pool,
            )
        }
        _ => unreachable!(),
    }
}
