//! The operators of forms, by the places that they read and the numbers of their columns.
ghost use Rattle.std.specs.Prelude.{◌≡◌, ◌<◌, true, [], ◌∷◌, length, map};
ghost use Rattle.plan_dag.specs.declared.op.Op.TheVariants as o;
ghost use Rattle.lift_laws.specs.States.{column, op_id};
ghost use Rattle.lift_prims.specs.Listed.{pair_in, key_in, part_in};

use plan_dag::{Agg, Col, Cols, Key, Keys, Op, OpId, Pair, Pairs};
use xq_base::{Atom, Code, CompOp, Fun};

/// Columns by their numbers.
fn cols(all: &[u8]) -> Cols
    requires { length all.now < 9 }
    ensures { result ≡ map column all.now }
{
    let mut out = Cols::new();
    for col in all {
        out.push(Col(*col));
    }
    out
}

/// New columns, each with the old one that it takes.
fn pairs(all: &[(u8, u8)]) -> Pairs
    requires { length all.now < 9 }
    ensures { result ≡ map pair_in all.now }
{
    let mut out = Pairs::new();
    for pair in all {
        out.push(Pair {
            new: Col(pair.0),
            old: Col(pair.1),
        });
    }
    out
}

/// Columns to sort by, from the least cell up.
fn keys(all: &[u8]) -> Keys
    requires { length all.now < 9 }
    ensures { result ≡ map key_in all.now }
{
    let mut out = Keys::new();
    for col in all {
        out.push(Key {
            col: Col(*col),
            descending: false,
        });
    }
    out
}

/// A table without rows, with these columns.
pub(crate) fn empty(all: &[u8]) -> Op
    requires { length all.now < 9 }
    ensures { result ≡ o.Empty (map column all.now) }
{
    Op::Empty { cols: cols(all) }
}

/// New columns, each with the old one that it takes.
pub(crate) fn project(input: u64, all: &[(u8, u8)]) -> Op
    requires { length all.now < 9 }
    ensures { result ≡ o.Project (op_id input) (map pair_in all.now) }
{
    Op::Project {
        input: OpId(input),
        pairs: pairs(all),
    }
}

/// One more column, with this value in all rows.
pub(crate) fn attach(input: u64, col: u8, value: Atom) -> Op
    ensures { result ≡ o.Attach (op_id input) (column col) value }
{
    Op::Attach {
        input: OpId(input),
        col: Col(col),
        value,
    }
}

/// The rows that are true in a column.
pub(crate) fn select(input: u64, col: u8) -> Op
    ensures { result ≡ o.Select (op_id input) (column col) }
{
    Op::Select {
        input: OpId(input),
        col: Col(col),
    }
}

/// Pairs of rows with equal cells in these columns.
pub(crate) fn join(left: u64, right: u64, left_col: u8, right_col: u8) -> Op
    ensures { result ≡ o.Join (op_id left) (op_id right) (column left_col) (column right_col) }
{
    Op::Join {
        left: OpId(left),
        right: OpId(right),
        left_col: Col(left_col),
        right_col: Col(right_col),
    }
}

/// The rows of both.
pub(crate) fn union(left: u64, right: u64) -> Op
    ensures { result ≡ o.Union (op_id left) (op_id right) }
{
    Op::Union {
        left: OpId(left),
        right: OpId(right),
    }
}

/// The left rows whose first column's cell is in no right row's.
pub(crate) fn difference(left: u64, right: u64) -> Op
    ensures { result ≡ o.Difference (op_id left) (op_id right) (column 0) (column 0) }
{
    Op::Difference {
        left: OpId(left),
        right: OpId(right),
        left_col: Col(0),
        right_col: Col(0),
    }
}

/// A number for each row in its part, by these columns.
pub(crate) fn rownum(input: u64, col: u8, by: &[u8], part: Option<u8>) -> Op
    requires { length by.now < 9 }
    ensures { result ≡ o.Rownum (op_id input) (column col) (map key_in by.now) (part_in part) }
{
    Op::Rownum {
        input: OpId(input),
        col: Col(col),
        keys: keys(by),
        part: part.map(Col),
    }
}

/// A number for each row in its part, by this column from the greatest cell down.
pub(crate) fn rownum_down(input: u64, col: u8, by: u8, part: Option<u8>) -> Op
    ensures { result ≡ o.Rownum (op_id input) (column col) (record { col = column by; descending = true } ∷ []) (part_in part) }
{
    let mut keys = Keys::new();
    keys.push(Key {
        col: Col(by),
        descending: true,
    });
    Op::Rownum {
        input: OpId(input),
        col: Col(col),
        keys,
        part: part.map(Col),
    }
}

/// A function's value of these columns, in one more column, where it is one item.
pub(crate) fn map(input: u64, fun: Fun, args: &[u8], col: u8) -> Op
    requires { length args.now < 9 }
    ensures { result ≡ o.Map (op_id input) fun (map column args.now) (column col) }
{
    Op::Map {
        input: OpId(input),
        fun,
        args: cols(args),
        col: Col(col),
    }
}

/// The rows for whose columns a function fails with a code.
pub(crate) fn map_fails(input: u64, fun: Fun, code: Code, args: &[u8]) -> Op
    requires { length args.now < 9 }
    ensures { result ≡ o.MapFails (op_id input) fun code (map column args.now) }
{
    Op::MapFails {
        input: OpId(input),
        fun,
        code,
        args: cols(args),
    }
}

/// How many rows each group has.
pub(crate) fn count(input: u64, group: u8, col: u8) -> Op
    ensures { result ≡ o.Count (op_id input) (column group) (column col) }
{
    Op::Count {
        input: OpId(input),
        group: Col(group),
        col: Col(col),
    }
}

/// The first row of each, by these columns.
pub(crate) fn distinct(input: u64, all: &[u8]) -> Op
    requires { length all.now < 9 }
    ensures { result ≡ o.Distinct (op_id input) (map column all.now) }
{
    Op::Distinct {
        input: OpId(input),
        cols: cols(all),
    }
}

/// The value of an aggregate over each group's cells, where it is one item.
pub(crate) fn aggregate(input: u64, agg: Agg, group: u8, item: u8, col: u8) -> Op
    ensures { result ≡ o.Aggregate (op_id input) agg (column group) (column item) (column col) }
{
    Op::Aggregate {
        input: OpId(input),
        agg,
        group: Col(group),
        item: Col(item),
        col: Col(col),
    }
}

/// The groups for which an aggregate fails with a code.
pub(crate) fn aggregate_fails(input: u64, agg: Agg, code: Code, group: u8, item: u8) -> Op
    ensures { result ≡ o.AggregateFails (op_id input) agg code (column group) (column item) }
{
    Op::AggregateFails {
        input: OpId(input),
        agg,
        code,
        group: Col(group),
        item: Col(item),
    }
}

/// The whole numbers from one column's to another's, each in a row.
pub(crate) fn range(input: u64, low: u8, high: u8, col: u8) -> Op
    ensures { result ≡ o.Range (op_id input) (column low) (column high) (column col) }
{
    Op::Range {
        input: OpId(input),
        low: Col(low),
        high: Col(high),
        col: Col(col),
    }
}

/// The groups of the left table with an item that compares so with one of the same group of the right one.
pub(crate) fn exists_compare(
    left: u64,
    right: u64,
    op: CompOp,
    left_cols: (u8, u8),
    right_cols: (u8, u8),
) -> Op
    ensures { result ≡ o.ExistsCompare (op_id left) (op_id right) op (column left_cols.0) (column left_cols.1) (column right_cols.0) (column right_cols.1) }
{
    Op::ExistsCompare {
        left: OpId(left),
        right: OpId(right),
        op,
        left_group: Col(left_cols.0),
        left_item: Col(left_cols.1),
        right_group: Col(right_cols.0),
        right_item: Col(right_cols.1),
    }
}

/// The groups of the left table with an item whose comparison with one of the same group of the right one fails with a code.
pub(crate) fn compare_fails(
    left: u64,
    right: u64,
    op: CompOp,
    code: Code,
    left_cols: (u8, u8),
    right_cols: (u8, u8),
) -> Op
    ensures { result ≡ o.CompareFails (op_id left) (op_id right) op code (column left_cols.0) (column left_cols.1) (column right_cols.0) (column right_cols.1) }
{
    Op::CompareFails {
        left: OpId(left),
        right: OpId(right),
        op,
        code,
        left_group: Col(left_cols.0),
        left_item: Col(left_cols.1),
        right_group: Col(right_cols.0),
        right_item: Col(right_cols.1),
    }
}
