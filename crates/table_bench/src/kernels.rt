//! The operators that are run, by their names.
ghost use Rattle.std.specs.Prelude.{◌≡◌, MatchOption};
ghost use Rattle.table_bench.specs.declared.kernels.Kernel.{Kernel};
ghost use Rattle.table_bench.specs.declared.kernels.Kernel.TheVariants as k;
ghost use Rattle.table_bench.specs.Kernels.{name_of, op_of, AreOthers, swapped, numbers, rownum_by};

use plan_dag::{Col, Cols, Key, Keys, Op, OpId, Pair, Pairs};
use xq_base::{Atom, CompOp, Fun};

/// An operator that is run: the last two are of rows that are in the order of other numbers, and in
/// their own.
#[derive(Clone, Copy, Debug, PartialEq, Eq)]
pub enum Kernel {
    Project,
    Attach,
    Select,
    Union,
    Count,
    Map,
    Join,
    Difference,
    Distinct,
    Compare,
    Unsorted,
    InOrder,
}

/// All of them.
pub const KERNELS: [Kernel; 12] = [
    Kernel::Project,
    Kernel::Attach,
    Kernel::Select,
    Kernel::Union,
    Kernel::Count,
    Kernel::Map,
    Kernel::Join,
    Kernel::Difference,
    Kernel::Distinct,
    Kernel::Compare,
    Kernel::Unsorted,
    Kernel::InOrder,
];

/// The name of an operator.
pub fn name_of(kernel: Kernel) -> &'static str
    ensures { result.now ≡ name_of kernel }
{
    match kernel {
        Kernel::Project => "project",
        Kernel::Attach => "attach",
        Kernel::Select => "select",
        Kernel::Union => "union",
        Kernel::Count => "count",
        Kernel::Map => "map",
        Kernel::Join => "join",
        Kernel::Difference => "difference",
        Kernel::Distinct => "distinct",
        Kernel::Compare => "exists_compare",
        Kernel::Unsorted => "rownum",
        Kernel::InOrder => "rownum_in_order",
    }
}

/// The first of these operators that has a name.
fn find(kernels: &[Kernel], word: &str) -> Option<Kernel>
    ensures { MatchOption result (AreOthers kernels.now word.now) (λ kernel. name_of kernel ≡ word.now) }
{
    let (first, rest) = kernels.split_first()?;
    if name_of(*first) == word {
        return Some(*first);
    }
    find(rest, word)
}

/// The operator of this name.
#[tactic(auto, using(crate::proofs::EveryKernel::no_kernel))]
pub fn kernel_named(word: &str) -> Option<Kernel>
    ensures { MatchOption result ((kernel : Kernel) → name_of kernel ≡ word.now → ⊥) (λ kernel. name_of kernel ≡ word.now) }
{
    find(&KERNELS, word)
}

/// The operator as a plan has it.
pub fn op_of(kernel: Kernel) -> Op
    ensures { result ≡ op_of kernel }
{
    let input = OpId(0);
    match kernel {
        Kernel::Project => Op::Project {
            input,
            pairs: pairs(),
        },
        Kernel::Attach => Op::Attach {
            input,
            col: Col(6),
            value: Atom::Int(1),
        },
        Kernel::Select => Op::Select { input, col: Col(2) },
        Kernel::Union => Op::Union {
            left: input,
            right: input,
        },
        Kernel::Count => Op::Count {
            input,
            group: Col(1),
            col: Col(6),
        },
        Kernel::Map => Op::Map {
            input,
            fun: Fun::Add,
            args: numbers(),
            col: Col(6),
        },
        Kernel::Distinct => Op::Distinct {
            input,
            cols: numbers(),
        },
        Kernel::Unsorted => rownum(Col(1)),
        Kernel::InOrder => rownum(Col(0)),
        Kernel::Join => join(),
        Kernel::Difference => difference(),
        Kernel::Compare => compare(),
    }
}

/// The first columns, in another order and under other names.
fn pairs() -> Pairs
    ensures { result ≡ swapped }
{
    let mut pairs = Pairs::new();
    pairs.push(Pair {
        new: Col(6),
        old: Col(1),
    });
    pairs.push(Pair {
        new: Col(7),
        old: Col(0),
    });
    pairs
}

/// The columns of numbers.
fn numbers() -> Cols
    ensures { result ≡ numbers }
{
    let mut cols = Cols::new();
    cols.push(Col(0));
    cols.push(Col(1));
    cols
}

fn rownum(col: Col) -> Op
    ensures { result ≡ rownum_by col }
{
    let mut keys = Keys::new();
    keys.push(Key {
        col,
        descending: false,
    });
    Op::Rownum {
        input: OpId(0),
        col: Col(6),
        keys,
        part: None,
    }
}

fn join() -> Op
    ensures { result ≡ op_of k.Join }
{
    Op::Join {
        left: OpId(0),
        right: OpId(1),
        left_col: Col(0),
        right_col: Col(3),
    }
}

fn difference() -> Op
    ensures { result ≡ op_of k.Difference }
{
    Op::Difference {
        left: OpId(0),
        right: OpId(1),
        left_col: Col(0),
        right_col: Col(3),
    }
}

fn compare() -> Op
    ensures { result ≡ op_of k.Compare }
{
    Op::ExistsCompare {
        left: OpId(0),
        right: OpId(1),
        op: CompOp::Eq,
        left_group: Col(0),
        left_item: Col(1),
        right_group: Col(3),
        right_item: Col(4),
    }
}
