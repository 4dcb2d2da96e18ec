//! The rows that a join has read.
ghost use Rattle.std.specs.Prelude.{◌≡◌, ◌+◌, ◌<◌, ◌^◌};
ghost use Rattle.staircase.specs.Seen.{seen_from};

use crate::test::row_passes;
use doc_table::{Kind, Row};
use xq_base::{Axis, NodeTest};

/// A row: its number, the last row of its subtree, its depth, whether it is an element, whether it is a
/// node itself and no mere owner of a lone attribute, and whether it is a node that passes the test.
#[derive(Clone, Copy, Debug, PartialEq, Eq)]
pub(crate) struct Seen {
    pub pre: u32,
    pub last: u32,
    pub level: u32,
    pub element: bool,
    pub node: bool,
    pub passes: bool,
}

/// Row `at` as it was read.
pub(crate) fn seen_row(axis: Axis, test: NodeTest, at: u32, row: Row) -> Seen
    requires { at + row.size < 2 ^ 32 }
    ensures { result ≡ seen_from axis test at row }
{
    let node = row.kind != Kind::Element || row.name.is_some();
    Seen {
        pre: at,
        last: at + row.size,
        level: row.level,
        element: row.kind == Kind::Element,
        node,
        passes: node && row_passes(axis, test, row),
    }
}
