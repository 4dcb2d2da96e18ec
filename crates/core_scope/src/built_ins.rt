//! The built-in functions, by name and number of arguments.
ghost use Rattle.std.specs.Prelude.{◌≡◌, ◌&&◌, map};
ghost use Rattle.xq_base.specs.Texts.{text_eq};
ghost use Rattle.core_scope.specs.BuiltIns as spec;
ghost use Rattle.core_scope.specs.Held.{row_of};

use xq_base::Fun;

/// A built-in function: its name without `fn:`, the least number of arguments, and the greatest, if there
/// is one (XQuery 1.0 and XPath 2.0 Functions and Operators).
#[derive(Clone, Copy)]
pub struct Row {
    pub name: &'static [u8],
    pub least: usize,
    pub greatest: Option<usize>,
    pub fun: Fun,
}

/// Whether two texts are the same.
pub fn same(a: &[u8], b: &[u8]) -> bool
    ensures { result ≡ text_eq a.now b.now }
{
    a == b
}

/// Whether a number isn't beyond the greatest.
fn is_within(n: usize, greatest: Option<usize>) -> bool
    ensures { result ≡ spec.is_within n greatest }
{
    match greatest {
        Some(most) => n <= most,
        None => true,
    }
}

/// Whether a function has a name and takes a number of arguments.
fn is_of(row: &Row, name: &[u8], arity: usize) -> bool
    ensures { result ≡ spec.is_of (row_of row.now) name.now arity }
{
    same(row.name, name) && row.least <= arity && is_within(arity, row.greatest)
}

/// The first such function.
fn found_in(rows: &[Row], name: &[u8], arity: usize) -> Option<Fun>
    ensures { result ≡ spec.found_in (map row_of rows.now) name.now arity }
{
    for row in rows {
        if is_of(row, name, arity) {
            return Some(row.fun);
        }
    }
    None
}

fn or_else(a: Option<Fun>, b: Option<Fun>) -> Option<Fun>
    ensures { result ≡ spec.or_else a b }
{
    match a {
        Some(f) => Some(f),
        None => b,
    }
}

fn node_function(name: &[u8], arity: usize) -> Option<Fun>
    ensures { result ≡ spec.found_in spec.node_functions name.now arity }
{
    let rows = [
        Row {
            name: b"doc",
            least: 1,
            greatest: Some(1),
            fun: Fun::Doc,
        },
        Row {
            name: b"root",
            least: 0,
            greatest: Some(1),
            fun: Fun::Root,
        },
        Row {
            name: b"string",
            least: 0,
            greatest: Some(1),
            fun: Fun::StringOf,
        },
        Row {
            name: b"data",
            least: 1,
            greatest: Some(1),
            fun: Fun::Data,
        },
        Row {
            name: b"name",
            least: 0,
            greatest: Some(1),
            fun: Fun::Name,
        },
        Row {
            name: b"local-name",
            least: 0,
            greatest: Some(1),
            fun: Fun::LocalName,
        },
    ];
    found_in(&rows, name, arity)
}

fn truth_function(name: &[u8], arity: usize) -> Option<Fun>
    ensures { result ≡ spec.found_in spec.truth_functions name.now arity }
{
    let rows = [
        Row {
            name: b"count",
            least: 1,
            greatest: Some(1),
            fun: Fun::Count,
        },
        Row {
            name: b"empty",
            least: 1,
            greatest: Some(1),
            fun: Fun::Empty,
        },
        Row {
            name: b"exists",
            least: 1,
            greatest: Some(1),
            fun: Fun::Exists,
        },
        Row {
            name: b"boolean",
            least: 1,
            greatest: Some(1),
            fun: Fun::Boolean,
        },
        Row {
            name: b"not",
            least: 1,
            greatest: Some(1),
            fun: Fun::Not,
        },
        Row {
            name: b"true",
            least: 0,
            greatest: Some(0),
            fun: Fun::True,
        },
        Row {
            name: b"false",
            least: 0,
            greatest: Some(0),
            fun: Fun::False,
        },
    ];
    found_in(&rows, name, arity)
}

fn text_function(name: &[u8], arity: usize) -> Option<Fun>
    ensures { result ≡ spec.found_in spec.text_functions name.now arity }
{
    let rows = [
        Row {
            name: b"string-length",
            least: 0,
            greatest: Some(1),
            fun: Fun::StringLength,
        },
        Row {
            name: b"normalize-space",
            least: 0,
            greatest: Some(1),
            fun: Fun::NormalizeSpace,
        },
        Row {
            name: b"concat",
            least: 2,
            greatest: None,
            fun: Fun::Concat,
        },
        Row {
            name: b"string-join",
            least: 2,
            greatest: Some(2),
            fun: Fun::StringJoin,
        },
        Row {
            name: b"contains",
            least: 2,
            greatest: Some(2),
            fun: Fun::Contains,
        },
        Row {
            name: b"starts-with",
            least: 2,
            greatest: Some(2),
            fun: Fun::StartsWith,
        },
        Row {
            name: b"ends-with",
            least: 2,
            greatest: Some(2),
            fun: Fun::EndsWith,
        },
    ];
    found_in(&rows, name, arity)
}

fn part_function(name: &[u8], arity: usize) -> Option<Fun>
    ensures { result ≡ spec.found_in spec.part_functions name.now arity }
{
    let rows = [
        Row {
            name: b"substring-before",
            least: 2,
            greatest: Some(2),
            fun: Fun::SubstringBefore,
        },
        Row {
            name: b"substring-after",
            least: 2,
            greatest: Some(2),
            fun: Fun::SubstringAfter,
        },
        Row {
            name: b"substring",
            least: 2,
            greatest: Some(3),
            fun: Fun::Substring,
        },
        Row {
            name: b"translate",
            least: 3,
            greatest: Some(3),
            fun: Fun::Translate,
        },
        Row {
            name: b"compare",
            least: 2,
            greatest: Some(2),
            fun: Fun::Compare,
        },
    ];
    found_in(&rows, name, arity)
}

fn number_function(name: &[u8], arity: usize) -> Option<Fun>
    ensures { result ≡ spec.found_in spec.number_functions name.now arity }
{
    let rows = [
        Row {
            name: b"abs",
            least: 1,
            greatest: Some(1),
            fun: Fun::Abs,
        },
        Row {
            name: b"sum",
            least: 1,
            greatest: Some(2),
            fun: Fun::Sum,
        },
        Row {
            name: b"min",
            least: 1,
            greatest: Some(1),
            fun: Fun::Min,
        },
        Row {
            name: b"max",
            least: 1,
            greatest: Some(1),
            fun: Fun::Max,
        },
    ];
    found_in(&rows, name, arity)
}

fn sequence_function(name: &[u8], arity: usize) -> Option<Fun>
    ensures { result ≡ spec.found_in spec.sequence_functions name.now arity }
{
    let rows = [
        Row {
            name: b"distinct-values",
            least: 1,
            greatest: Some(1),
            fun: Fun::DistinctValues,
        },
        Row {
            name: b"index-of",
            least: 2,
            greatest: Some(2),
            fun: Fun::IndexOf,
        },
        Row {
            name: b"reverse",
            least: 1,
            greatest: Some(1),
            fun: Fun::Reverse,
        },
        Row {
            name: b"subsequence",
            least: 2,
            greatest: Some(3),
            fun: Fun::Subsequence,
        },
        Row {
            name: b"insert-before",
            least: 3,
            greatest: Some(3),
            fun: Fun::InsertBefore,
        },
        Row {
            name: b"remove",
            least: 2,
            greatest: Some(2),
            fun: Fun::Remove,
        },
    ];
    found_in(&rows, name, arity)
}

fn context_function(name: &[u8], arity: usize) -> Option<Fun>
    ensures { result ≡ spec.found_in spec.context_functions name.now arity }
{
    let rows = [
        Row {
            name: b"zero-or-one",
            least: 1,
            greatest: Some(1),
            fun: Fun::ZeroOrOne,
        },
        Row {
            name: b"one-or-more",
            least: 1,
            greatest: Some(1),
            fun: Fun::OneOrMore,
        },
        Row {
            name: b"exactly-one",
            least: 1,
            greatest: Some(1),
            fun: Fun::ExactlyOne,
        },
        Row {
            name: b"position",
            least: 0,
            greatest: Some(0),
            fun: Fun::Position,
        },
        Row {
            name: b"last",
            least: 0,
            greatest: Some(0),
            fun: Fun::Last,
        },
        Row {
            name: b"error",
            least: 0,
            greatest: Some(0),
            fun: Fun::Error,
        },
    ];
    found_in(&rows, name, arity)
}

fn type_function(name: &[u8], arity: usize) -> Option<Fun>
    ensures { result ≡ spec.found_in spec.type_functions name.now arity }
{
    let rows = [
        Row {
            name: b"xs:integer",
            least: 1,
            greatest: Some(1),
            fun: Fun::XsInteger,
        },
        Row {
            name: b"xs:string",
            least: 1,
            greatest: Some(1),
            fun: Fun::XsString,
        },
        Row {
            name: b"xs:boolean",
            least: 1,
            greatest: Some(1),
            fun: Fun::XsBoolean,
        },
        Row {
            name: b"xs:untypedAtomic",
            least: 1,
            greatest: Some(1),
            fun: Fun::XsUntypedAtomic,
        },
    ];
    found_in(&rows, name, arity)
}

/// The built-in function of this name, without `fn:`, and number of arguments. It takes no memory.
pub fn built_in(name: &[u8], arity: usize) -> Option<Fun>
    ensures { result ≡ spec.built_in name.now arity }
{
    let last = or_else(context_function(name, arity), type_function(name, arity));
    let sequences = or_else(sequence_function(name, arity), last);
    let numbers = or_else(number_function(name, arity), sequences);
    let parts = or_else(part_function(name, arity), numbers);
    let texts = or_else(text_function(name, arity), parts);
    let truths = or_else(truth_function(name, arity), texts);
    or_else(node_function(name, arity), truths)
}
