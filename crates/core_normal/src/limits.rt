//! Whether the Core of a query is within the limits, found without the Core.
ghost use Rattle.std.specs.Prelude.{◌≡◌, IfOk};
ghost use Rattle.core_meaning.specs.Erasure.{Texts};
ghost use Rattle.core_scope.specs.Leaves.{query_resolved};
ghost use Rattle.core_normal.specs.Counting as size;
ghost use Rattle.core_normal.specs.Measuring as spec;

use crate::bodies::Tree;
use crate::fun_sizes::{by_rounds, settled};
use crate::order::Declaration;
use crate::sized::{FunSize, sized};
use crate::sizes::{Round, Size, bare, bind, filled};
use std::alloc::Global;
use xq_ast::query::ResolvedQuery;
use xq_base::Want;

/// The most nodes of a Core.
const MAX_NODES: u64 = 65_536;

/// The most levels of a Core.
const MAX_LEVELS: u64 = 4_096;

/// Whether a Core is within the limits, or how large it would be. Both numbers end at 18,446,744,073,709,551,615.
#[derive(Clone, Copy, Debug, PartialEq, Eq)]
pub enum CoreSize {
    Fits,
    TooLarge { nodes: u64, levels: u64 },
}

/// The variables of the prolog, which stand round the main expression.
fn prolog(declarations: &[Declaration], table: &[FunSize]) -> Round
    ensures { result ≡ spec.prolog table.now size.bare declarations.now }
{
    let mut found = bare();
    for declaration in declarations {
        match declaration {
            Declaration::Var(_, _, ty, value) => {
                let value = sized(value.get(), table);
                found = bind(false, ty.is_some(), found, value);
            }
            Declaration::Fun(_, _, _, _, _) => {}
        }
    }
    found
}

fn within(size: Size) -> CoreSize
    ensures { result ≡ spec.within size }
{
    if size.nodes > MAX_NODES || size.levels > MAX_LEVELS {
        CoreSize::TooLarge {
            nodes: size.nodes,
            levels: size.levels,
        }
    } else {
        CoreSize::Fits
    }
}

/// The size of the Core of a query, where calls have the sizes of the table.
fn whole(declarations: &[Declaration], main: &Tree, table: &[FunSize]) -> Size
    ensures { result ≡ spec.whole table.now declarations.now main.now }
{
    let size = sized(main, table);
    filled(prolog(declarations, table), size)
}

/// Whether the Core of a query is within 65,536 nodes and 4,096 levels, found without the Core. The size of each function
/// is found once; only where functions call themselves, which no query does whose names are resolved, it takes rounds.
///
/// Errors: `Want`, where memory is wanting.
pub fn measure(alloc: Global, query: &ResolvedQuery) -> Result<CoreSize, Want>
    ensures { IfOk result (λ m. (t : Texts) → spec.Measures (query_resolved t query.now) m) }
{
    let declarations = query.prolog.declarations.as_slice();
    let main = query.body.get();
    let table = settled(alloc, declarations, main)?;
    let size = whole(declarations, main, table.as_slice());
    if size.is_known {
        return Ok(within(size));
    }
    let rounds = by_rounds(alloc, declarations)?;
    let found = whole(declarations, main, rounds.as_slice());
    Ok(within(found))
}
