//! The Core of a resolved query.
ghost use Rattle.std.specs.Prelude.{◌≡◌, IfErr, IfOk, OnOk};
ghost use Rattle.core_meaning.specs.Erasure.{Texts, core_of};
ghost use Rattle.core_scope.specs.Leaves.{query_resolved};
ghost use Rattle.core_normal.specs.Making.{HasEmpty};
ghost use Rattle.core_normal.specs.Outcomes.{Gives, IsLawful, IsScoped, NormFails};
ghost use Rattle.core_normal.specs.Query.{core_of_query};
ghost use Rattle.core_normal.specs.Templating.{HasMainCalls};

use crate::bodies::{Bodies, State, Tree};
use crate::fault::NormFault;
use crate::knot;
use crate::knot::Deeper;
use crate::limits::{CoreSize, measure};
use crate::maker::Maker;
use crate::order::{Declaration, main_calls, order, places};
use crate::prolog::{globals, two_vars};
use crate::templates::{Making, all_made, templates};
use core_meaning::Core;
use std::alloc::Global;
use xq_ast::query::ResolvedQuery;
use xq_base::Want;

/// How deep expressions may nest: in each of the 256 levels of a query that was read stand fewer than 32
/// forms, one inside the other.
const MAX_NESTED: u32 = 8_192;

/// Nothing, where all functions are made that the prolog's variables and the main expression call.
fn has_main_calls(
    alloc: Global,
    bodies: &Bodies,
    declarations: &[Declaration],
    main: &Tree,
) -> Result<(), Want>
    ensures { OnOk result (HasMainCalls bodies.now declarations.now main.now) }
{
    let found = main_calls(alloc, declarations, main)?;
    if all_made(bodies, found.as_slice()) {
        Ok(())
    } else {
        Err(Want)
    }
}

/// The Core of a query, however large it is.
///
/// Errors: `Want`, where memory is wanting, the number of a variable passes 32 bits, expressions nest deeper
/// than 8,192 levels, or the order of the functions has one before one that it calls. The last three have no
/// query that scope accepts and whose Core is within the limits.
fn made(alloc: Global, query: &ResolvedQuery) -> Result<Core, Want>
    ensures { IfOk result (λ x. (t : Texts) → HasEmpty t → core_of t x ≡ core_of_query (query_resolved t query.now)) }
{
    let declarations = query.prolog.declarations.as_slice();
    let main = query.body.get();
    let places = places(alloc, declarations)?;
    let order = order(alloc, declarations, places.as_slice(), main)?;
    let known = globals(alloc, declarations)?;
    let first = two_vars(known.1)?;
    let mut state = State {
        vars: known.0,
        next: 0,
    };
    let (levels, nested) = (MAX_NESTED, Deeper { norm: knot::norm });
    let making = Making {
        alloc,
        levels,
        nested,
        declarations,
        places: places.as_slice(),
    };
    let bodies = templates(&making, first.0, order.as_slice(), &mut state)?;
    has_main_calls(alloc, &bodies, declarations, main)?;
    state.next = 0;
    let maker = Maker {
        alloc,
        bodies: &bodies,
        levels,
        nested,
    };
    let core = maker.prolog(declarations, main, &mut state)?;
    Ok(core)
}

/// The Core of a query whose names are resolved (Formal Semantics, section 4; offsets and limits: own
/// rules). Whatever texts the query's text numbers stand for, if 0 stands for the empty text, the Core's
/// stand for the same.
///
/// Errors: `TooLarge`, exactly where the Core would have more than 65,536 nodes or 4,096 levels, with
/// both numbers; `NoMemory`.
pub fn normalise(alloc: Global, query: &ResolvedQuery) -> Result<Core, NormFault>
    requires scoped { IsScoped query.now }
    ensures core { IfOk result (λ x. Gives query.now x) }
    ensures lawful { IfOk result (λ x. IsLawful x) }
    ensures fault { IfErr result (λ f. NormFails query.now f) }
{
    match measure(alloc, query)? {
        CoreSize::TooLarge { nodes, levels } => Err(NormFault::TooLarge { nodes, levels }),
        CoreSize::Fits => {
            let core = made(alloc, query)?;
            Ok(core)
        }
    }
}
