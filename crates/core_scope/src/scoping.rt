//! From the syntax of a query to the query with its names resolved, or its first refusal.
ghost use Rattle.std.specs.Prelude.{IfOk, IfErr};
ghost use Rattle.doc_table.specs.OtherTexts.{Grows};
ghost use Rattle.core_scope.specs.Leaves.{query_read, query_resolved};
ghost use Rattle.core_scope.specs.Refusals.{Scopes, accepted};
ghost use Rattle.core_scope.specs.Scoping.{Refuses};
ghost use Rattle.core_scope.specs.Standing.{Lasting};

use crate::first::first_refusal;
use crate::resolved_query::resolved_query;
use std::alloc::Global;
use xq_ast::query::{ReadQuery, ResolvedQuery};
use xq_base::{Code, Pool, Want};

/// Why a query isn't resolved.
#[derive(Clone, Copy, Debug, PartialEq, Eq)]
pub enum ScopeFault {
    Refused { code: Code, offset: u64 },
    NoMemory,
}

impl From<Want> for ScopeFault {
    ghost use Rattle.core_scope.specs.declared.scoping.ScopeFault.TheVariants.{NoMemory};
    ghost use Rattle.std.specs.Prelude.{◌≡◌};

    ghost from_gives = { λ _ e. e ≡ NoMemory };

    fn from(_e: Want) -> ScopeFault {
        ScopeFault::NoMemory
    }
}

/// The query with its names resolved, where nothing is refused (XQuery 1.0, sections 2.5, 3.1, 3.7, 3.8,
/// 3.11, 3.12 and 4). The pool gains the query's texts.
///
/// Errors: `Refused`, the first refusal, by its offset and then in the order of codes (own rule);
/// `NoMemory`, where memory is wanting.
pub fn resolve(
    alloc: Global,
    query: &ReadQuery,
    pool: &mut Pool,
) -> Result<ResolvedQuery, ScopeFault>
    ensures resolved { IfOk result (λ q. Lasting pool.new (λ later. Scopes (query_read query.now) (accepted (query_resolved later q)))) }
    ensures refused { IfErr result (Refuses (query_read query.now)) }
    ensures keeps { Grows pool.old pool.new }
{
    match first_refusal(alloc, query)? {
        Some(r) => Err(ScopeFault::Refused {
            code: r.code,
            offset: r.offset,
        }),
        None => {
            let found = resolved_query(alloc, query, pool)?;
            Ok(found)
        }
    }
}
