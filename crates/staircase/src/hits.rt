//! Hits that are gathered in any order, and how they come out: ascending, each once.
ghost use Rattle.std.specs.Prelude.{◌≡◌, ◌≤◌, [], ◌∷◌, ◌++◌, if◌then◌else◌, OnOk, OnErr};
ghost use Rattle.staircase.specs.Hits.{ctx_of, is_last, AppendsHits, Extends};

use crate::kinds::Ctx;
use xq_base::Want;

/// A node in an iteration, in the order in which hits come out.
#[derive(Clone, Copy, Debug, PartialEq, Eq, PartialOrd, Ord)]
pub struct Hit {
    pub pre: u32,
    pub attr: u32,
    pub iter: u64,
}

/// Appends a hit, unless it is the last one.
fn push_new(last: Option<Hit>, hit: Hit, out: &mut Vec<Ctx>) -> Result<(), Want>
    ensures pushed { OnOk result (out.new.items ≡ out.old.items ++ (if is_last last hit then [] else ctx_of hit ∷ [])) }
    ensures kept { OnErr result (out.new.items ≡ out.old.items) }
{
    if last == Some(hit) {
        return Ok(());
    }
    let ctx = Ctx {
        iter: hit.iter,
        pre: hit.pre,
        attr: hit.attr,
    };
    if out.push(ctx).is_err() {
        return Err(Want);
    }
    Ok(())
}

/// Appends the hits, ascending, each once (own rule).
///
/// Errors: `Want`, where memory is wanting; some first ones are appended then.
pub fn append_hits(hits: &mut Vec<Hit>, out: &mut Vec<Ctx>) -> Result<(), Want>
    ensures hits { OnOk result (AppendsHits hits.old.items out.old.items out.new.items) }
    ensures kept { Extends out.old.items out.new.items }
{
    hits.sort_unstable();
    let mut last = None;
    for hit in hits.as_slice() {
        push_new(last, *hit, out)?;
        last = Some(*hit);
    }
    Ok(())
}
