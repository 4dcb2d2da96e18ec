//! Reading the rows of a context and the rows that follow one of its nodes: following.
ghost use Rattle.std.specs.Prelude.{◌≡◌, ◌≤◌, ◌<◌, ◌-◌, ◌^◌, ◌||◌, length, nat_lt};
ghost use Rattle.doc_table.specs.Enc.{enc};
ghost use Rattle.staircase.specs.Ahead.{any, has, rest_of, Comes};
ghost use Rattle.staircase.specs.Passes.{earlier, nearer, Follows, follows};

use crate::ahead::Ahead;
use crate::read::Pass;
use crate::seen::Seen;
use xq_base::Want;

/// The rows of a context, and the rows after the subtree of one of them or after an owner of an
/// attribute in the context. All rows from `beyond` on follow a node of the context that was read.
#[derive(Drop)]
pub(crate) struct After<'a> {
    pub ahead: Ahead<'a>,
    pub owners: Ahead<'a>,
    pub beyond: u32,
}

/// The lesser of both rows, where there is a first one.
fn earlier(first: Option<u32>, then: u32) -> u32
    ensures { result ≡ earlier first then }
{
    match first {
        None => then,
        Some(at) => at.min(then),
    }
}

/// The first row of those that follow a node read so far, where row `at` was read last.
fn nearer(beyond: u32, is_row: bool, is_owner: bool, at: u32, last: u32) -> u32
    requires last { last < 2 ^ 32 - 1 }
    requires at { at < 2 ^ 32 - 1 }
    ensures { result ≡ nearer beyond is_row is_owner at last }
{
    if is_owner {
        return beyond.min(at + 1);
    }
    if is_row { beyond.min(last + 1) } else { beyond }
}

impl<'a> Pass for After<'a> {
    ghost wants = { λ p t v. has v p.ahead.rows.now || (any (λ c. follows (enc t) c v) p.ahead.rows.now || any (λ c. nat_lt c v) p.owners.rows.now) };

    ghost knows = { λ p t from. Follows (enc t) p.ahead.rows.now (rest_of p.ahead) p.owners.rows.now (rest_of p.owners) p.beyond from };

    fn next(&mut self, from: u32, total: u32) -> Option<u32> {
        let at = earlier(self.ahead.first(), from.max(self.beyond));
        if at < total { Some(at) } else { None }
    }

    fn enter(&mut self, seen: Seen) -> Result<(), Want> {
        let is_row = self.ahead.pass(seen.pre);
        let is_owner = self.owners.pass(seen.pre);
        self.beyond = nearer(self.beyond, is_row, is_owner, seen.pre, seen.last);
        Ok(())
    }
}
