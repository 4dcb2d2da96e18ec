//! Reading the rows of a context and the rows below them: descendant and descendant-or-self.
ghost use Rattle.std.specs.Prelude.{◌≡◌, ◌≤◌, ◌||◌, length};
ghost use Rattle.doc_table.specs.Enc.{enc};
ghost use Rattle.doc_table.specs.Places.{below};
ghost use Rattle.staircase.specs.Ahead.{any, has, rest_of, Comes};
ghost use Rattle.staircase.specs.Passes.{Reached};

use crate::ahead::Ahead;
use crate::read::Pass;
use crate::seen::Seen;
use xq_base::Want;

/// The rows of a context and all below them. Rows before `reach` that are still to come are below a row
/// of the context that was read.
#[derive(Drop)]
pub(crate) struct Down<'a> {
    pub ahead: Ahead<'a>,
    pub reach: u32,
}

impl<'a> Pass for Down<'a> {
    ghost wants = { λ p t v. has v p.ahead.rows.now || any (λ c. below (enc t) c v) p.ahead.rows.now };

    ghost knows = { λ p t from. Reached (enc t) p.ahead.rows.now (rest_of p.ahead) p.reach from };

    fn next(&mut self, from: u32, _total: u32) -> Option<u32> {
        if from < self.reach {
            return Some(from);
        }
        self.ahead.first()
    }

    fn enter(&mut self, seen: Seen) -> Result<(), Want> {
        if self.ahead.pass(seen.pre) {
            self.reach = self.reach.max(seen.last + 1);
        }
        Ok(())
    }
}
