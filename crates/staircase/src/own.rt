//! Reading the rows of a context alone: self and attribute.
ghost use Rattle.std.specs.Prelude.{◌≡◌, ◌≤◌, length};
ghost use Rattle.doc_table.specs.Enc.{enc};
ghost use Rattle.staircase.specs.Ahead.{has, rest_of, Comes};
ghost use Rattle.staircase.specs.Passes.{NextIs};

use crate::ahead::Ahead;
use crate::read::Pass;
use crate::seen::Seen;
use xq_base::Want;

/// The rows of a context.
#[derive(Drop)]
pub(crate) struct Own<'a> {
    pub ahead: Ahead<'a>,
}

impl<'a> Pass for Own<'a> {
    ghost wants = { λ p t v. has v p.ahead.rows.now };

    ghost knows = { λ p t from. Comes p.ahead.rows.now (rest_of p.ahead) from (length (enc t)) };

    fn next(&mut self, _from: u32, _total: u32) -> Option<u32> {
        self.ahead.first()
    }

    fn enter(&mut self, seen: Seen) -> Result<(), Want> {
        self.ahead.pass(seen.pre);
        Ok(())
    }
}
