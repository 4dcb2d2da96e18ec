//! Reading all rows up to the last one of a context: preceding.
ghost use Rattle.std.specs.Prelude.{◌≡◌, ◌≤◌, length, nat_lt};
ghost use Rattle.doc_table.specs.Enc.{enc};
ghost use Rattle.staircase.specs.Passes.{NextIs};

use crate::read::Pass;
use crate::seen::Seen;
use xq_base::Want;

/// The rows before row `end`.
#[derive(Drop)]
pub(crate) struct Before {
    pub end: u32,
}

impl Pass for Before {
    ghost wants = { λ p t v. nat_lt v p.end };

    ghost knows = { λ p t from. p.end ≤ length (enc t) };

    fn next(&mut self, from: u32, _total: u32) -> Option<u32> {
        if from < self.end {
            return Some(from);
        }
        None
    }

    fn enter(&mut self, _seen: Seen) -> Result<(), Want> {
        Ok(())
    }
}
