//! Reading the rows of a context and their children: child.
ghost use Rattle.std.specs.Prelude.{◌≡◌, ◌||◌, OnOk};
ghost use Rattle.doc_table.specs.Enc.{enc};
ghost use Rattle.doc_table.specs.Places.{child};
ghost use Rattle.staircase.specs.Ahead.{any, has, rest_of};
ghost use Rattle.staircase.specs.Frames.{next_of, with_frame, KidsAhead};

use crate::ahead::Ahead;
use crate::frames::{Frame, Frames, advance, finish};
use crate::read::Pass;
use crate::seen::Seen;
use xq_base::Want;

/// The rows of a context and their children.
#[derive(Drop)]
pub(crate) struct Kids<'a> {
    pub ahead: Ahead<'a>,
    pub frames: Frames<Frame>,
}

/// The next row: a child, or a row of the context.
fn next_kid(frames: &Frames<Frame>, first: Option<u32>) -> Option<u32>
    ensures { result ≡ next_of frames.now first }
{
    match frames.top() {
        None => first,
        Some(f) => match first {
            None => Some(f.child),
            Some(at) => Some(at.min(f.child)),
        },
    }
}

/// Adds a frame, where there is to be one.
fn enter_frame(is_context: bool, frame: Frame, frames: &mut Frames<Frame>) -> Result<(), Want>
    ensures { OnOk result (frames.new ≡ with_frame is_context frame frames.old) }
{
    if !is_context {
        return Ok(());
    }
    frames.push(frame)
}

impl<'a> Pass for Kids<'a> {
    ghost wants = { λ p t v. has v p.ahead.rows.now || any (λ c. child (enc t) c v) p.ahead.rows.now };

    ghost knows = { λ p t from. KidsAhead (enc t) p.ahead.rows.now (rest_of p.ahead) p.frames from };

    fn next(&mut self, _from: u32, _total: u32) -> Option<u32> {
        finish(&mut self.frames);
        next_kid(&self.frames, self.ahead.first())
    }

    fn enter(&mut self, seen: Seen) -> Result<(), Want> {
        finish(&mut self.frames);
        advance(seen.pre, seen.last, &mut self.frames)?;
        let is_context = self.ahead.pass(seen.pre);
        let frame = Frame {
            pre: seen.pre,
            child: seen.pre + 1,
            last: seen.last,
        };
        enter_frame(is_context, frame, &mut self.frames)
    }
}
