//! The rows of a context whose children are being read.
ghost use Rattle.std.specs.Prelude.{◌≡◌, ◌<◌, ◌-◌, ◌^◌, ◌∷◌, [], OnOk};
ghost use Rattle.staircase.specs.Frames.{advanced, first_frame, rest_frames, unfinished};

use std::alloc::Global;
use std::marker::Model;
use xq_base::Want;

/// A row of the context whose children are being read: the next child, and the row's last row.
#[derive(Clone, Copy, Debug, PartialEq, Eq)]
pub(crate) struct Frame {
    pub pre: u32,
    pub child: u32,
    pub last: u32,
}

/// Frames, the innermost one first.
#[derive(Drop)]
pub(crate) struct Frames<F: Copy> {
    frames: Vec<F>,
}

impl<F: Copy> Model for Frames<F> {
    ghost use Rattle.std.specs.Prelude.{List, reverse};

    ghost Value = { List F };

    ghost view = { λ o. reverse o.frames.items };
}

impl<F: Copy> Frames<F> {
    /// No frames.
    pub fn new(alloc: Global) -> Frames<F>
        ensures { result ≡ [] }
    {
        Frames {
            frames: Vec::new(alloc),
        }
    }

    /// Adds an innermost frame.
    pub fn push(&mut self, frame: F) -> Result<(), Want>
        ensures { OnOk result (self.new ≡ frame ∷ self.old) }
    {
        if self.frames.push(frame).is_err() {
            return Err(Want);
        }
        Ok(())
    }

    /// The innermost frame.
    pub fn top(&self) -> Option<F>
        ensures { result ≡ first_frame self.now }
    {
        self.frames.last().copied()
    }

    /// Removes the innermost frame.
    pub fn drop_top(&mut self)
        ensures { self.new ≡ rest_frames self.old }
    {
        self.frames.pop();
    }
}

/// Removes the inner frames that have no child left.
pub(crate) fn finish(frames: &mut Frames<Frame>)
    ensures { frames.new ≡ unfinished frames.old }
{
    loop {
        match frames.top() {
            None => {
                return;
            }
            Some(f) => {
                if f.child <= f.last {
                    return;
                }
                frames.drop_top();
            }
        }
    }
}

/// Moves the innermost frame past row `at`, which ends at `last`, where it is the next child.
pub(crate) fn advance(at: u32, last: u32, frames: &mut Frames<Frame>) -> Result<(), Want>
    requires last { last < 2 ^ 32 - 1 }
    ensures { OnOk result (frames.new ≡ advanced at last frames.old) }
{
    match frames.top() {
        None => Ok(()),
        Some(f) => {
            if f.child != at {
                return Ok(());
            }
            frames.drop_top();
            frames.push(Frame {
                pre: f.pre,
                child: last + 1,
                last: f.last,
            })?;
            Ok(())
        }
    }
}
