//! Which calls on an object in memory fail, and how many bytes one passes.
ghost use Rattle.std.specs.Prelude.{◌≡◌, ◌≤◌};

/// The most bytes of a call, the numbers of the calls that fail, and the calls made so far.
#[derive(Drop)]
pub struct Course {
    pub piece: usize,
    pub failing: Vec<u64>,
    pub calls: u64,
    ghost some: { 1 ≤ piece },
}

impl Course {
    /// No call was made yet.
    pub fn new(piece: usize, failing: Vec<u64>) -> Course
        requires { 1 ≤ piece }
        ensures piece { result.piece ≡ piece }
        ensures failing { result.failing ≡ failing }
        ensures calls { result.calls ≡ 0 }
    {
        Course {
            piece,
            failing,
            calls: 0,
        }
    }
}
