//! A sink in memory, some of whose calls fail.
ghost use Rattle.std.specs.Prelude.{◌≡◌, ◌≤◌, ◌<◌, [], Some, length, IfOk};
ghost use Rattle.io_edge.specs.Causes.{HasCause};
ghost use Rattle.io_edge.specs.Memory.{Goes, Starts, sink_course};
ghost use Rattle.io_edge.specs.Sinks.{Takes};

use crate::course::Course;
use crate::edge::{Failed, Sink};
use std::alloc::Global;

/// A sink in memory, some of whose calls fail.
#[derive(Drop)]
pub struct MemSink {
    taken: Vec<u8>,
    course: Course,
    faults: u64,
}

impl MemSink {
    /// A sink that has taken nothing. A call takes at most `piece` bytes, at least 1. Calls are numbered
    /// from 1, and those in `failing` fail.
    pub fn new(alloc: Global, piece: usize, failing: Vec<u64>) -> MemSink
        requires { 1 ≤ piece }
        ensures taken { ⟦<MemSink as Sink>⟧.taken result ≡ Some [] }
        ensures faults { ⟦<MemSink as Sink>⟧.faults result ≡ 0 }
        ensures course { Starts (sink_course result) piece failing.items }
    {
        MemSink {
            taken: Vec::new(alloc),
            course: Course::new(piece, failing),
            faults: 0,
        }
    }

    /// The bytes taken so far.
    pub fn taken(&self) -> &[u8]
        ensures { ⟦<MemSink as Sink>⟧.taken self.now ≡ Some result.now }
    {
        self.taken.as_slice()
    }
}

impl Sink for MemSink {
    ghost taken = { λ s. Some s.taken.items };

    ghost faults = { λ s. s.faults };

    fn write(&mut self, piece: &[u8]) -> Result<usize, Failed>
        requires { 0 < length piece.now }
        ensures bytes { Takes (⟦<MemSink as Sink>⟧.taken self.old) (⟦<MemSink as Sink>⟧.taken self.new) piece.now result }
        ensures cause { HasCause (⟦<MemSink as Sink>⟧.faults self.old) (⟦<MemSink as Sink>⟧.faults self.new) result }
        ensures course { Goes (sink_course self.old) (sink_course self.new) result }
        ensures piece { IfOk result (λ count. count ≤ (sink_course self.old).piece) }
    {
        let fails = self.course.next_fails();
        let count = piece.len().min(self.course.piece);
        if fails || self.taken.extend_from_slice(&piece[..count]).is_err() {
            self.faults = self.faults.saturating_add(1);
            return Err(Failed);
        }
        Ok(count)
    }
}
