//! A shelf and a sink in memory that never fail.
ghost use Rattle.std.specs.Prelude.{◌≡◌, ◌<◌, Some, None, length};
ghost use Rattle.io_edge.specs.Causes.{HasCause};
ghost use Rattle.io_edge.specs.Listed.{file_named, or_empty, file_at, left_at};
ghost use Rattle.io_edge.specs.Sinks.{Takes};

use crate::edge::{Failed, Shelf, Sink};
use crate::find::{find, read_next};

/// Files in memory without faults: a name that isn't there is an empty file.
#[derive(Drop)]
pub struct CalmShelf {
    files: Vec<(String, Vec<u8>)>,
    current: usize,
    at: usize,
}

impl CalmShelf {
    /// A shelf of these files; the first of a name counts.
    pub fn new(files: Vec<(String, Vec<u8>)>) -> CalmShelf
        ensures files { ⟦<CalmShelf as Shelf>⟧.files result ≡ Some (λ name. Some (or_empty (file_named files.items name))) }
        ensures faults { ⟦<CalmShelf as Shelf>⟧.faults result ≡ 0 }
    {
        let current = files.len();
        CalmShelf {
            files,
            current,
            at: 0,
        }
    }
}

impl Shelf for CalmShelf {
    ghost files = { λ s. Some (λ name. Some (or_empty (file_named s.files.items name))) };

    ghost left = { λ s. Some (left_at s.files.items s.current s.at) };

    ghost asked = { λ s. None };

    ghost faults = { λ s. 0 };

    fn open(&mut self, name: &str) -> Result<(), Failed> {
        self.current = find(self.files.as_slice(), name);
        self.at = 0;
        Ok(())
    }

    fn read(&mut self, buf: &mut [u8]) -> Result<usize, Failed> {
        Ok(read_next(
            self.files.as_slice(),
            self.current,
            &mut self.at,
            buf,
            usize::MAX,
        ))
    }
}

/// A sink that takes each piece whole and keeps nothing.
#[derive(Drop)]
pub struct CalmSink;

impl CalmSink {
    /// A sink.
    pub fn new() -> CalmSink
        ensures taken { ⟦<CalmSink as Sink>⟧.taken result ≡ None }
        ensures faults { ⟦<CalmSink as Sink>⟧.faults result ≡ 0 }
    {
        CalmSink
    }
}

impl Sink for CalmSink {
    ghost taken = { λ s. None };

    ghost faults = { λ s. 0 };

    fn write(&mut self, piece: &[u8]) -> Result<usize, Failed>
        requires { 0 < length piece.now }
        ensures bytes { Takes (⟦<CalmSink as Sink>⟧.taken self.old) (⟦<CalmSink as Sink>⟧.taken self.new) piece.now result }
        ensures cause { HasCause (⟦<CalmSink as Sink>⟧.faults self.old) (⟦<CalmSink as Sink>⟧.faults self.new) result }
        ensures all { result ≡ Ok (length piece.now) }
    {
        Ok(piece.len())
    }
}
