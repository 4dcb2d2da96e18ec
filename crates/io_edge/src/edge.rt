//! What a shelf of files and a sink of bytes promise.
ghost use Rattle.std.specs.Prelude.{◌≡◌, ◌<◌, List, ℕ, Option, length};
ghost use Rattle.io_edge.specs.Causes.{HasCause};
ghost use Rattle.io_edge.specs.Shelves.{Opens, Asks, Reads};
ghost use Rattle.io_edge.specs.Sinks.{Takes};

/// A call on a shelf or a sink failed. The object has counted the fault.
#[derive(Clone, Copy, Debug, PartialEq, Eq)]
pub struct Failed;

/// Files by name, one of them open at a time.
pub trait Shelf {
    /// The bytes of each name that has a file, where the shelf tells its files.
    ghost files: { Self → Option (List ℕ → Option (List ℕ)) };

    /// What is left of the open file, where the shelf tells it.
    ghost left: { Self → Option (List ℕ) };

    /// The names asked for so far, where the shelf tells them.
    ghost asked: { Self → Option (List (List ℕ)) };

    /// The faults counted so far.
    ghost faults: { Self → ℕ };

    /// Opens the file of this name, so that the whole file is what is left, and appends the name to
    /// those asked for. `Failed` only where a fault is counted; the name may then be left out. A shelf
    /// that tells its files fails where it has none of this name.
    fn open(&mut self, name: &str) -> Result<(), Failed>
        ensures files { files self.new ≡ files self.old }
        ensures left { Opens (files self.old) (left self.new) name.now result }
        ensures asked { Asks (asked self.old) (asked self.new) name.now result }
        ensures cause { HasCause (faults self.old) (faults self.new) result };

    /// Takes the next bytes of what is left into the front of `buf`, which isn't empty, and answers
    /// their number, 0 only where nothing is left. `Failed` only where a fault is counted; what is left
    /// is then not known until the next `open`.
    fn read(&mut self, buf: &mut [u8]) -> Result<usize, Failed>
        requires { 0 < length buf.old }
        ensures files { files self.new ≡ files self.old }
        ensures asked { asked self.new ≡ asked self.old }
        ensures bytes { Reads (left self.old) (left self.new) result buf.new }
        ensures cause { HasCause (faults self.old) (faults self.new) result };
}

/// What takes bytes.
pub trait Sink {
    /// The bytes taken so far, where the sink tells them.
    ghost taken: { Self → Option (List ℕ) };

    /// The faults counted so far.
    ghost faults: { Self → ℕ };

    /// Takes a prefix of at least one byte of `piece`, which isn't empty, and answers its length.
    /// `Failed` only where a fault is counted; nothing is taken then.
    fn write(&mut self, piece: &[u8]) -> Result<usize, Failed>
        requires { 0 < length piece.now }
        ensures bytes { Takes (taken self.old) (taken self.new) piece.now result }
        ensures cause { HasCause (faults self.old) (faults self.new) result };
}
