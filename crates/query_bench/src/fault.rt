//! Why the program ends without a line.
ghost use Rattle.std.specs.Prelude.{◌≡◌};
ghost use Rattle.query_bench.specs.Fault.{code_of};

/// Why the program ends without a line.
#[derive(Clone, Copy, Debug, Drop, PartialEq, Eq)]
pub enum Fault {
    /// The standard input gave an error.
    Read,
    /// The standard output gave an error.
    Write,
    /// Want of memory.
    NoMemory,
    /// The query has too many bytes.
    TooLarge,
}

impl Fault {
    /// The exit status of the program.
    pub fn code(self) -> u8
        ensures { result ≡ code_of self }
    {
        match self {
            Fault::Read => 4,
            Fault::Write => 5,
            Fault::NoMemory => 7,
            Fault::TooLarge => 9,
        }
    }

    /// The line on the error output.
    pub fn line(self) -> &'static [u8] {
        match self {
            Fault::Read => b"read fault\n",
            Fault::Write => b"write fault\n",
            Fault::NoMemory => b"want of memory\n",
            Fault::TooLarge => b"too large: more than 1,048,576 bytes\n",
        }
    }
}
