//! Why the program ends without a line for each operator.
ghost use Rattle.std.specs.Prelude.{◌≡◌};
ghost use Rattle.table_bench.specs.Fault.{code_of};

use std::alloc::{AllocError, AllocFailed};
use xq_base::Want;

/// Why the program ends without a line for each operator.
#[derive(Clone, Copy, Debug, Drop, PartialEq, Eq)]
pub enum Fault {
    /// The standard input gave an error.
    Read,
    /// The standard output gave an error.
    Write,
    /// A word is no operator.
    Usage,
    /// Want of memory.
    NoMemory,
    /// The standard input has too many bytes.
    TooLarge,
}

impl Fault {
    /// The exit status of the program.
    pub fn code(self) -> u8
        ensures { result ≡ code_of self }
    {
        match self {
            Fault::Read => 4,
            Fault::Write => 5,
            Fault::Usage => 6,
            Fault::NoMemory => 7,
            Fault::TooLarge => 9,
        }
    }

    /// The line on the error output.
    pub fn line(self) -> &'static [u8] {
        match self {
            Fault::Read => b"read fault\n",
            Fault::Write => b"write fault\n",
            Fault::Usage => b"usage: table_bench [OPERATOR]... <BYTES\n",
            Fault::NoMemory => b"want of memory\n",
            Fault::TooLarge => b"too large: more than 16,777,216 bytes\n",
        }
    }
}

impl From<Want> for Fault {
    fn from(_e: Want) -> Fault {
        Fault::NoMemory
    }
}

impl From<AllocError> for Fault {
    fn from(_e: AllocError) -> Fault {
        Fault::NoMemory
    }
}

impl<T: Drop> From<AllocFailed<T>> for Fault {
    fn from(_e: AllocFailed<T>) -> Fault {
        Fault::NoMemory
    }
}
