//! Why the program ends without a line for each axis.
ghost use Rattle.std.specs.Prelude.{◌≡◌};
ghost use Rattle.step_bench.specs.Fault.{code_of};

use doc_shred::ShredFault;
use std::alloc::{AllocError, AllocFailed};
use xq_base::Want;

/// Why the program ends without a line for each axis.
#[derive(Clone, Copy, Debug, Drop, PartialEq, Eq)]
pub enum Fault {
    /// The document is refused.
    Refused(ShredFault),
    /// The standard input gave an error.
    Read,
    /// The standard output gave an error.
    Write,
    /// A word is no axis.
    Usage,
    /// Want of memory.
    NoMemory,
    /// The document has too many bytes.
    TooLarge,
}

impl Fault {
    /// The exit status of the program.
    pub fn code(self) -> u8
        ensures { result ≡ code_of self }
    {
        match self {
            Fault::Refused(ShredFault::NoMemory) | Fault::NoMemory => 7,
            Fault::Refused(_) => 3,
            Fault::Read => 4,
            Fault::Write => 5,
            Fault::Usage => 6,
            Fault::TooLarge => 9,
        }
    }

    /// The line on the error output.
    pub fn line(self) -> &'static [u8] {
        match self {
            Fault::Refused(ShredFault::NotWellFormed) => b"the document is not well-formed\n",
            Fault::Refused(ShredFault::Unsupported) => b"the document is unsupported\n",
            Fault::Refused(ShredFault::TooDeep) => b"the document is too deep\n",
            Fault::Refused(ShredFault::NoMemory) | Fault::NoMemory => b"want of memory\n",
            Fault::Read => b"read fault\n",
            Fault::Write => b"write fault\n",
            Fault::Usage => b"usage: step_bench [AXIS]... <DOCUMENT\n",
            Fault::TooLarge => b"too large: more than 67,108,864 bytes\n",
        }
    }
}

impl From<Want> for Fault {
    fn from(_e: Want) -> Fault {
        Fault::NoMemory
    }
}

impl From<AllocError> for Fault {
    fn from(_e: AllocError) -> Fault {
        Fault::NoMemory
    }
}

impl<T: Drop> From<AllocFailed<T>> for Fault {
    fn from(_e: AllocFailed<T>) -> Fault {
        Fault::NoMemory
    }
}

impl From<ShredFault> for Fault {
    fn from(e: ShredFault) -> Fault {
        Fault::Refused(e)
    }
}
