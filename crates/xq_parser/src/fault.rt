//! Why there is no tree.
ghost use Rattle.std.specs.Prelude.{◌≡◌};
ghost use Rattle.xq_parser.specs.declared.fault.ParseFault.TheVariants.{NoMemory};

use std::alloc::{AllocError, AllocFailed};

/// Why a text isn't read as a query.
#[derive(Clone, Copy, Debug, PartialEq, Eq)]
pub enum ParseFault {
    /// Memory ran out.
    NoMemory,
    /// The text is no query.
    Syntax,
    /// At this place a level too many is due.
    TooDeep(usize),
    /// At this place a construct begins that is left out.
    LeftOut(usize),
}

impl From<AllocError> for ParseFault {
    ghost from_gives = { λ _ e. e ≡ NoMemory };

    fn from(_e: AllocError) -> ParseFault {
        ParseFault::NoMemory
    }
}

impl<T: Drop> From<AllocFailed<T>> for ParseFault {
    ghost from_gives = { λ _ e. e ≡ NoMemory };

    fn from(_e: AllocFailed<T>) -> ParseFault {
        ParseFault::NoMemory
    }
}
