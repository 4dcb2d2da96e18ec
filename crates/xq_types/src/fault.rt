//! Why a Core has no type.
ghost use Rattle.std.specs.Prelude.{◌≡◌};
ghost use Rattle.xq_types.specs.declared.fault.TypeFault.TheVariants.{NoMemory};

use std::alloc::{AllocError, AllocFailed};

/// Why a Core has no type: the place of the first node that is refused, or want of memory.
#[derive(Clone, Copy, Debug, PartialEq, Eq)]
pub enum TypeFault {
    Refused { offset: u64 },
    NoMemory,
}

impl From<AllocError> for TypeFault {
    ghost from_gives = { λ _ e. e ≡ NoMemory };

    fn from(_e: AllocError) -> TypeFault {
        TypeFault::NoMemory
    }
}

impl<T: Drop> From<AllocFailed<T>> for TypeFault {
    ghost from_gives = { λ _ e. e ≡ NoMemory };

    fn from(_e: AllocFailed<T>) -> TypeFault {
        TypeFault::NoMemory
    }
}
