//! Why a query has no Core.
ghost use Rattle.std.specs.Prelude.{◌≡◌};
ghost use Rattle.core_normal.specs.declared.fault.NormFault.TheVariants.{NoMemory};

use std::alloc::{AllocError, AllocFailed};
use xq_base::Want;

/// Why a query has no Core: its nodes and levels where they are more than the limits, or want of memory.
#[derive(Clone, Copy, Debug, PartialEq, Eq)]
pub enum NormFault {
    TooLarge { nodes: u64, levels: u64 },
    NoMemory,
}

impl From<AllocError> for NormFault {
    ghost from_gives = { λ _ e. e ≡ NoMemory };

    fn from(_e: AllocError) -> NormFault {
        NormFault::NoMemory
    }
}

impl<T: Drop> From<AllocFailed<T>> for NormFault {
    ghost from_gives = { λ _ e. e ≡ NoMemory };

    fn from(_e: AllocFailed<T>) -> NormFault {
        NormFault::NoMemory
    }
}

impl From<Want> for NormFault {
    ghost from_gives = { λ _ e. e ≡ NoMemory };

    fn from(_e: Want) -> NormFault {
        NormFault::NoMemory
    }
}
