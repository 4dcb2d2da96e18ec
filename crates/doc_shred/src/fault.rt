//! Why there is no fragment.
use std::alloc::{AllocError, AllocFailed};
use xq_base::Want;

/// Why a part of a document isn't read.
#[derive(Clone, Copy, Debug, PartialEq, Eq)]
pub enum Fault {
    Memory,
    Malformed,
}

impl From<AllocError> for Fault {
    ghost use Rattle.std.specs.Prelude.{◌≡◌};
    ghost use Rattle.doc_shred.specs.declared.fault.Fault.TheVariants.{Memory};

    ghost from_gives = { λ _ e. e ≡ Memory };

    fn from(_e: AllocError) -> Fault {
        Fault::Memory
    }
}

impl<T: Drop> From<AllocFailed<T>> for Fault {
    ghost use Rattle.std.specs.Prelude.{◌≡◌};
    ghost use Rattle.doc_shred.specs.declared.fault.Fault.TheVariants.{Memory};

    ghost from_gives = { λ _ e. e ≡ Memory };

    fn from(_e: AllocFailed<T>) -> Fault {
        Fault::Memory
    }
}

impl From<Want> for Fault {
    ghost use Rattle.std.specs.Prelude.{◌≡◌};
    ghost use Rattle.doc_shred.specs.declared.fault.Fault.TheVariants.{Memory};

    ghost from_gives = { λ _ e. e ≡ Memory };

    fn from(_e: Want) -> Fault {
        Fault::Memory
    }
}
