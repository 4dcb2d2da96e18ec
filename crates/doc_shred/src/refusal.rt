//! Why a document is refused.
ghost use Rattle.std.specs.Prelude.{◌≡◌};
ghost use Rattle.doc_shred.specs.Refusals.{refusal_of};

use crate::fault::Fault;
use thiserror::Error;

/// Why bytes give no fragment.
#[derive(Clone, Copy, Debug, Drop, PartialEq, Eq, Error)]
pub enum ShredFault {
    /// The bytes are no document of XML 1.0.
    #[error("not well-formed")]
    NotWellFormed,
    /// The document names another encoding than UTF-8 or US-ASCII, or has an internal subset.
    #[error("unsupported")]
    Unsupported,
    /// A node's level passes 65,535.
    #[error("too deep")]
    TooDeep,
    /// Memory is wanting.
    #[error("want of memory")]
    NoMemory,
}

/// The refusal that a fault of reading becomes.
pub fn refusal(fault: Fault) -> ShredFault
    ensures { result ≡ refusal_of fault }
{
    match fault {
        Fault::Memory => ShredFault::NoMemory,
        Fault::Malformed => ShredFault::NotWellFormed,
    }
}
