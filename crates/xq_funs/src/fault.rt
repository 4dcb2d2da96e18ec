//! Why a call has no value.
use std::alloc::{AllocError, AllocFailed};
use thiserror::Error;
use xq_base::{Code, Want};

/// Why a call has no value.
#[derive(Debug, Drop, Error)]
pub enum FunFault {
    /// The function has this code for these arguments.
    #[error("the call fails")]
    Code(Code),
    #[error("want of memory")]
    NoMemory,
}
