//! Why the fast path stops without a value.
use std::alloc::{AllocError, AllocFailed};

/// Why a text was not read.
#[derive(Drop)]
pub(crate) enum Stop {
    /// The text has a form that the fast path does not support. It may be valid JSON or not.
    Unsupported,
    OutOfMemory,
}

impl From<AllocError> for Stop {
    fn from(_refused: AllocError) -> Stop {
        Stop::OutOfMemory
    }
}

impl<T: Drop> From<AllocFailed<T>> for Stop {
    fn from(_refused: AllocFailed<T>) -> Stop {
        Stop::OutOfMemory
    }
}
