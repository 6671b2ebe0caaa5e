use occ_syntax::Memory;
use std::alloc::{AllocError, AllocFailed};
use thiserror::Error;

/// Why a strategy gives no steps.
#[derive(Clone, Copy, Debug, PartialEq, Eq, Error)]
pub enum Lost {
    /// The strategy has no step for a part of this form.
    #[error("no step for this part")]
    NoStep,
    /// Out of memory.
    #[error("out of memory")]
    Memory,
}

impl From<Memory> for Lost {
    fn from(_cause: Memory) -> Lost {
        Lost::Memory
    }
}

impl From<AllocError> for Lost {
    fn from(_cause: AllocError) -> Lost {
        Lost::Memory
    }
}

impl<T: Drop> From<AllocFailed<T>> for Lost {
    fn from(_cause: AllocFailed<T>) -> Lost {
        Lost::Memory
    }
}
