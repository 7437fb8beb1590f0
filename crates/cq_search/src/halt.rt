//! Why a search stops.
use std::alloc::{AllocError, AllocFailed};

/// Why a search stops before its end: something that is counted on isn't there, or there is no memory. The former
/// never happens with a presentation over its schema, and then nothing is found.
#[derive(Clone, Copy, Debug, PartialEq, Eq)]
pub enum Halt {
    Absent,
    Memory,
}

impl From<AllocError> for Halt {
    fn from(_error: AllocError) -> Halt {
        Halt::Memory
    }
}

impl<T: Drop> From<AllocFailed<T>> for Halt {
    fn from(_error: AllocFailed<T>) -> Halt {
        Halt::Memory
    }
}
