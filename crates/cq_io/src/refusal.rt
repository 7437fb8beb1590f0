//! Why a file was not read, or not taken.

use thiserror::Error;

/// Why a file was not read.
#[derive(Clone, Copy, Debug, PartialEq, Eq, Error)]
pub enum ReadRefusal {
    #[error("there is no such file")]
    Absent,
    #[error("the file is too long")]
    TooLong,
    #[error("the file could not be read")]
    Failed,
    #[error("out of memory")]
    Memory,
}

/// Why a file was not taken.
#[derive(Clone, Copy, Debug, PartialEq, Eq, Error)]
pub enum PutRefusal {
    #[error("the file could not be written")]
    Failed,
    #[error("out of memory")]
    Memory,
}
