//! Why a folder is not imported.
ghost use Rattle.std.specs.Prelude.{◌≡◌};

use std::alloc::AllocError;
use thiserror::Error;

/// Why a folder of CSV files is not imported: the name of the file, and the numbers of the record and of the column
/// in it, from 1. The header is no record.
#[derive(Debug, Drop, Error)]
pub enum CsvRefusal {
    #[error("{0} is absent")]
    Absent(String),
    #[error("{0} could not be read")]
    ReadFault(String),
    /// The file has over 64 MiB.
    #[error("{0} is too long")]
    TooLong(String),
    /// The record has another number of fields than the header, or a field that isn't UTF-8.
    #[error("{0}: record {1} has wrong fields")]
    NotCsv(String, u32),
    #[error("{0} has another header")]
    BadHeader(String),
    #[error("{0}: record {1}, column {2} has no meaning")]
    BadCell(String, u32, u32),
    #[error("{0}: the id of record {1} stands before")]
    DoubleId(String, u32),
    #[error("{0}: record {1}, column {2} has an id that doesn't stand")]
    NoSuchId(String, u32, u32),
    /// There would be over 16,000,000 generators.
    #[error("there are too many records")]
    TooLarge,
    #[error("out of memory")]
    Memory,
}

impl From<AllocError> for CsvRefusal {
    ghost use Rattle.cq_import.specs.declared.refusal.CsvRefusal.TheVariants.{Memory};

    ghost from_gives = { λ _ e. e ≡ Memory };

    fn from(_error: AllocError) -> CsvRefusal {
        CsvRefusal::Memory
    }
}
