//! Rows of calls that fail, each with what follows.
//!
//! A row is the calls, ` => `, the status, and the exporters that are left and those that are set aside, behind `; `
//! each. What is written is `-- listed`.
//!
//!     -- faults
//!     csv 1 => write; cql I.cql; csv I/E.csv
//!     csv 0, cql 0 => write; ; csv, cql
use crate::case::{files_of, outcome, told_by, words_of};
use crate::devices::Devices;
use crate::entry::{Entry, cut};
use crate::exports::told;
use crate::tally::Tally;
use std::alloc::{AllocError, Global};

/// Tries a row.
pub fn try_fault(
    alloc: Global,
    entry: Entry<'_>,
    row: &str,
    tally: &mut Tally,
) -> Result<(), AllocError> {
    let (failing, follows) = cut(row, " => ");
    let told = follows_as(alloc, entry, follows)?;
    let came = came(alloc, entry, failing)?;
    tally.add(alloc, row, told.as_str(), came.as_str())
}

/// What is told to follow.
fn follows_as(alloc: Global, entry: Entry<'_>, follows: &str) -> Result<String, AllocError> {
    let (status, exporters) = cut(follows, "; ");
    let (left, spoiled) = cut(exporters, "; ");
    let written = told_by(alloc, status, entry.part("listed"))?;
    let exports = told(alloc, left, spoiled, "")?;
    format!(in alloc; "{written}{exports}")
}

/// What becomes of a run in which these calls fail.
fn came(alloc: Global, entry: Entry<'_>, failing: &str) -> Result<String, AllocError> {
    let devices = Devices {
        failing,
        ..entry.devices()
    };
    let words = words_of(alloc, entry.words())?;
    let files = files_of(alloc, entry)?;
    outcome(alloc, devices, words.as_slice(), files)
}
