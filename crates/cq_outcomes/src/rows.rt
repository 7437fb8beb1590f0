//! Rows of texts, each with what is told of it.
//!
//! A row is what is told, `| ` and a text: of a text that is refused it is told where `^` stands, or at the start of
//! its line where there is none. Where nothing is told the text is accepted.
//!
//!     -- front mapping F = literal :
//!     -- rows
//!     | S -> R { entity E -> G entity F -> H }
//!     42 Unknown| S -> R { ^entity Q -> G }
//!     47 Missing E| S -> R { }
//!
//! Parts of the same entry, in front of the rows, say more:
//! - `-- front mapping F = literal :`: what each text begins with, and a blank behind it;
//! - `-- listed`: what is written of each text that is accepted;
//! - `-- leaf zero`: a term: `$` in a text stands for the sum of 256 of these (see `repeated`).
use crate::case::{outcome_of_text, told_by, words_of};
use crate::entry::{Entry, cut};
use crate::repeated::filled;
use crate::tally::Tally;
use std::alloc::{AllocError, Global};

/// Tries a row.
pub fn try_row(
    alloc: Global,
    entry: Entry<'_>,
    row: &str,
    tally: &mut Tally,
) -> Result<(), AllocError> {
    let (told, text) = cut(row, "| ");
    let front = front_of(alloc, entry)?;
    let text = filled(alloc, text, entry.part("leaf").rest)?;
    let told = wanted(alloc, entry, told, column(front.as_str(), text.as_str()))?;
    let came = came(alloc, entry, front.as_str(), text.as_str())?;
    tally.add(alloc, row, told.as_str(), came.as_str())
}

/// What the texts of an entry begin with.
fn front_of(alloc: Global, entry: Entry<'_>) -> Result<String, AllocError> {
    let front = entry.part("front").rest;
    if front.is_empty() {
        Ok(String::new(alloc))
    } else {
        format!(in alloc; "{front} ")
    }
}

/// The column of the mark of a text, or the first one.
fn column(front: &str, text: &str) -> usize {
    match text.split_once("^") {
        Some((before, _)) => front.len().saturating_add(before.len()).saturating_add(1),
        None => 1,
    }
}

/// What is told of a text, with its status.
fn wanted(
    alloc: Global,
    entry: Entry<'_>,
    told: &str,
    column: usize,
) -> Result<String, AllocError> {
    if told.is_empty() {
        return told_by(alloc, "ok", entry.part("listed"));
    }
    let line = entry.head.lines().count().saturating_add(1);
    format!(in alloc; "refused\nrefused {line}:{column} {told}\n")
}

/// What becomes of a text, without its mark.
fn came(alloc: Global, entry: Entry<'_>, front: &str, text: &str) -> Result<String, AllocError> {
    let (before, behind) = cut(text, "^");
    let text = format!(in alloc; "{}{front}{before}{behind}", entry.head)?;
    let words = words_of(alloc, entry.words())?;
    outcome_of_text(alloc, entry.devices(), words.as_slice(), text.as_str())
}
