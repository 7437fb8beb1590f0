//! Cases of `cqlwhy`: what it tells of files in memory.
//!
//! Its words are those of a run, without `run` in front of them.
//!
//!     -- why refused
//!     refused 3:10 31 Duplicate
//!     3 | typeside S = literal { }
//!       |          ^
//!     The name "S" is declared already.
use crate::case::{ended, files_of, told_by, words_of};
use crate::entry::{Entry, Part, cut};
use crate::tally::Tally;
use cq_io::{Folder, Listing, MemFolder, MemSink, Sink};
use cq_run::Status;
use cq_why::why;
use std::alloc::{AllocError, Global};

/// Tries the case of an entry, of which a part says what is told.
pub fn try_why(
    alloc: Global,
    entry: Entry<'_>,
    part: Part<'_>,
    tally: &mut Tally,
) -> Result<(), AllocError> {
    let (status, _) = cut(part.rest, " ");
    let told = told_by(alloc, status, part)?;
    let came = came(alloc, entry)?;
    tally.add(alloc, entry.title(), told.as_str(), came.as_str())
}

/// What is told of the files of an entry, behind the name of its status.
fn came(alloc: Global, entry: Entry<'_>) -> Result<String, AllocError> {
    let devices = entry.devices();
    let (_, asked) = cut(entry.words(), " ");
    let words = words_of(alloc, asked)?;
    let files = files_of(alloc, entry)?;
    let mut folder = MemFolder::new(alloc, files, devices.failing(alloc, "reads")?)?;
    let mut out = MemSink::new(alloc, devices.failing(alloc, "writes")?, devices.room)?;
    let status = tell(alloc, words.as_slice(), &mut folder, &mut out);
    ended(alloc, status, out.bytes())
}

/// Tells why, and answers the status. Its caller sees no clause: it only compares what is told.
pub fn tell<F: Folder + Listing, K: Sink>(
    alloc: Global,
    words: &[String],
    folder: &mut F,
    out: &mut K,
) -> Status {
    why(alloc, words, folder, out)
}
