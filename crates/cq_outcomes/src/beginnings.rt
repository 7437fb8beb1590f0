//! The beginnings of a program, as files that were cut have them.
//!
//! Each is run, from the empty one to the whole. It is accepted where it ends with a declaration, or with the end of
//! the line behind one; each other one has no token or no declaration at some place.
use crate::case::{outcome_of_text, program, words_of};
use crate::entry::Entry;
use crate::tally::Tally;
use std::alloc::{AllocError, Global};

/// What is told of a beginning that ends with a declaration.
const ACCEPTED: &str = "accepted";

/// What is told of each other one.
const BROKEN: &str = "no token or no declaration";

/// Tries each beginning of the program of an entry.
pub fn try_beginnings(
    alloc: Global,
    entry: Entry<'_>,
    tally: &mut Tally,
) -> Result<(), AllocError> {
    let text = program(alloc, entry)?;
    for length in 0..=text.len() {
        if let Some(beginning) = text.as_str().get(..length) {
            try_beginning(alloc, entry, beginning, tally)?;
        }
    }
    Ok(())
}

/// Tries a beginning.
fn try_beginning(
    alloc: Global,
    entry: Entry<'_>,
    beginning: &str,
    tally: &mut Tally,
) -> Result<(), AllocError> {
    let words = words_of(alloc, entry.words())?;
    let came = outcome_of_text(alloc, entry.devices(), words.as_slice(), beginning)?;
    let told = if ends_whole(beginning) {
        ACCEPTED
    } else {
        BROKEN
    };
    tally.add(alloc, beginning, told, judged(came.as_str()))
}

/// Whether a beginning ends with a declaration.
fn ends_whole(beginning: &str) -> bool {
    beginning.is_empty() || beginning.ends_with(" }") || beginning.ends_with(" }\n")
}

/// What became of a beginning, in the words in which it is told.
fn judged(came: &str) -> &str {
    if came.starts_with("ok\n") {
        ACCEPTED
    } else if came.starts_with("refused\n") && is_broken(came) {
        BROKEN
    } else {
        came
    }
}

/// Whether what is written ends so that a token or a declaration is wanted.
fn is_broken(came: &str) -> bool {
    came.ends_with(" 11 BadByte\n") || came.ends_with(" 21 Syntax\n")
}
