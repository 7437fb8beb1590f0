//! Rows of questions about the program of the head, each with its answer.
//!
//! A row is an instance and two terms, and ` => ` and the line that is written. A term may be empty.
//!
//!     -- questions
//!     I; a; b => different 1 2
//!     J; a; b => refused 1:1 37 NoInstance
//!
//! A part `-- leaf zero` in front of them says what `$` is a sum of, as it does for `rows`.
use crate::case::outcome_of_text;
use crate::entry::{Entry, cut};
use crate::repeated::filled;
use crate::tally::Tally;
use std::alloc::{AllocError, Global};

/// Tries a question.
pub fn try_question(
    alloc: Global,
    entry: Entry<'_>,
    row: &str,
    tally: &mut Tally,
) -> Result<(), AllocError> {
    let (question, answer) = cut(row, " => ");
    let told = told_by(alloc, entry, answer)?;
    let came = answer_to(alloc, entry, question)?;
    tally.add(alloc, row, told.as_str(), came.as_str())
}

/// What an answer tells, with its status.
fn told_by(alloc: Global, entry: Entry<'_>, answer: &str) -> Result<String, AllocError> {
    let status = if answer.starts_with("refused ") {
        "refused"
    } else {
        "ok"
    };
    let answer = filled(alloc, answer, entry.part("leaf").rest)?;
    format!(in alloc; "{status}\n{answer}\n")
}

/// What is answered to a question.
pub fn answer_to(alloc: Global, entry: Entry<'_>, question: &str) -> Result<String, AllocError> {
    let question = filled(alloc, question, entry.part("leaf").rest)?;
    let words = asking(alloc, question.as_str())?;
    outcome_of_text(alloc, entry.devices(), words.as_slice(), entry.head)
}

/// The words that ask a question.
fn asking(alloc: Global, question: &str) -> Result<Vec<String>, AllocError> {
    let (instance, terms) = cut(question, "; ");
    let (left, right) = cut(terms, "; ");
    words(alloc, &["explain", "p.cql", instance, left, right])
}

/// These words, of which some may be empty or have blanks.
fn words(alloc: Global, texts: &[&str]) -> Result<Vec<String>, AllocError> {
    let mut words = Vec::new(alloc);
    for text in texts {
        words.push(String::from_str(alloc, text)?)?;
    }
    Ok(words)
}
