//! A text that stands alone as a term, and what becomes of it.
//!
//! The lines of the part are the text, without the last end of line. What is told stands behind the part's name: the
//! place where the text is no term, and why; and nothing where it is one.
//!
//!     -- term
//!     f(a.g, "x y").h
//!     -- term 2:1 21 Syntax
//!     f(a,
//!     )
use crate::entry::Part;
use crate::repeated::written_out;
use crate::tally::Tally;
use cq_lex::lex;
use cq_parse::{ParseRefusal, parse_term};
use std::alloc::{AllocError, Global};

/// Tries the text of a part.
pub fn try_term(alloc: Global, part: Part<'_>, tally: &mut Tally) -> Result<(), AllocError> {
    let text = written_out(alloc, part.lines)?;
    let came = came(alloc, text.as_str())?;
    tally.add(alloc, text.as_str(), part.rest, came.as_str())
}

/// What becomes of a text as a term.
fn came(alloc: Global, text: &str) -> Result<String, AllocError> {
    if text.len() > 8388608 {
        return String::from_str(alloc, "too long");
    }
    let Ok(tokens) = lex(alloc, text.as_bytes()) else {
        return String::from_str(alloc, "no tokens");
    };
    match parse_term(alloc, tokens.as_slice()) {
        Ok(_) => Ok(String::new(alloc)),
        Err(refusal) => told(alloc, refusal),
    }
}

/// The place and the name of a refusal.
fn told(alloc: Global, refusal: ParseRefusal) -> Result<String, AllocError> {
    let (place, name) = match refusal {
        ParseRefusal::Syntax(place) => (place, "21 Syntax"),
        ParseRefusal::TooDeep(place) => (place, "22 TooDeep"),
        ParseRefusal::Unsupported(place, _) => (place, "23 Unsupported"),
        ParseRefusal::BadOption(place) => (place, "24 BadOption"),
        ParseRefusal::Memory => return Err(AllocError),
    };
    format!(in alloc; "{}:{} {name}", place.line, place.col)
}
