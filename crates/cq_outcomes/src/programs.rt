//! Texts that are programs, each in a line: they are read as such, whatever they mean.
//!
//!     -- programs
//!     options prover = auto timeout = "5"
use crate::repeated::written_out;
use crate::tally::Tally;
use cq_lex::lex;
use cq_parse::parse;
use std::alloc::{AllocError, Global};

/// What is told of each.
const PROGRAM: &str = "a program";

/// Tries a text.
pub fn try_program(alloc: Global, row: &str, tally: &mut Tally) -> Result<(), AllocError> {
    let text = written_out(alloc, row)?;
    let came = if is_program(alloc, text.as_str()) {
        PROGRAM
    } else {
        "no program"
    };
    tally.add(alloc, row, PROGRAM, came)
}

/// Whether a text is read as a program.
fn is_program(alloc: Global, text: &str) -> bool {
    if text.len() > 8388608 {
        return false;
    }
    let Ok(tokens) = lex(alloc, text.as_bytes()) else {
        return false;
    };
    parse(alloc, tokens.as_slice()).is_ok()
}
