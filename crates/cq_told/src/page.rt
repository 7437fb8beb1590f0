//! A file that is explained, and what is appended of it.
use crate::texts::{append_name, append_number};
use cq_base::Place;
use cq_lex::Token;
use cq_sentences::{Code, append_filled};
use cq_syntax::{Body, Decl};
use std::alloc::{AllocError, Global};

/// The bytes and the tokens of a file.
#[derive(Clone, Copy)]
pub struct Page<'a> {
    pub text: &'a [u8],
    pub tokens: &'a [Token],
}

impl<'a> Page<'a> {
    /// The token at a place.
    pub fn token_at(self, place: Place) -> Option<&'a Token> {
        self.tokens.iter().find(|token| token.place == place)
    }

    /// The token behind the one at a place.
    pub fn token_behind(self, place: Place) -> Option<&'a Token> {
        let number = self.tokens.iter().position(|token| token.place == place)?;
        self.tokens.get(number + 1)
    }

    /// What is written of a token.
    pub fn spelling(self, token: &Token) -> &'a [u8] {
        match self.text.get(token.from as usize..token.to as usize) {
            Some(bytes) => bytes,
            None => b"",
        }
    }
}

/// Appends the sentence of a code with its texts, in a line.
pub fn append_sentence(code: Code, texts: &[&[u8]], out: &mut Vec<u8>) -> Result<(), AllocError> {
    append_filled(code.sentence(), texts, out)?;
    out.extend_from_slice(b"\n")?;
    Ok(())
}

/// Appends a line with these texts in the place of each `#`.
pub fn append_line(
    alloc: Global,
    line: &str,
    texts: &[Vec<u8>],
    out: &mut Vec<u8>,
) -> Result<(), AllocError> {
    let mut slices = Vec::new(alloc);
    for text in texts {
        slices.push(text.as_slice())?;
    }
    append_filled(line, slices.as_slice(), out)?;
    out.extend_from_slice(b"\n")?;
    Ok(())
}

/// What the line begins with that says what there is to mend.
const MEND: &[u8] = b"To mend it: ";

/// Appends what there is to mend, in a line.
pub fn append_remedy(remedy: &str, out: &mut Vec<u8>) -> Result<(), AllocError> {
    out.extend_from_slice(MEND)?;
    out.extend_from_slice(remedy.as_bytes())?;
    out.extend_from_slice(b"\n")?;
    Ok(())
}

/// Whether one of these lines says what there is to mend.
pub fn has_remedy(lines: &[u8]) -> bool {
    lines
        .split(|byte| *byte == b'\n')
        .any(|line| line.starts_with(MEND))
}

/// Appends in which declaration a place stands, where this begins on another line.
pub fn append_where(place: Place, decl: &Decl, out: &mut Vec<u8>) -> Result<(), AllocError> {
    if place.line == decl.place.line {
        return Ok(());
    }
    out.extend_from_slice(b"In the ")?;
    out.extend_from_slice(word_of(&decl.body).as_bytes())?;
    out.extend_from_slice(b" ")?;
    append_name(&decl.name, out)?;
    out.extend_from_slice(b" of line ")?;
    append_number(u64::from(decl.place.line), out)?;
    out.extend_from_slice(b":\n")?;
    Ok(())
}

/// What a declaration declares, in a word.
fn word_of(body: &Body) -> &'static str {
    match body {
        Body::Typeside(_) => "typeside",
        Body::Schema(_) => "schema",
        Body::Colimit(_) => "schema colimit",
        Body::Mapping(_) => "mapping",
        Body::Query(_) => "query",
        Body::Instance(_) => "instance",
        Body::Transform(_) => "transform",
    }
}
