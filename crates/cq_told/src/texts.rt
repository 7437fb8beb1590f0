//! Names and numbers, as they are filled into sentences.
use cq_base::Name;
use cq_text::push_number;
use cq_theory::value_text::push_quoted;
use std::alloc::{AllocError, Global};

/// Appends a number.
pub fn append_number(number: u64, out: &mut Vec<u8>) -> Result<(), AllocError> {
    push_number(number, out)
}

/// Appends a name between quotes.
pub fn append_name(name: &Name, out: &mut Vec<u8>) -> Result<(), AllocError> {
    push_quoted(name.as_str().as_bytes(), out)
}

/// A number as a text.
pub fn number_text(alloc: Global, number: u64) -> Result<Vec<u8>, AllocError> {
    let mut text = Vec::new(alloc);
    push_number(number, &mut text)?;
    Ok(text)
}

/// A name between quotes, as a text.
pub fn name_text(alloc: Global, name: &Name) -> Result<Vec<u8>, AllocError> {
    quoted_text(alloc, name.as_str().as_bytes())
}

/// Bytes between quotes, as a text.
pub fn quoted_text(alloc: Global, bytes: &[u8]) -> Result<Vec<u8>, AllocError> {
    let mut text = Vec::new(alloc);
    push_quoted(bytes, &mut text)?;
    Ok(text)
}

/// A list of one text.
pub fn one(alloc: Global, text: Vec<u8>) -> Result<Vec<Vec<u8>>, AllocError> {
    Ok(vec![in alloc; text]?)
}

/// A list of two texts.
pub fn two(alloc: Global, first: Vec<u8>, second: Vec<u8>) -> Result<Vec<Vec<u8>>, AllocError> {
    Ok(vec![in alloc; first, second]?)
}

/// A list of three texts.
pub fn three(
    alloc: Global,
    first: Vec<u8>,
    second: Vec<u8>,
    third: Vec<u8>,
) -> Result<Vec<Vec<u8>>, AllocError> {
    Ok(vec![in alloc; first, second, third]?)
}
