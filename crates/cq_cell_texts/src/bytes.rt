//! Pieces of lines.
ghost use Rattle.std.specs.Prelude.{◌<◌, ◌≤◌, length};

use itoa::Buffer;
use std::alloc::AllocError;

/// The most bytes of a cell that are shown.
const LONGEST: usize = 100;

/// Appends some texts, one behind the other.
pub fn append(texts: &[&[u8]], out: &mut Vec<u8>) -> Result<(), AllocError> {
    for text in texts {
        out.extend_from_slice(text)?;
    }
    Ok(())
}

/// Appends a number in decimal digits.
pub fn append_number(number: u64, out: &mut Vec<u8>) -> Result<(), AllocError> {
    let mut buffer = Buffer::new();
    out.extend_from_slice(buffer.format(number).as_bytes())
}

fn hex_digit(digit: u8) -> u8
    requires { digit < 16 }
{
    if digit < 10 {
        b'0' + digit
    } else {
        b'A' + (digit - 10)
    }
}

/// Appends a byte as two digits of the base 16.
pub fn append_hex(byte: u8, out: &mut Vec<u8>) -> Result<(), AllocError> {
    out.push(hex_digit(byte / 16))?;
    out.push(hex_digit(byte % 16))?;
    Ok(())
}

/// Appends a byte by its number.
fn append_code(byte: u8, out: &mut Vec<u8>) -> Result<(), AllocError> {
    out.extend_from_slice(b"\\x")?;
    append_hex(byte, out)
}

/// Appends the letter that a byte is in ISO 8859-1, if it is one beyond ASCII.
pub fn append_latin(byte: u8, out: &mut Vec<u8>) -> Result<(), AllocError> {
    if byte < 0xA0 {
        return Ok(());
    }
    let letter = [0xC0 | (byte >> 6), 0x80 | (byte & 0x3F)];
    append(&[b", \"", letter.as_slice(), b"\" in ISO 8859-1"], out)
}

/// Appends a byte as it is, or where it would end the line or leave it as what a user would type for it. A double quote
/// is doubled, as in a cell of CSV.
fn append_byte(byte: u8, out: &mut Vec<u8>) -> Result<(), AllocError> {
    match byte {
        b'"' => out.extend_from_slice(b"\"\"")?,
        b'\n' => out.extend_from_slice(b"\\n")?,
        b'\r' => out.extend_from_slice(b"\\r")?,
        b'\t' => out.extend_from_slice(b"\\t")?,
        0..=31 | 127 => append_code(byte, out)?,
        _ => out.push(byte)?,
    }
    Ok(())
}

/// How many bytes of a text are shown: at most 100, and whole letters.
fn shown_length(text: &[u8]) -> usize
    ensures { result ≤ length text.now }
{
    if text.len() <= LONGEST {
        return text.len();
    }
    for length in (0..LONGEST).rev() {
        // no byte in the middle of a letter
        if text[length] & 0xC0 != 0x80 {
            return length;
        }
    }
    LONGEST
}

/// Appends the bytes of a text that are letters of UTF-8, and each other one by its number.
fn append_letters(text: &[u8], out: &mut Vec<u8>) -> Result<(), AllocError> {
    let length = shown_length(text);
    let whole = str::from_utf8(text).is_ok();
    for byte in &text[..length] {
        if whole || *byte < 128 {
            append_byte(*byte, out)?;
        } else {
            append_code(*byte, out)?;
        }
    }
    if length < text.len() {
        out.extend_from_slice(b" ..")?;
    }
    Ok(())
}

/// Appends a text between double quotes, as CSV has it.
pub fn append_quoted(text: &[u8], out: &mut Vec<u8>) -> Result<(), AllocError> {
    out.extend_from_slice(b"\"")?;
    append_letters(text, out)?;
    out.extend_from_slice(b"\"")
}

/// Appends a cell as it stands in a record: a comma, a double quote or an end of line in it asks for quotes around it.
pub fn append_cell(cell: &[u8], out: &mut Vec<u8>) -> Result<(), AllocError> {
    if cell
        .iter()
        .any(|byte| matches!(*byte, b',' | b'"' | b'\n' | b'\r'))
    {
        append_quoted(cell, out)
    } else {
        append_letters(cell, out)
    }
}
