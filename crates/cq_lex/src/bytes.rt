//! The bytes that blanks, words and marks are made of.
ghost use Rattle.std.specs.Prelude.{◌≡◌, ◌≤◌, length};
ghost use Rattle.std.specs.List.{prefix_len};
ghost use Rattle.cq_lex.specs.Bytes as rules;
ghost use Rattle.cq_lex.specs.Place.{stays_on_line};
ghost use Rattle.cq_lex.specs.Front as found;

use crate::token::Mark;

pub(crate) fn is_blank(byte: u8) -> bool
    ensures { result ≡ rules.is_blank byte }
{
    byte == b' ' || byte == b'\t' || byte == b'\r' || byte == b'\n'
}

pub(crate) fn is_word_byte(byte: u8) -> bool
    ensures { result ≡ rules.is_word_byte byte }
{
    byte.is_ascii_alphanumeric() || byte == b'_' || byte == b'$'
}

fn is_plain(byte: u8) -> bool
    ensures { result ≡ rules.is_plain byte }
{
    byte != b'"' && byte != b'\\'
}

/// How many bytes the word at the front has.
pub(crate) fn word_len(bytes: &[u8]) -> usize
    ensures len { result ≡ prefix_len rules.is_word_byte bytes.now }
    ensures within { result ≤ length bytes.now }
{
    bytes.iter().take_while(|byte| is_word_byte(**byte)).count()
}

/// How many bytes stand before the first quote or backslash.
pub(crate) fn plain_len(bytes: &[u8]) -> usize
    ensures len { result ≡ prefix_len rules.is_plain bytes.now }
    ensures within { result ≤ length bytes.now }
{
    bytes.iter().take_while(|byte| is_plain(**byte)).count()
}

/// How many bytes stand before the end of the line.
pub(crate) fn line_len(bytes: &[u8]) -> usize
    ensures len { result ≡ prefix_len stays_on_line bytes.now }
    ensures within { result ≤ length bytes.now }
{
    bytes.iter().take_while(|byte| **byte != b'\n').count()
}

/// The mark of one byte.
pub(crate) fn mark_of(byte: u8) -> Option<Mark>
    ensures { result ≡ found.mark_of byte }
{
    match byte {
        b'{' => Some(Mark::LeftBrace),
        b'}' => Some(Mark::RightBrace),
        b'(' => Some(Mark::LeftParen),
        b')' => Some(Mark::RightParen),
        b'[' => Some(Mark::LeftBracket),
        b']' => Some(Mark::RightBracket),
        b':' => Some(Mark::Colon),
        b';' => Some(Mark::Semicolon),
        b',' => Some(Mark::Comma),
        b'.' => Some(Mark::Dot),
        b'=' => Some(Mark::Equals),
        b'+' => Some(Mark::Plus),
        _ => None,
    }
}
