//! Tokens.
use cq_base::{Name, Place};

/// A mark of the language. Each is one byte, but `->` is two.
#[derive(Clone, Copy, Debug, PartialEq, Eq)]
pub enum Mark {
    LeftBrace,
    RightBrace,
    LeftParen,
    RightParen,
    LeftBracket,
    RightBracket,
    Colon,
    Semicolon,
    Comma,
    Dot,
    Equals,
    Plus,
    Arrow,
}

/// What a token is.
#[derive(PartialEq, Eq, Drop)]
pub enum Kind {
    /// A longest run of ASCII letters, digits, `_` and `$`.
    Word(Name),
    /// The content of a quoted text, its escapes read.
    Text(Name),
    Mark(Mark),
    /// The end of the file.
    End,
}

/// A token: what it is, the bytes from `from` up to `to` that spell it, and the place of the first.
#[derive(PartialEq, Eq, Drop)]
pub struct Token {
    pub kind: Kind,
    pub from: u32,
    pub to: u32,
    pub place: Place,
}
