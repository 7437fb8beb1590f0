//! Why bytes are no list of tokens.
ghost use Rattle.std.specs.Prelude.{◌≡◌};

use cq_base::Place;
use std::alloc::{AllocError, AllocFailed};

/// The fault of the first token that can't be made, and its place.
#[derive(Clone, Copy, Debug, PartialEq, Eq)]
pub enum LexRefusal {
    /// A byte that begins no token, a wrong byte after a backslash in a text, or, at the place of
    /// its opening quote, a text that isn't UTF-8.
    BadByte(Place),
    /// A text without its closing quote; the place of the opening one.
    OpenText(Place),
    /// A block comment without its end; the place of its start.
    OpenComment(Place),
    /// A word, or a text's content, of more than 255 bytes; the place of its start.
    LongName(Place),
    Memory,
}

impl From<AllocError> for LexRefusal {
    ghost use Rattle.cq_lex.specs.declared.refusal.LexRefusal.TheVariants.{Memory};

    ghost from_gives = { λ _ e. e ≡ Memory };

    fn from(_error: AllocError) -> LexRefusal {
        LexRefusal::Memory
    }
}

impl<T: Drop> From<AllocFailed<T>> for LexRefusal {
    ghost use Rattle.cq_lex.specs.declared.refusal.LexRefusal.TheVariants.{Memory};

    ghost from_gives = { λ _ e. e ≡ Memory };

    fn from(_error: AllocFailed<T>) -> LexRefusal {
        LexRefusal::Memory
    }
}
