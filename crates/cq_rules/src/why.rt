//! Why a token is refused.
use cq_base::Place;

/// Why reading halts at a token.
#[derive(Clone, Copy, Debug, PartialEq, Eq)]
pub enum Why {
    /// Another token is wanted.
    Wanted,
    /// A word that is left out of the language, with its number, stands where it would stand.
    LeftOut(u32),
    /// A term has too many levels, or a path too many names.
    Deep,
    /// The value of an option that is not allowed; the place is that of the option's name.
    BadOption(Place),
}
