//! Why a list of tokens is no program, or no term that stands alone.
use cq_base::Place;

/// Why, and where, a list of tokens is refused: the first token that decides.
#[derive(Clone, Copy, Debug, PartialEq, Eq)]
pub enum ParseRefusal {
    /// The tokens before the one at the place begin a program, or a term that stands alone, and none goes
    /// on with it.
    Syntax(Place),
    /// The name or text at the place gives its term a 65th level, or is the 65th name of a path.
    TooDeep(Place),
    /// The word at the place is left out of the language, and stands where it would stand; its number
    /// is from 1 to 20. Never of a term that stands alone.
    Unsupported(Place, u32),
    /// The option whose name stands at the place isn't allowed, or not with its value. Never of a term that
    /// stands alone.
    BadOption(Place),
    Memory,
}
