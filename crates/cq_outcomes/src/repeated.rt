//! What stands in short in a text.
//!
//! `~N~piece~` stands for the piece N times. In the piece `#` stands for the number of the turn, from 0 on, and `#+`
//! for the next number.
//!
//!     a~3~.f~.x                  a.f.f.f.x
//!     ~2~?# s, ~?2 s             ?0 s, ?1 s, ?2 s
//!     ~2~h(?#) = ?#+ ~end        h(?0) = ?1 h(?1) = ?2 end
//!
//! `$` stands for the sum of 256 leaves, where a leaf is given: a term of 255 symbols besides.
use std::alloc::{AllocError, Global};

/// A text with a sum of leaves in the place of each `$`, and then with its pieces written out.
pub fn filled(alloc: Global, text: &str, leaf: &str) -> Result<String, AllocError> {
    let sum = sum(alloc, leaf, 8)?;
    let text = text.replace(alloc, "$", sum.as_str())?;
    written_out(alloc, text.as_str())
}

/// The sum of so many leaves as two is multiplied with itself so often.
fn sum(alloc: Global, leaf: &str, times: usize) -> Result<String, AllocError> {
    let mut term = String::from_str(alloc, leaf)?;
    for _time in 0..times {
        term = format!(in alloc; "plus({term}, {term})")?;
    }
    Ok(term)
}

/// A text with its pieces written out.
pub fn written_out(alloc: Global, text: &str) -> Result<String, AllocError> {
    let mut whole = String::new(alloc);
    let mut times = None;
    for (place, part) in text.split("~").enumerate() {
        match place % 3 {
            0 => whole.push_str(part)?,
            1 => times = part.parse::<usize>().ok(),
            _ => whole.push_str(repeated(alloc, part, times)?.as_str())?,
        }
    }
    Ok(whole)
}

/// A piece so many times; a mark, which is no token, where no number says how many.
fn repeated(alloc: Global, piece: &str, times: Option<usize>) -> Result<String, AllocError> {
    match times {
        Some(times) if piece.contains("#") => numbered(alloc, piece, times),
        Some(times) => piece.repeat(alloc, times),
        None => String::from_str(alloc, "~"),
    }
}

/// A piece so many times, each with its number.
fn numbered(alloc: Global, piece: &str, times: usize) -> Result<String, AllocError> {
    let mut whole = String::new(alloc);
    for number in 0..times {
        let turn = turn(alloc, piece, number)?;
        whole.push_str(turn.as_str())?;
    }
    Ok(whole)
}

/// A piece with the number of its turn.
fn turn(alloc: Global, piece: &str, number: usize) -> Result<String, AllocError> {
    let next = format!(in alloc; "{}", number.saturating_add(1))?;
    let number = format!(in alloc; "{number}")?;
    let piece = piece.replace(alloc, "#+", next.as_str())?;
    piece.replace(alloc, "#", number.as_str())
}
