//! What is said of each refusal in words: one sentence a code, with the names filled in, and what there is to mend.
//!
//! The table of sentences is one file, `sentences`. That each code has a sentence is seen by the compiler, as the codes
//! are an `enum` (`code`); `filling` puts names in their places.
#![tactic(auto)]

mod code;
mod filling;
mod sentences;

pub use code::{Code, Unread};
pub use filling::append_filled;
