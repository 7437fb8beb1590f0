//! The words of `cqlwhy`, and what they ask for.
//!
//! They are those of `cqlrun run` but for `--only`, and are read as those are (`words`). For words that ask for nothing
//! `clap` has a text, and another one for those that ask how the program is called (`told`).
#![tactic(auto)]

mod told;
mod words;

pub use told::notice;
pub use words::{Asked, read_run_words, run_words};
