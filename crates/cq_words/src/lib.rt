//! The words of the command line, and what they ask for.
#![tactic(auto)]

mod command;
mod found;
pub mod laws;
pub mod request;
pub mod words;

pub use request::Request;
pub use words::read_words;
