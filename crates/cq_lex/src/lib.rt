//! The tokens of a program's text.
#![tactic(auto)]

mod bytes;
mod comment;
mod fault;
mod fronts;
pub mod lexer;
mod place;
pub mod refusal;
mod text;
pub mod token;

pub use lexer::lex;
pub use refusal::LexRefusal;
pub use token::{Kind, Mark, Token};
