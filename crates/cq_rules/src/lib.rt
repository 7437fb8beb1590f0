//! Grammars as data, and what holds of every grammar in which the next token decides.
#![tactic(auto)]

pub mod class;
pub mod why;
mod word;

pub use class::{Class, classify};
pub use why::Why;
