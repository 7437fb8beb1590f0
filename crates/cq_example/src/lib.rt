//! The example of a size: a program whose generators all merge at their keys.
#![tactic(auto)]

mod lines;
mod text;

pub use text::example_text;
