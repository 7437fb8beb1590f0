//! Texts of instances: transcripts and literals.
#![tactic(auto)]

mod algebra;
pub mod edges;
mod equations;
mod generators;
mod instances;
mod literals;
mod pieces;
mod plan;
mod rows;
mod spelling;

pub use instances::{push_transcript, transcript};
pub use literals::literal;
pub use pieces::push_number;
pub use spelling::content;
