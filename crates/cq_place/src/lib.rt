//! The line of a file at a place, with a caret under the place's column.
//!
//! The line is found from the start of the file (`lines`), and of a long one only the part about the column is shown
//! (`shown`). What leads to the caret keeps the tabs of the line, and is as wide as what stands above it (`past`).
#![tactic(auto)]

mod lines;
mod past;
mod shown;

pub use shown::append_place;
