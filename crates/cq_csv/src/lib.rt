//! Instances as CSV files.
#![tactic(auto)]

mod algebra;
mod export;
mod fields;
mod records;
mod rows;

pub use export::files;
