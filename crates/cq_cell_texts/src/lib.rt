//! The faults of a folder of CSV files in words: where each stands, as an editor and a spreadsheet count, what is
//! wrong there, and what mends it.
#![tactic(auto)]

mod bytes;
mod entries;
mod folder;
mod header;
mod numbers;
mod records;
mod rules;
mod second;
mod sheet;

pub use folder::{append_folder, append_report};
pub use second::append_folder2;
