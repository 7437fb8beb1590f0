//! Finished files, and how they are handed to each exporter in turn.
#![tactic(auto)]

pub mod files;
pub mod handing;

pub use files::FileLists;
pub use handing::{Handed, hand_over};
