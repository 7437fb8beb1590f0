//! Folders of CSV files as presentations.
//!
//! File by file the bytes are read and their records tested (`folder`, `entity_file`, `rows`, `ids`); when all files
//! stand, the cells are read in order (`cells`, `labels`), each text where it stands in its file (`field_places`), and
//! the presentation is made (`presenting`, `generators`), in room that is asked for once (`capacities`).
#![tactic(auto)]

mod capacities;
mod cells;
pub mod columns;
pub mod content;
mod entity_file;
mod entries;
mod entries_file;
mod entries_text;
mod field_places;
mod folder;
mod generators;
mod ids;
mod importing;
mod importing_entries;
pub mod labels;
mod lines;
mod nulls;
mod presenting;
mod presenting_entries;
pub mod records;
pub mod refusal;
mod rows;
mod tables;

pub use folder::{LONGEST_FILE, file_name};
pub use ids::Id;
pub use importing::import;
pub use importing_entries::import2;
pub use refusal::CsvRefusal;
