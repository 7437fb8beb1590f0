//! All faults of a folder of CSV files, of which an import tells the first.
//!
//! The files are read (`readings`), each is tested by itself (`rows`, `ids`), and where none has a fault their cells
//! are tested (`index`, `cells`, `tables`).
#![tactic(auto)]

mod cells;
mod faults;
mod folder;
mod ids;
mod index;
mod readings;
mod rows;
mod tables;

pub use faults::{Fault, Kind};
pub use folder::{Report, examine};
pub use readings::{Reading, Unread, bytes_of, read_file};
