//! Where a given equation comes from: a place of the text, or a cell of a file.
//!
//! `equation_place` and its fellows find the place of an equation of a literal. `cell_of` finds the cell that an
//! equation of an import stands for, from the equation alone: its left side names the record's generator and the
//! column. `find_records` finds the lines in which records begin, and their ids, in one walk over a file. `part_of`
//! finds of which of several lists that stand behind one another a place is.
#![tactic(auto)]

mod cells;
mod literals;
mod parts;
mod records;

pub use cells::{CellPlace, cell_of, first_generator};
pub use literals::{equation_place, observation_place, path_equation_place};
pub use parts::{PartPlace, part_of};
pub use records::{FoundRecord, find_records};
