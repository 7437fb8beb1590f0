//! Where the records of a text of CSV stand: at which byte, and in which line as an editor counts lines.
#![tactic(auto)]

mod quotes;
mod stand;
mod walk;

pub use quotes::is_left_open;
pub use walk::{Place, Walk, find_place, start, walk_to};
