//! How the rows of a presentation go on growing: a term that is still new at a depth, the keys by which it goes on, and
//! how many rows each entity has.
//!
//! `levels` goes through the rows from the generators on, level by level: a level has the rows that terms of one depth
//! reach and no lesser ones do, each with such a term. A row of the last level that has an empty cell is named by a
//! term that equals no shorter one within the depth (`news`). Which keys it repeats at its end is read off its path
//! (`repeats`). `counts` counts rows by entity in one pass, and `limits` finds the last depth at which they are not too
//! many.
#![tactic(auto)]

pub mod counts;
pub mod levels;
pub mod limits;
mod news;
mod repeats;

pub use counts::{Most, most_rows};
pub use limits::{Growth, Within, last_within};
pub use news::first_new;
pub use repeats::repeated_keys;
