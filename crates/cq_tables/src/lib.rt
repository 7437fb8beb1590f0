//! Rows that merge by renaming. Each row is of one entity, live or renamed. A live row has a cell for each foreign
//! key of its entity: empty, or a live row.
#![tactic(auto)]

mod cells;
mod plan;
mod tables;

pub use tables::Tables;
