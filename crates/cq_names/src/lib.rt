//! The least names of rows, and the rows numbered in the order of these.
//!
//! The rows of a closed presentation are named by one breadth-first walk (`walk`): from the rows of the generators
//! along each foreign key, so the first name that a row gets is the least term that leads to it. Then they are numbered
//! by entity, in the order in which they were named (`numbers`). `naming` has both in one call. Each row is met once
//! for each key that leads to it.
#![tactic(auto)]

mod naming;
mod numbers;
mod walk;

pub use naming::name_rows;
pub use numbers::NumberedRows;
