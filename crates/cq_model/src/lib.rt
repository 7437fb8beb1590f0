//! Instances of presentations: the listed model, or why there is none.
//!
//! `build` (`building`) goes one way. The rows are saturated (`cq_rows`), named by their least terms and numbered by
//! entity (`cq_names`). The cells and the generators of types become the first nodes (`leaves`), with the place of
//! each cell (`places`); the equations of the presentation, and those of the schema at each row, become nodes and pairs
//! of nodes (`nodes`, `equations`), which are closed (`cq_flat`). A constant
//! on the right of an equation takes the node of the cell or generator on the left where that is still a leaf
//! (`take_leaf`), and needs neither a node of its own nor a pair. Columns, nulls, entries and what the generators stand
//! for are read from rows and closure (`reading`); that what is so read is the listed model is a law of its own
//! (`laws`). The column of each foreign key and attribute is made edge by edge, from the rows of the edge's entity, so
//! a schema costs the sum of its columns; a value is copied once for each cell.
//!
//! Instances themselves, what is read from them, and those of given tables stand in `cq_instance`, which this crate
//! passes on.
#![tactic(auto)]

mod building;
mod equations;
pub mod laws;
mod leaves;
mod nodes;
mod nulls;
mod places;
mod presented;
mod reading;
mod refusal;

pub use building::build;
pub use cq_instance::{
    CellIndex, Image, Instance, KeyIndex, Standing, TablesRefusal, Transform, copied,
};
pub use presented::build_presented;
pub use refusal::{BuildRefusal, MoveRefusal};
