//! Composed queries, and mappings as queries.
//!
//! `composite` has the composite of two queries. It goes over the blocks of the second query, each of which is a frame
//! (`frame`): its variables with their components, the variables of blocks of the first query. `terms` translates terms
//! over a block to the composite's, and `lengths` counts their symbols first, so that no term over the limit is made.
//! `of_mapping` has the query that answers what a mapping pulls back, and `numbered` the names of a block's variables.
//! `laws` says what follows for the query of a mapping, and for the composite of two queries.
#![tactic(auto)]

pub mod composite;
mod frame;
pub mod laws;
mod lengths;
mod numbered;
pub mod of_mapping;
mod terms;

pub use composite::compose_query;
pub use of_mapping::mapping_query;
