//! What the literals of declarations give: their parts, the place of each part, and whether the parts can be counted.
//!
//! The parts of a literal (`parts`, for the blocks of queries `blocks`) and the place of each stand in the same order
//! (`places`, `block_places`). This crate knows the tree and the types of parts, and nothing of instances, so it is
//! proved beside the crates of models.
#![tactic(auto)]

mod block_places;
mod blocks;
mod copied;
mod few;
mod parts;
mod placed;
mod places;
mod raw;

pub use block_places::query_places;
pub use blocks::query_parts;
pub use few::has_few_parts;
pub use parts::{
    colimit_parts, instance_parts, mapping_parts, schema_parts, transform_parts, typeside_parts,
};
pub use places::{
    colimit_places, instance_places, mapping_places, schema_places, transform_places,
    typeside_places,
};
