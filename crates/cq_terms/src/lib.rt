//! What several crates do with terms: copies, names of generators, values as terms, and whether two terms are one.
#![tactic(auto)]

pub mod copies;
pub mod named;
pub mod same;
pub mod values;

pub use copies::{copy_entity_term, copy_type_term};
pub use named::{generator_name, name_generators, push_null_sorts};
pub use same::{is_same_entity_term, is_same_type_term, is_same_value};
pub use values::{cell_term, push_entries};
