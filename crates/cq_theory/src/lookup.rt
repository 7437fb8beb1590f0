//! Looking up the names of terms.
pub(crate) mod arrow_refusals;
pub(crate) mod builds;
pub(crate) mod declares;
pub(crate) mod faults;
pub(crate) mod observations;
pub(crate) mod parts;
pub(crate) mod passes;
pub(crate) mod paths;
pub(crate) mod schema_parts;
pub(crate) mod typed;
pub(crate) mod typeside_parts;

// The tests of rules and the terms that are made, for the parts of mappings and queries.
pub use arrow_refusals::{check_given, missing, of_arrow};
pub use builds::{build, entity_term, make_equation, resolve, type_term};
pub use declares::declare;
pub use faults::{have_one_sort, in_part_of, is_too_large};
pub use observations::{is_unknown_entity, table_of};
pub use passes::{
    entity_of_sort, has_reserved, has_unknown, has_wrong_count, sort_of_raw, type_of_sort,
};
pub use paths::{has_unknown_name, path_keys};

/// A function, a foreign key or an attribute, by its number.
#[derive(Clone, Copy, Debug, PartialEq, Eq)]
pub enum Symbol {
    Function(u32),
    Key(u32),
    Attribute(u32),
}
