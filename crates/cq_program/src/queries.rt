//! Queries, composites and the queries of mappings.
pub(crate) mod meaning;
pub(crate) mod stating;
