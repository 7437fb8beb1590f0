//! Instances that are moved along queries.
pub(crate) mod meaning;
pub(crate) mod stating;
