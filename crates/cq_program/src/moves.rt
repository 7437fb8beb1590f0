//! Instances that are moved along mappings.
pub(crate) mod meaning;
pub(crate) mod stating;
