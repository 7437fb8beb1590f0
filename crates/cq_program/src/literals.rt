//! Instances that are given by their parts.
pub(crate) mod meaning;
pub(crate) mod stating;
