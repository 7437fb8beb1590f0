//! Transforms.
pub(crate) mod meaning;
pub(crate) mod stating;
