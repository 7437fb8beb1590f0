//! Mappings and identities.
pub(crate) mod meaning;
pub(crate) mod stating;
