//! Schemas.
pub(crate) mod stating;
