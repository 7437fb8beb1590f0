//! Colimits of schemas, their schemas and the inclusions of their parts.
pub(crate) mod stating;
