//! Coproducts and pushouts.
pub(crate) mod meaning;
pub(crate) mod stating;
