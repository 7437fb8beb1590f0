//! Transforms that operations move, and units and counits.
pub(crate) mod carrying;
pub(crate) mod mapped;
pub(crate) mod meaning;
pub(crate) mod queried;
pub(crate) mod stating;
