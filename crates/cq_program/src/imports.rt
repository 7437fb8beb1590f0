//! Folders of files.
pub(crate) mod reading;
pub(crate) mod stating;
