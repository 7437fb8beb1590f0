//! The forms in which instances are exported.

/// A form of exported files.
#[derive(Clone, Copy, Debug, PartialEq, Eq)]
pub enum Format {
    /// A file of comma-separated values for each entity of an instance.
    Csv,
    /// A declaration for each instance, in the language itself.
    Cql,
}
