//! What the words ask for.

use cq_io::Format;

/// What the words ask for. A depth is at most 64, and a size from 1 to 199,999.
#[derive(Clone, Copy, Debug, PartialEq, Eq)]
pub enum Request<'a> {
    /// `run FILE [--depth K] [--only csv|cql]`: to run a file, with models made to this depth, and to export in one
    /// format alone where there is a choice.
    Run {
        file: &'a str,
        depth: u32,
        only: Option<Format>,
    },
    /// `example N`: to run the example of this size.
    Example(u32),
    /// `explain FILE INSTANCE LEFT RIGHT [--depth K]`: to say why two terms are equal in an instance of a file.
    Explain {
        file: &'a str,
        instance: &'a str,
        left: &'a str,
        right: &'a str,
        depth: u32,
    },
}
