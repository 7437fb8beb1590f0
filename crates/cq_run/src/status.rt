//! How a run ended.
ghost use Rattle.std.specs.Prelude.{◌≡◌};
ghost use Rattle.cq_run.specs.Status.{code_of};

/// How a run ended.
#[derive(Clone, Copy, Debug, PartialEq, Eq)]
pub enum Status {
    /// The file was accepted, its transcripts were written, and each exporter took its files.
    Ok,
    /// The file breaks a rule, and the line that says which was written.
    Refused,
    /// The words ask for nothing that there is, and the usage line was written.
    Usage,
    /// The file that is run, or one that an import of it reads, was not read, and the line that says why was written.
    Read,
    /// The write failed, and a prefix of what was due is written; or some exporters failed.
    Write,
    /// There was no memory: nothing is written, or an exporter stopped.
    Memory,
}

impl Status {
    /// The exit status of the program.
    pub fn code(self) -> u8
        ensures { result ≡ code_of self }
    {
        self as u8
    }
}
