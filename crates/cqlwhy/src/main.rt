//! Says why a file of the working directory is refused.
#![tactic(auto)]

use cq_io::{DirFolder, StdSink};
use cq_run::Status;
use cq_why::why;
use std::process::ExitCode;
use std::{env, io};

fn main(rt: HostRuntime) -> ExitCode {
    let status = match words(&rt) {
        Ok(words) => start(rt, words.as_slice()),
        Err(error) if error.kind() == io::ErrorKind::OutOfMemory => Status::Memory,
        // A word that is no text is a faulty word, as having no words is.
        Err(_) => start(rt, &[]),
    };
    ExitCode::from(status.code())
}

/// The words after the program's own name.
fn words(rt: &HostRuntime) -> io::Result<Vec<String>> {
    Ok(env::args(rt)?.skip(1).collect(rt.alloc())?)
}

/// Tells of the words over the working directory, to standard output.
fn start(rt: HostRuntime, words: &[String]) -> Status {
    let alloc = rt.alloc();
    let mut folder = DirFolder::new(rt, alloc);
    let mut out = StdSink::new(rt);
    why(alloc, words, &mut folder, &mut out)
}
