//! Runs a file of the working directory, writes to standard output, and exports into folders below `cql-out`.
#![tactic(auto)]

use cq_io::{DirExporter, DirFolder, Exporter, Format, StdSink};
use cq_run::{Status, run};
use std::alloc::AllocError;
use std::process::ExitCode;
use std::{env, io};

fn main(rt: HostRuntime) -> ExitCode {
    let status = match words(&rt) {
        Ok(words) => start(rt, words.as_slice()),
        Err(error) if error.kind() == io::ErrorKind::OutOfMemory => Err(AllocError),
        // A word that is no text is a faulty word, as having no words is.
        Err(_) => start(rt, &[]),
    };
    ExitCode::from(status.unwrap_or(Status::Memory).code())
}

/// The words after the program's own name.
fn words(rt: &HostRuntime) -> io::Result<Vec<String>> {
    Ok(env::args(rt)?.skip(1).collect(rt.alloc())?)
}

/// Runs the words over the working directory, standard output, and a folder for the files of each format.
fn start(rt: HostRuntime, words: &[String]) -> Result<Status, AllocError> {
    let alloc = rt.alloc();
    let mut folder = DirFolder::new(rt, alloc);
    let mut out = StdSink::new(rt);
    let csv = DirExporter::new(rt, alloc, Format::Csv, "cql-out/csv")?;
    let cql = DirExporter::new(rt, alloc, Format::Cql, "cql-out/cql")?;
    let mut exporters: Vec<Box<dyn Exporter>> = Vec::new(alloc);
    exporters.push(Box::new(alloc, csv)?)?;
    exporters.push(Box::new(alloc, cql)?)?;
    let mut spoiled: Vec<Box<dyn Exporter>> = Vec::new(alloc);
    Ok(run(
        alloc,
        words,
        &mut folder,
        &mut exporters,
        &mut spoiled,
        &mut out,
    ))
}
