//! The devices of a run in memory, as an entry gives them.
use cq_io::{Format, MemExporter};
use std::alloc::{AllocError, Global};

/// The devices of a run.
#[derive(Clone, Copy)]
pub struct Devices<'a> {
    /// How many bytes the sink takes.
    pub room: u64,
    /// The calls that fail, device by device: `reads 1, csv 0 2`.
    pub failing: &'a str,
    /// The formats of the exporters, in their order: `csv, cql`.
    pub formats: &'a str,
    /// Whether it is told what the exported files hold, and not only which there are.
    pub contents: bool,
}

impl<'a> Devices<'a> {
    /// The numbers of the calls of a device that fail.
    pub fn failing(self, alloc: Global, device: &str) -> Result<Vec<u64>, AllocError> {
        for told in self.failing.split(", ") {
            if let Some((name, calls)) = told.split_once(" ") {
                if name == device {
                    return numbers(alloc, calls);
                }
            }
        }
        Ok(Vec::new(alloc))
    }

    /// An exporter of the format with this name, if there is one.
    pub fn exporter(self, alloc: Global, name: &str) -> Result<Option<MemExporter>, AllocError> {
        let Some(format) = format_of(name) else {
            return Ok(None);
        };
        let failing = self.failing(alloc, name)?;
        Ok(Some(MemExporter::new(alloc, format, failing)?))
    }
}

/// The numbers of a line, with blanks between them.
fn numbers(alloc: Global, line: &str) -> Result<Vec<u64>, AllocError> {
    let mut numbers = Vec::new(alloc);
    for word in line.split(' ') {
        if let Ok(number) = word.parse::<u64>() {
            numbers.push(number)?;
        }
    }
    Ok(numbers)
}

/// The format with a name.
fn format_of(name: &str) -> Option<Format> {
    if name == "csv" {
        Some(Format::Csv)
    } else if name == "cql" {
        Some(Format::Cql)
    } else {
        None
    }
}
