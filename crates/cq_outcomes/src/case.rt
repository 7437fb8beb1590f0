//! A case: what becomes of a run over files in memory.
use crate::devices::Devices;
use crate::entry::{Entry, Part};
use crate::exports::{found, told};
use crate::tally::Tally;
use cq_io::{Exporter, Folder, MemFolder, MemSink, Sink};
use cq_run::Status;
use std::alloc::{AllocError, Global};

/// Tries the case of an entry, of which a part says what is told.
pub fn try_case(
    alloc: Global,
    entry: Entry<'_>,
    part: Part<'_>,
    tally: &mut Tally,
) -> Result<(), AllocError> {
    let files = files_of(alloc, entry)?;
    let words = words_of(alloc, entry.words())?;
    let came = outcome(alloc, entry.devices(), words.as_slice(), files)?;
    let told = told_of(alloc, entry, part)?;
    let came = if part.rest == "and more" {
        beginning(came.as_str(), told.len())
    } else {
        came.as_str()
    };
    tally.add(alloc, entry.title(), told.as_str(), came)
}

/// The first bytes of a text, so many, or the whole text.
fn beginning(text: &str, length: usize) -> &str {
    match text.get(..length) {
        Some(first) => first,
        None => text,
    }
}

/// What is told of a case, with what is told of its exporters, if it has some.
fn told_of(alloc: Global, entry: Entry<'_>, part: Part<'_>) -> Result<String, AllocError> {
    let written = told_by(alloc, part.name, part)?;
    if entry.devices().formats.is_empty() {
        return Ok(written);
    }
    let left = entry.part("exported").rest;
    let spoiled = entry.part("spoiled").rest;
    let contents = entry.part("contents").written(alloc)?;
    let exports = told(alloc, left, spoiled, contents.as_str())?;
    format!(in alloc; "{written}{exports}")
}

/// What a part tells of a run with this status.
pub fn told_by(alloc: Global, status: &str, part: Part<'_>) -> Result<String, AllocError> {
    let lines = part.written(alloc)?;
    format!(in alloc; "{status}\n{lines}")
}

/// The words of a line.
pub fn words_of(alloc: Global, line: &str) -> Result<Vec<String>, AllocError> {
    let mut words = Vec::new(alloc);
    for text in line.split(' ') {
        words.push(String::from_str(alloc, text)?)?;
    }
    Ok(words)
}

/// The files of an entry: the head with the text, and the further ones.
pub fn files_of(alloc: Global, entry: Entry<'_>) -> Result<Vec<(String, Vec<u8>)>, AllocError> {
    let mut files = Vec::new(alloc);
    let text = program(alloc, entry)?;
    files.push(file(alloc, "p.cql", text.as_str())?)?;
    for text in entry.text.split("\n-- ").skip(1) {
        let part = Part::new(text);
        if part.name == "file" {
            files.push(further_file(alloc, part)?)?;
        }
    }
    Ok(files)
}

/// The head of an entry with its text.
pub fn program(alloc: Global, entry: Entry<'_>) -> Result<String, AllocError> {
    let text = entry.part("text").written(alloc)?;
    format!(in alloc; "{}{text}", entry.head)
}

/// A file that a part gives.
fn further_file(alloc: Global, part: Part<'_>) -> Result<(String, Vec<u8>), AllocError> {
    let content = part.written(alloc)?;
    let name = match part.rest.strip_suffix(" not ended") {
        Some(name) => name,
        None => part.rest,
    };
    file(alloc, name, content.as_str())
}

/// A file with this name and content.
fn file(alloc: Global, name: &str, content: &str) -> Result<(String, Vec<u8>), AllocError> {
    let bytes = Vec::from_slice(alloc, content.as_bytes())?;
    Ok((String::from_str(alloc, name)?, bytes))
}

/// What becomes of a run of these words over the one file `p.cql` with this text.
pub fn outcome_of_text(
    alloc: Global,
    devices: Devices<'_>,
    words: &[String],
    text: &str,
) -> Result<String, AllocError> {
    let mut files = Vec::new(alloc);
    files.push(file(alloc, "p.cql", text)?)?;
    outcome(alloc, devices, words, files)
}

/// What becomes of a run: the name of its status; behind it, from the next line on, what is written; and what the
/// exporters have, if there were some.
pub fn outcome(
    alloc: Global,
    devices: Devices<'_>,
    words: &[String],
    files: Vec<(String, Vec<u8>)>,
) -> Result<String, AllocError> {
    let mut folder = MemFolder::new(alloc, files, devices.failing(alloc, "reads")?)?;
    let mut out = MemSink::new(alloc, devices.failing(alloc, "writes")?, devices.room)?;
    let (status, exports) = run(alloc, devices, words, &mut folder, &mut out)?;
    let written = ended(alloc, status, out.bytes())?;
    if devices.formats.is_empty() {
        return Ok(written);
    }
    format!(in alloc; "{written}{exports}")
}

/// A run with the exporters of these devices: its status, and what the exporters have in the end. Its callers see no
/// clause: they only compare what it leaves.
fn run<F: Folder, K: Sink>(
    alloc: Global,
    devices: Devices<'_>,
    words: &[String],
    folder: &mut F,
    out: &mut K,
) -> Result<(Status, String), AllocError> {
    let mut exporters: Vec<Box<dyn Exporter>> = Vec::new(alloc);
    for name in devices.formats.split(", ") {
        if let Some(exporter) = devices.exporter(alloc, name)? {
            exporters.push(Box::new(alloc, exporter)?)?;
        }
    }
    let mut spoiled: Vec<Box<dyn Exporter>> = Vec::new(alloc);
    let status = cq_run::run(alloc, words, folder, &mut exporters, &mut spoiled, out);
    let exports = found(alloc, devices, exporters.as_slice(), spoiled.as_slice())?;
    Ok((status, exports))
}

/// The status of a run with what was written.
pub fn ended(alloc: Global, status: Status, bytes: &[u8]) -> Result<String, AllocError> {
    match std::str::from_utf8(bytes) {
        Ok(text) => format!(in alloc; "{}\n{text}", name_of(status)),
        Err(_) => format!(in alloc; "{}, and no text", name_of(status)),
    }
}

/// The name of a status in a table.
fn name_of(status: Status) -> &'static str {
    match status {
        Status::Ok => "ok",
        Status::Refused => "refused",
        Status::Usage => "usage",
        Status::Read => "read",
        Status::Write => "write",
        Status::Memory => "memory",
    }
}
