//! What exporters have when a run has ended.
use crate::devices::Devices;
use cq_io::{Exporter, Format};
use std::alloc::{AllocError, Global};

/// What the exporters that are left and those that were set aside have, as `told` tells it.
pub fn found(
    alloc: Global,
    devices: Devices<'_>,
    left: &[Box<dyn Exporter>],
    spoiled: &[Box<dyn Exporter>],
) -> Result<String, AllocError> {
    let mut contents = String::new(alloc);
    if devices.contents {
        push_contents(&mut contents, left)?;
        push_contents(&mut contents, spoiled)?;
    }
    let left = line_of(alloc, left)?;
    let spoiled = line_of(alloc, spoiled)?;
    told(alloc, left.as_str(), spoiled.as_str(), contents.as_str())
}

/// The exporters that are left and those that were set aside, each in a line, and what their files hold.
pub fn told(
    alloc: Global,
    left: &str,
    spoiled: &str,
    contents: &str,
) -> Result<String, AllocError> {
    format!(in alloc; "exported {left}\nspoiled {spoiled}\n{contents}")
}

/// The exporters in one line: each with its format and the names of its files.
fn line_of(alloc: Global, exporters: &[Box<dyn Exporter>]) -> Result<String, AllocError> {
    let mut line = String::new(alloc);
    for exporter in exporters {
        if !line.is_empty() {
            line.push_str(", ")?;
        }
        line.push_str(name_of(exporter.format()))?;
        push_names(&mut line, exporter.kept())?;
    }
    Ok(line)
}

/// The name of a format.
fn name_of(format: Format) -> &'static str {
    match format {
        Format::Csv => "csv",
        Format::Cql => "cql",
    }
}

/// Puts the names of files behind a line.
fn push_names(line: &mut String, kept: &[(String, Vec<u8>)]) -> Result<(), AllocError> {
    for (name, _) in kept {
        line.push_str(" ")?;
        line.push_str(name.as_str())?;
    }
    Ok(())
}

/// Puts the files of exporters behind a text.
fn push_contents(text: &mut String, exporters: &[Box<dyn Exporter>]) -> Result<(), AllocError> {
    for exporter in exporters {
        push_files(text, exporter.kept())?;
    }
    Ok(())
}

/// Puts files behind a text, each behind a line with its name.
fn push_files(text: &mut String, kept: &[(String, Vec<u8>)]) -> Result<(), AllocError> {
    for (name, bytes) in kept {
        text.push_str("file ")?;
        text.push_str(name.as_str())?;
        text.push_str("\n")?;
        text.push_str(text_of(bytes.as_slice()))?;
    }
    Ok(())
}

/// The bytes of a file as a text.
fn text_of(bytes: &[u8]) -> &str {
    match std::str::from_utf8(bytes) {
        Ok(text) => text,
        Err(_) => "no text\n",
    }
}
