//! The files of `examples/`: each is run in turn, and its transcript is printed, and the files that it exports, as they
//! are read back from the folders into which they are exported.
use cq_io::{DirExporter, DirFolder, Exporter, Folder, Format, Sink, StdSink};
use cq_run::run;
use std::alloc::Global;

const FILES: [&str; 24] = [
    "examples/first-run.cql",
    "examples/orders.cql",
    "examples/departments.cql",
    "examples/employees.cql",
    "examples/people.cql",
    "examples/lists.cql",
    "examples/conflict.cql",
    "examples/glued.cql",
    "examples/joined.cql",
    "examples/moves.cql",
    "examples/questions.cql",
    "examples/composed.cql",
    "examples/moved.cql",
    "examples/exercises/chief.cql",
    "examples/exercises/merged.cql",
    "examples/exercises/streets.cql",
    "examples/recipes/matched.cql",
    "examples/recipes/deduped.cql",
    "examples/recipes/keys.cql",
    "examples/recipes/conflicts.cql",
    "examples/recipes/optional.cql",
    "examples/recipes/filled.cql",
    "examples/recipes/months.cql",
    "examples/recipes/spreadsheet.cql",
];

/// An exported file is shorter than this.
const LIMIT: u64 = 1048576;

/// Runs the files in turn. None: the memory, the output or a folder failed.
pub fn show_examples(rt: HostRuntime) -> Option<()> {
    let mut out = StdSink::new(rt);
    for name in FILES {
        show(rt, &mut out, name)?;
    }
    Some(())
}

/// Prints the name of a file, what a run of it prints, and what it exports. None: the memory, the output or a folder
/// failed.
fn show<K: Sink>(rt: HostRuntime, out: &mut K, name: &str) -> Option<()> {
    let alloc = rt.alloc();
    head(out, "== ", name)?;
    let words = words(alloc, name)?;
    let mut folder = DirFolder::new(rt, alloc);
    let csv = DirExporter::new(rt, alloc, Format::Csv, folder_of(Format::Csv)).ok()?;
    let cql = DirExporter::new(rt, alloc, Format::Cql, folder_of(Format::Cql)).ok()?;
    let mut exporters: Vec<Box<dyn Exporter>> = Vec::new(alloc);
    exporters.push(Box::new(alloc, csv).ok()?).ok()?;
    exporters.push(Box::new(alloc, cql).ok()?).ok()?;
    let mut spoiled: Vec<Box<dyn Exporter>> = Vec::new(alloc);
    run(
        alloc,
        words.as_slice(),
        &mut folder,
        &mut exporters,
        &mut spoiled,
        out,
    );
    for exporter in exporters.iter() {
        files(rt, out, folder_of(exporter.format()), exporter.kept())?;
    }
    Some(())
}

/// The folder into which files of a format are exported.
fn folder_of(format: Format) -> &'static str {
    match format {
        Format::Csv => "out/csv",
        Format::Cql => "out/cql",
    }
}

/// The words that run a file.
fn words(alloc: Global, name: &str) -> Option<Vec<String>> {
    let mut words = Vec::new(alloc);
    words.push(String::from_str(alloc, "run").ok()?).ok()?;
    words.push(String::from_str(alloc, name).ok()?).ok()?;
    Some(words)
}

/// Prints the files of these names with what a folder has of each.
fn files<K: Sink>(
    rt: HostRuntime,
    out: &mut K,
    folder: &str,
    kept: &[(String, Vec<u8>)],
) -> Option<()> {
    for (name, _) in kept {
        head(out, "-- ", name.as_str())?;
        file(rt, out, folder, name.as_str())?;
    }
    Some(())
}

/// Prints what a folder has of a file.
fn file<K: Sink>(rt: HostRuntime, out: &mut K, folder: &str, name: &str) -> Option<()> {
    let alloc = rt.alloc();
    let path = format!(in alloc; "{folder}/{name}").ok()?;
    let bytes = DirFolder::new(rt, alloc).read(path.as_str(), LIMIT).ok()?;
    out.write_all(bytes.as_slice()).ok()
}

/// Prints a line with a name.
pub fn head<K: Sink>(out: &mut K, mark: &str, name: &str) -> Option<()> {
    out.write_all(mark.as_bytes()).ok()?;
    out.write_all(name.as_bytes()).ok()?;
    out.write_all(b"\n").ok()
}
