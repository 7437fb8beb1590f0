//! The files of `mistakes/`: of each is printed what `cqlwhy` tells.
//!
//! A file there is one of `examples/` with one mistake put in, or one that imports a folder with faults.
use crate::examples::head;
use crate::whys::tell;
use cq_io::{DirFolder, Sink, StdSink};
use std::alloc::Global;

/// The files, by their names before `.cql`.
const FILES: [&str; 33] = [
    "first-run",
    "orders",
    "departments",
    "employees",
    "people",
    "lists",
    "conflict",
    "glued",
    "joined",
    "moves",
    "questions",
    "composed",
    "moved",
    "chief",
    "merged",
    "streets",
    "matched",
    "deduped",
    "keys",
    "conflicts",
    "optional",
    "filled",
    "months",
    "spreadsheet",
    "folder_several",
    "folder_semicolons",
    "folder_cells",
    "folder_names",
    "folder_utf16",
    "folder_tabs",
    "folder_extra",
    "folder_entries",
    "folder_labels",
];

/// Tells of the files in turn. None: the memory or the output failed.
pub fn show_mistakes(rt: HostRuntime) -> Option<()> {
    let mut out = StdSink::new(rt);
    for name in FILES {
        show(rt, &mut out, name)?;
    }
    Some(())
}

/// Prints the name of a file, and what is told of it.
fn show<K: Sink>(rt: HostRuntime, out: &mut K, name: &str) -> Option<()> {
    let alloc = rt.alloc();
    let file = format!(in alloc; "mistakes/{name}.cql").ok()?;
    head(out, "== ", file.as_str())?;
    let words = words(alloc, file)?;
    let mut folder = DirFolder::new(rt, alloc);
    tell(alloc, words.as_slice(), &mut folder, out);
    Some(())
}

/// The words that ask of a file.
fn words(alloc: Global, file: String) -> Option<Vec<String>> {
    let mut words = Vec::new(alloc);
    words.push(file).ok()?;
    Some(words)
}
