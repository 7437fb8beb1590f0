//! Runs each file of `data/examples/` in turn, and prints its transcript and the files that it exports: what is stored
//! of the examples stays what the program prints. Then it prints what `cqlwhy` tells of each file of `data/mistakes/`.
//! Then it runs the texts of each table of `data/`, and prints how many end as the table tells, and those that do not.
#![tactic(auto)]

mod beginnings;
mod case;
mod derived;
mod devices;
mod entry;
mod examples;
mod exports;
mod faults;
mod judge;
mod mistakes;
mod programs;
mod questions;
mod repeated;
mod rows;
mod tally;
mod terms;
mod whys;

use crate::examples::show_examples;
use crate::judge::tally_of;
use crate::mistakes::show_mistakes;
use crate::tally::Tally;
use cq_io::{DirFolder, Folder};
use std::alloc::Global;
use std::io;
use std::process::ExitCode;

/// The tables, by the names of their files.
const TABLES: [&str; 24] = [
    "syntax",
    "statuses",
    "models",
    "open_types",
    "imports",
    "entries",
    "transforms",
    "forms",
    "mappings",
    "mapping_parts",
    "query_parts",
    "duties",
    "moves",
    "images",
    "answers",
    "composed",
    "glued",
    "joined",
    "questions",
    "devices",
    "exports",
    "whys",
    "why_rules",
    "why_folders",
];

/// A file of a table is shorter than this.
const LIMIT: u64 = 1048576;

fn main(rt: HostRuntime) -> ExitCode {
    let shown = show_examples(rt).is_some() && show_mistakes(rt).is_some();
    let mut code = if shown { 0 } else { 1 };
    for name in TABLES {
        if !matches!(is_as_told(rt, name), Ok(true)) {
            code = 1;
        }
    }
    ExitCode::from(code)
}

/// Whether a table has a case and each ends as it is told; what is found is printed.
fn is_as_told(rt: HostRuntime, name: &str) -> io::Result<bool> {
    let Some(text) = read(rt, rt.alloc(), name) else {
        println!(rt; "{name}: there is no such table")?;
        return Ok(false);
    };
    match tally_of(rt.alloc(), text.as_str()) {
        Ok(tally) => show(rt, name, &tally),
        Err(_) => {
            println!(rt; "{name}: out of memory")?;
            Ok(false)
        }
    }
}

/// The text of a table, if it can be read.
fn read(rt: HostRuntime, alloc: Global, name: &str) -> Option<String> {
    let path = format!(in alloc; "{name}.txt").ok()?;
    let bytes = DirFolder::new(rt, alloc).read(path.as_str(), LIMIT).ok()?;
    String::from_utf8(bytes).ok()
}

/// Prints what was found of a table, and tells whether all is as it should be.
fn show(rt: HostRuntime, name: &str, tally: &Tally) -> io::Result<bool> {
    if tally.is_as_told() {
        println!(rt; "{name} {} as told", tally.cases())?;
        return Ok(true);
    }
    println!(rt; "{name} {}, and not all as told", tally.cases())?;
    print!(rt; "{}", tally.deviations())?;
    Ok(false)
}
