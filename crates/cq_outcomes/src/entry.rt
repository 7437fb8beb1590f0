//! The entries of a table and their parts.
//!
//! A table is a text file. Its first lines say what it is about. Each entry begins, behind an empty line, with `==` and
//! what the entry is about, in one or more lines of plain words. Then come its parts: a line of `-- `, the part's name
//! and maybe more words, and then the lines of the part, as they are. The last line of each has its end, unless the
//! part's own line ends with `not ended`. A line that begins with eight blanks goes on with the one above it, behind
//! one blank.
//!
//!     == The first part that isn't declared.
//!     -- text
//!     schema_colimit D = quotient Q : T { }
//!     -- refused
//!     refused 5:28 32 Unknown
//!
//! The parts that say what a case is:
//! - `-- head`: lines that stand in front of the text, in this entry and in each behind it, up to the next head; it may
//!   also stand in front of all entries;
//! - `-- words run p.cql --depth 5`: the words that are run; else they are `run p.cql`;
//! - `-- text`: the file `p.cql`, behind the head; else the head alone is;
//! - `-- file data/E.csv`: a further file of the folder.
//!
//! The parts that say what devices a case has:
//! - `-- room 10`: the sink takes so many bytes; else it takes 65,536;
//! - `-- exporters csv, cql`: exporters of these formats, in this order; else there are none;
//! - `-- failing reads 1, writes 0, csv 0 2`: the calls that fail, each device's by their numbers from 0: reads of the
//!   folder, writes to the sink, and puts to the exporter of a format.
//!
//! The parts that say what is told, each of which is tried:
//! - `-- ok`, `-- refused`, `-- usage`, `-- read`, `-- write`, `-- memory`: the status, and the lines that are written;
//!   behind `-- ok and more`, the first ones of these;
//! - `-- why refused`: the status of `cqlwhy`, and the lines that it writes (see `whys`);
//! - `-- rows`: texts, each in a line (see `rows`);
//! - `-- programs`: texts that are read as programs, each in a line (see `programs`);
//! - `-- questions`: questions, each in a line (see `questions`);
//! - `-- derived`: equations, each in a line with a rule by which it is derived (see `derived`);
//! - `-- term 1:3 21 Syntax`: a text that stands alone as a term (see `terms`);
//! - `-- beginnings`: each beginning of the program (see `beginnings`);
//! - `-- faults`: calls that fail, each in a line with what follows (see `faults`).
//!
//! Where a case has exporters, its status is told with what they have when the run has ended:
//! - `-- exported csv I/E.csv, cql I.cql`: the exporters that are left, each with the names of its files;
//! - `-- spoiled csv`: those that were set aside, likewise. Without the part there are none; so it is with the other;
//! - `-- contents`: what the files hold, of those that are left and then of the others, each behind a line `file
//!   I/E.csv`. Without the part nothing is told of it.
//!
//! In the lines of heads, texts, files and statuses, and in each row, `~3~x~` stands for `xxx` (see `repeated`).
use crate::devices::Devices;
use crate::repeated::written_out;
use std::alloc::{AllocError, Global};

/// The words of a case that doesn't say its own.
const USUAL: &str = "run p.cql";

/// The room of the sink of a case that doesn't say its own.
const ROOM: u64 = 65536;

/// A line of `-- `, and the lines behind it, without the last end of line.
#[derive(Clone, Copy)]
pub struct Part<'a> {
    pub name: &'a str,
    /// What stands behind the name.
    pub rest: &'a str,
    pub lines: &'a str,
}

impl<'a> Part<'a> {
    /// The part of a text that begins behind `-- `.
    pub fn new(text: &'a str) -> Part<'a> {
        let (line, lines) = cut(text, "\n");
        let (name, rest) = cut(line, " ");
        Part { name, rest, lines }
    }

    /// The lines written out, with the last end of line.
    pub fn written(self, alloc: Global) -> Result<String, AllocError> {
        let lines = format!(in alloc; "{}{}", self.lines, self.end())?;
        written_out(alloc, lines.as_str())
    }

    /// The end of the last line.
    fn end(self) -> &'static str {
        if self.lines.is_empty() || self.rest.ends_with("not ended") {
            ""
        } else {
            "\n"
        }
    }
}

/// An entry, and the head that it stands under.
#[derive(Clone, Copy)]
pub struct Entry<'a> {
    pub head: &'a str,
    pub text: &'a str,
}

impl<'a> Entry<'a> {
    /// The first line of what it is about.
    pub fn title(self) -> &'a str {
        cut(self.text, "\n").0.trim()
    }

    /// The first part with this name, or an empty one.
    pub fn part(self, name: &str) -> Part<'a> {
        for text in self.text.split("\n-- ").skip(1) {
            let part = Part::new(text);
            if part.name == name {
                return part;
            }
        }
        Part::new("")
    }

    /// Whether it has no part but a head.
    pub fn is_heading(self) -> bool {
        for text in self.text.split("\n-- ").skip(1) {
            if Part::new(text).name != "head" {
                return false;
            }
        }
        true
    }

    /// The words that are run.
    pub fn words(self) -> &'a str {
        let words = self.part("words").rest;
        if words.is_empty() { USUAL } else { words }
    }

    /// The devices that a run has.
    pub fn devices(self) -> Devices<'a> {
        Devices {
            room: self.part("room").rest.parse::<u64>().unwrap_or(ROOM),
            failing: self.part("failing").rest,
            formats: self.part("exporters").rest,
            contents: !self.part("contents").name.is_empty(),
        }
    }
}

/// What stands before the first mark of a text, and what stands behind it.
pub fn cut<'a>(text: &'a str, mark: &str) -> (&'a str, &'a str) {
    match text.split_once(mark) {
        Some(halves) => halves,
        None => (text, ""),
    }
}
