//! A table as a whole.
use crate::beginnings::try_beginnings;
use crate::case::try_case;
use crate::derived::try_equation;
use crate::entry::{Entry, Part};
use crate::faults::try_fault;
use crate::programs::try_program;
use crate::questions::try_question;
use crate::rows::try_row;
use crate::tally::Tally;
use crate::terms::try_term;
use crate::whys::try_why;
use std::alloc::{AllocError, Global};

/// The end of a line that goes on, and what the next one begins with.
const GOES_ON: &str = "\n        ";

/// The parts that say what is tried, or what is told with another part.
const SAID: [&str; 13] = [
    "head",
    "words",
    "text",
    "file",
    "room",
    "exporters",
    "failing",
    "exported",
    "spoiled",
    "contents",
    "front",
    "listed",
    "leaf",
];

/// The parts that tell a status.
const STATUSES: [&str; 6] = ["ok", "refused", "usage", "read", "write", "memory"];

/// What is found of a table, entry by entry.
pub fn tally_of(alloc: Global, table: &str) -> Result<Tally, AllocError> {
    let table = table.replace(alloc, GOES_ON, " ")?;
    let mut tally = Tally::new(alloc);
    let mut head = String::new(alloc);
    for text in table.trim_end().split("\n\n==") {
        head = head_of(alloc, text, head)?;
        let entry = Entry {
            head: head.as_str(),
            text,
        };
        try_entry(alloc, entry, &mut tally)?;
    }
    Ok(tally)
}

/// The head of an entry, which is the one before it where it has none.
fn head_of(alloc: Global, text: &str, before: String) -> Result<String, AllocError> {
    let head = Entry { head: "", text }.part("head");
    if head.name.is_empty() {
        Ok(before)
    } else {
        head.written(alloc)
    }
}

/// Tries the parts of an entry. One that only says what is tried, and tries nothing, is refused.
fn try_entry(alloc: Global, entry: Entry<'_>, tally: &mut Tally) -> Result<(), AllocError> {
    let before = tally.cases();
    for text in entry.text.split("\n-- ").skip(1) {
        try_part(alloc, entry, Part::new(text), tally)?;
    }
    if tally.cases() == before && !entry.is_heading() {
        tally.refuse(alloc, entry.title(), "nothing is told here")?;
    }
    Ok(())
}

/// Tries a part that says what is told.
fn try_part(
    alloc: Global,
    entry: Entry<'_>,
    part: Part<'_>,
    tally: &mut Tally,
) -> Result<(), AllocError> {
    if SAID.contains(&part.name) {
        return Ok(());
    }
    if STATUSES.contains(&part.name) {
        return try_case(alloc, entry, part, tally);
    }
    if let Some(line) = line_of(part.name) {
        return try_lines(alloc, entry, line, part.lines, tally);
    }
    match part.name {
        "term" => try_term(alloc, part, tally),
        "beginnings" => try_beginnings(alloc, entry, tally),
        "why" => try_why(alloc, entry, part, tally),
        _ => tally.refuse(alloc, entry.title(), "a part has no name that is known"),
    }
}

/// What each line of a part is.
#[derive(Clone, Copy)]
enum Line {
    Row,
    Program,
    Question,
    Equation,
    Fault,
}

/// What each line of a part with this name is, where its lines are tried one by one.
fn line_of(name: &str) -> Option<Line> {
    match name {
        "rows" => Some(Line::Row),
        "programs" => Some(Line::Program),
        "questions" => Some(Line::Question),
        "derived" => Some(Line::Equation),
        "faults" => Some(Line::Fault),
        _ => None,
    }
}

/// Tries lines, each of which is this.
fn try_lines(
    alloc: Global,
    entry: Entry<'_>,
    line: Line,
    lines: &str,
    tally: &mut Tally,
) -> Result<(), AllocError> {
    for text in lines.lines() {
        try_line(alloc, entry, line, text, tally)?;
    }
    Ok(())
}

/// Tries a line.
fn try_line(
    alloc: Global,
    entry: Entry<'_>,
    line: Line,
    text: &str,
    tally: &mut Tally,
) -> Result<(), AllocError> {
    match line {
        Line::Row => try_row(alloc, entry, text, tally),
        Line::Program => try_program(alloc, text, tally),
        Line::Question => try_question(alloc, entry, text, tally),
        Line::Equation => try_equation(alloc, entry, text, tally),
        Line::Fault => try_fault(alloc, entry, text, tally),
    }
}
