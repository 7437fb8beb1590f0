//! Walks over the records of a text.
ghost use Rattle.std.specs.Prelude.{◌≡◌, ◌+◌, ◌-◌, ◌≤◌, ◌<◌, ◌^◌, ◌==◌, ◌||◌, length, drop, slice_index};
ghost use Rattle.csv.specs.Reading.{is_bom, strip_bom};
ghost use Rattle.cq_lines.specs.Lines.{ends_line as line_ends_with, line_ends, one_if};
ghost use Rattle.cq_lines.specs.Walks.{Counts, IsPlace, IsWalk};

use crate::stand::{Stand, step};

/// Where a record begins: its first byte, from 0, and its line, from 1.
#[derive(Clone, Copy, Debug, PartialEq, Eq)]
pub struct Place {
    pub at: usize,
    pub line: u32,
}

/// A walk over the records of a text: behind how many it stands, at which byte and in which line, and how csv's machine
/// stands there.
#[derive(Clone, Copy, Debug)]
pub struct Walk {
    pub number: u32,
    pub at: usize,
    pub line: u32,
    pub stand: Stand,
}

/// Whether these are the bytes of the mark of byte order.
fn is_mark(first: u8, second: u8, third: u8) -> bool
    ensures { result ≡ is_bom first second third }
{
    first == 0xEF && second == 0xBB && third == 0xBF
}

/// How many bytes the mark of byte order has at the head of a text: three, or none.
fn mark_length(text: &[u8]) -> usize
    ensures within { result ≤ length text.now }
    ensures rest { drop result text.now ≡ strip_bom text.now }
    ensures lines { line_ends (drop result text.now) ≡ line_ends text.now }
{
    if text.len() < 3 {
        return 0;
    }
    if is_mark(text[0], text[1], text[2]) {
        3
    } else {
        0
    }
}

/// Whether the byte at this place ends a line.
fn ends_line(text: &[u8], at: usize) -> bool
    requires { at < length text.now }
    ensures { result ≡ line_ends_with (slice_index text.now at) (drop (at + 1) text.now) }
{
    if text[at] == b'\n' {
        return true;
    }
    if text[at] != b'\r' {
        return false;
    }
    if at + 1 < text.len() {
        text[at + 1] != b'\n'
    } else {
        true
    }
}

/// The line behind the byte at this place.
fn line_behind(text: &[u8], at: usize, line: u32) -> u32
    requires within { at < length text.now }
    requires few { length text.now < 2 ^ 31 }
    requires low { line ≤ at + 1 }
    ensures { result ≡ line + one_if (line_ends_with (slice_index text.now at) (drop (at + 1) text.now)) }
{
    if ends_line(text, at) { line + 1 } else { line }
}

fn is_end(byte: u8) -> bool
    ensures { result ≡ ((byte == 10) || (byte == 13)) }
{
    byte == b'\n' || byte == b'\r'
}

/// A walk that stands before the first record of a text of less than 2 GiB.
pub fn start(text: &[u8]) -> Walk
    requires { length text.now < 2 ^ 31 }
    ensures walk { IsWalk text.now result }
    ensures number { result.number ≡ 0 }
{
    Walk {
        number: 0,
        at: mark_length(text),
        line: 1,
        stand: Stand::Record,
    }
}

/// The walk behind one more record.
fn behind_record(text: &[u8], walk: Walk) -> Walk
    requires walk { IsWalk text.now walk }
    requires number { walk.number < 2 ^ 32 - 1 }
    ensures walk { IsWalk text.now result }
    ensures number { result.number ≡ walk.number + 1 }
{
    let mut stand = walk.stand;
    let mut line = walk.line;
    for at in walk.at..text.len() {
        let (next, ends) = step(stand, text[at]);
        stand = next;
        line = line_behind(text, at, line);
        if ends {
            return Walk {
                number: walk.number + 1,
                at: at + 1,
                line,
                stand,
            };
        }
    }
    Walk {
        number: walk.number + 1,
        at: text.len(),
        line,
        stand: Stand::Record,
    }
}

/// The walk behind so many records, of which it isn't behind more yet.
fn go_on(text: &[u8], walk: Walk, number: u32) -> Walk
    requires walk { IsWalk text.now walk }
    requires before { walk.number ≤ number }
    ensures walk { IsWalk text.now result }
    ensures number { result.number ≡ number }
{
    let mut walk = walk;
    for _ in walk.number..number {
        walk = behind_record(text, walk);
    }
    walk
}

/// The walk behind so many records, from this one on if it stands behind fewer, and else from the start of the text.
pub fn walk_to(text: &[u8], walk: Walk, number: u32) -> Walk
    requires { IsWalk text.now walk }
    ensures walk { IsWalk text.now result }
    ensures number { result.number ≡ number }
{
    if number < walk.number {
        go_on(text, start(text), number)
    } else {
        go_on(text, walk, number)
    }
}

/// Where the record behind a walk begins.
pub fn find_place(text: &[u8], walk: Walk) -> Place
    requires { IsWalk text.now walk }
    ensures { IsPlace text.now walk.number result }
{
    let mut line = walk.line;
    for at in walk.at..text.len() {
        if !is_end(text[at]) {
            return Place { at, line };
        }
        line = line_behind(text, at, line);
    }
    Place {
        at: text.len(),
        line,
    }
}
