//! A line with a caret under one of its columns.
ghost use Rattle.std.specs.Prelude.{◌≡◌, ◌++◌, ◌+◌, ◌-◌, ◌<◌, ◌≤◌, OnOk, decimal, drop, length, take};
ghost use Rattle.std.specs.List.{prefix_len};
ghost use Rattle.cq_place.specs.Lines.{before_column, from_column};
ghost use Rattle.cq_place.specs.Shown.{back_shown, first_part, front_end, front_mark, inside_len, is_inside};
ghost use Rattle.cq_place.specs.Shown.{last_part, lower};
ghost use Rattle.cq_place.specs.Shown.{shown_at, upper};

use crate::lines::line_of;
use crate::past::{append_blanks, append_past};
use cq_base::Place;
use itoa::Buffer;
use std::alloc::AllocError;

/// How many bytes of a line are shown on either side of the column.
const MOST_SHOWN: usize = 80;

/// Appends the line of a file at a place, behind its number, and under it a caret at the place's column. Of a line that
/// goes on for more than 80 bytes before the column, or from it on, three dots stand for the rest.
#[tactic(auto, unfolding(crate::specs::Shown::shown_at))]
pub fn append_place(text: &[u8], place: Place, out: &mut Vec<u8>) -> Result<(), AllocError>
    ensures { OnOk result (out.new.items ≡ out.old.items ++ shown_at text.now place) }
{
    let line = line_of(text, place.line);
    let front = before_column(line, place.col);
    let back = from_column(line, place.col);
    append_upper(place.line, front, back, out)?;
    append_lower(place.line, front, out)?;
    Ok(())
}

/// Appends a line, of which this stands before the column and that from it on.
fn append_upper(number: u32, front: &[u8], back: &[u8], out: &mut Vec<u8>) -> Result<(), AllocError>
    ensures { OnOk result (out.new.items ≡ out.old.items ++ upper number front.now back.now) }
{
    out.extend_from_slice(Buffer::new().format(number).as_bytes())?;
    out.extend_from_slice(b" | ")?;
    out.extend_from_slice(front_mark(front))?;
    out.extend_from_slice(front_end(front))?;
    append_back(back, out)?;
    out.extend_from_slice(b"\n")?;
    Ok(())
}

/// Appends the line under it, with a caret.
fn append_lower(number: u32, front: &[u8], out: &mut Vec<u8>) -> Result<(), AllocError>
    ensures { OnOk result (out.new.items ≡ out.old.items ++ lower number front.now) }
{
    append_blanks(digits(number), out)?;
    out.extend_from_slice(b" | ")?;
    append_blanks(front_mark(front).len(), out)?;
    append_past(front_end(front), out)?;
    out.extend_from_slice(b"^\n")?;
    Ok(())
}

/// How many digits a number has.
fn digits(number: u32) -> usize
    ensures { result ≡ length (decimal number) }
{
    Buffer::new().format(number).len()
}

/// What stands on a line before a column.
fn before_column(line: &[u8], column: u32) -> &[u8]
    ensures { result.now ≡ before_column line.now column }
{
    let before = (column as usize).saturating_sub(1);
    &line[..before.min(line.len())]
}

/// What stands on a line from a column on.
fn from_column(line: &[u8], column: u32) -> &[u8]
    ensures { result.now ≡ from_column line.now column }
{
    let before = (column as usize).saturating_sub(1);
    &line[before.min(line.len())..]
}

/// What stands for the start of what is before the column, where this isn't shown.
fn front_mark(front: &[u8]) -> &'static [u8]
    ensures { result.now ≡ front_mark front.now }
{
    if front.len() <= MOST_SHOWN {
        b""
    } else {
        b"..."
    }
}

/// The end of what is before the column, as far as it is shown.
fn front_end(front: &[u8]) -> &[u8]
    ensures { result.now ≡ front_end front.now }
{
    if front.len() <= MOST_SHOWN {
        front
    } else {
        last_part(&front[front.len() - MOST_SHOWN..])
    }
}

/// What is left from the first whole character on.
fn last_part(bytes: &[u8]) -> &[u8]
    ensures { result.now ≡ last_part bytes.now }
{
    &bytes[inside_len(bytes)..]
}

/// Appends the start of what stands from the column on, up to a whole character.
fn append_back(back: &[u8], out: &mut Vec<u8>) -> Result<(), AllocError>
    ensures { OnOk result (out.new.items ≡ out.old.items ++ back_shown back.now) }
{
    if back.len() <= MOST_SHOWN {
        out.extend_from_slice(back)?;
        return Ok(());
    }
    out.extend_from_slice(first_part(back))?;
    out.extend_from_slice(b"...")?;
    Ok(())
}

/// The first bytes of many, up to a whole character.
fn first_part(bytes: &[u8]) -> &[u8]
    requires { MOST_SHOWN < length bytes.now }
    ensures { result.now ≡ first_part bytes.now }
{
    let (_, rest) = bytes.split_at(MOST_SHOWN);
    &bytes[..MOST_SHOWN + inside_len(rest)]
}

/// How many bytes belong to a character that began before: three at most.
fn inside_len(bytes: &[u8]) -> usize
    ensures len { result ≡ inside_len bytes.now }
    ensures within { result ≤ length bytes.now }
{
    let few = &bytes[..bytes.len().min(3)];
    few.iter().take_while(|byte| is_inside(**byte)).count()
}

/// Whether a byte stands within a character of UTF-8, and not at its beginning.
fn is_inside(byte: u8) -> bool
    ensures { result ≡ is_inside byte }
{
    (128..192).contains(&byte)
}
