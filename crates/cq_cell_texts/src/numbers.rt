//! Lines of records.
ghost use Rattle.std.specs.Prelude.{ℕ, ◌≡◌, ◌+◌, ◌<◌, ◌^◌, All, IfOk, length};
ghost use Rattle.cq_lines.specs.Lines.{line_of};

use cq_cells::Fault;
use cq_lines::{find_place, start, walk_to};
use std::alloc::{AllocError, Global};

/// The numbers of records, from 0, with which others share their ids, in order.
fn earlier_records(alloc: Global, faults: &[Fault], file: u32) -> Result<Vec<u32>, AllocError> {
    let mut numbers = Vec::new(alloc);
    for fault in faults {
        if fault.file == file
            && let Some(before) = fault.before
        {
            numbers.push(before)?;
        }
    }
    numbers.sort()?;
    Ok(numbers)
}

/// The records, numbered from 0, with which others of this file share their ids, and the lines in which they begin.
pub fn earlier_lines(
    alloc: Global,
    faults: &[Fault],
    file: u32,
    text: &[u8],
) -> Result<Vec<(u32, u32)>, AllocError>
    requires { length text.now < 2 ^ 31 }
    // The header is a record before them.
    ensures { IfOk result (λ lines. All (λ p. p.1 ≡ line_of text.now (p.0 + 1)) lines.items) }
{
    let numbers = earlier_records(alloc, faults, file)?;
    let mut lines = Vec::new(alloc);
    let mut walk = start(text);
    for number in &numbers {
        if *number < u32::MAX {
            walk = walk_to(text, walk, *number + 1);
            lines.push((*number, find_place(text, walk).line))?;
        }
    }
    Ok(lines)
}

/// The line of a record among these.
pub fn line_among(lines: &[(u32, u32)], number: u32) -> u32 {
    for (known, line) in lines {
        if *known == number {
            return *line;
        }
    }
    1
}
