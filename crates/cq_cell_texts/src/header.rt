//! What differs between the header of a file and the one that is wanted.
use crate::bytes::{append, append_quoted};
use crate::records::{append_record, field};
use crate::sheet::{Sheet, append_line};
use cq_base::Name;
use csv::ByteRecord;
use std::alloc::AllocError;

/// How a header differs.
#[derive(Clone, Copy, Debug, PartialEq, Eq)]
enum Difference {
    /// There is no record.
    Empty,
    Utf16,
    /// One field, in which the names stand with this byte between them.
    Separator(u8),
    /// The file begins with more than one mark of byte order.
    Mark,
    Order,
    /// Upper and lower case, or spaces around the names.
    Case,
    Names,
}

/// Whether a text begins as one in UTF-16 does.
fn is_utf16(text: &[u8]) -> bool {
    text.starts_with(b"\xFF\xFE")
        || text.starts_with(b"\xFE\xFF")
        || text.first() == Some(&0)
        || text.get(1) == Some(&0)
}

/// The byte that stands between names in place of a comma.
fn find_separator(first: &[u8]) -> Option<u8> {
    [b';', b'\t', b'|']
        .iter()
        .copied()
        .find(|byte| first.contains(byte))
}

fn is_among(fields: &ByteRecord, name: &[u8]) -> bool {
    for column in 0..fields.len() {
        if field(fields, column) == name {
            return true;
        }
    }
    false
}

fn is_wanted(wanted: &[Name], name: &[u8]) -> bool {
    wanted.iter().any(|one| one.as_str().as_bytes() == name)
}

/// Whether each wanted name is among the fields.
fn has_all(fields: &ByteRecord, wanted: &[Name]) -> bool {
    wanted
        .iter()
        .all(|name| is_among(fields, name.as_str().as_bytes()))
}

/// Whether two names are one but for upper and lower case, and spaces around them.
fn is_nearly(found: &[u8], wanted: &[u8]) -> bool {
    found.trim_ascii().eq_ignore_ascii_case(wanted)
}

/// Whether the fields are the wanted ones but for upper and lower case, and spaces around them.
fn is_case(fields: &ByteRecord, wanted: &[Name]) -> bool {
    if fields.len() != wanted.len() {
        return false;
    }
    for (column, name) in wanted.iter().enumerate() {
        if !is_nearly(field(fields, column), name.as_str().as_bytes()) {
            return false;
        }
    }
    true
}

fn find_difference(text: &[u8], fields: &ByteRecord, wanted: &[Name]) -> Difference {
    if fields.len() == 0 {
        return Difference::Empty;
    }
    if is_utf16(text) {
        return Difference::Utf16;
    }
    let first = field(fields, 0);
    if first.starts_with(b"\xEF\xBB\xBF") {
        return Difference::Mark;
    }
    if fields.len() == 1
        && wanted.len() > 1
        && let Some(separator) = find_separator(first)
    {
        return Difference::Separator(separator);
    }
    if fields.len() == wanted.len() && has_all(fields, wanted) {
        return Difference::Order;
    }
    if is_case(fields, wanted) {
        return Difference::Case;
    }
    Difference::Names
}

/// Appends the names that are wanted, with commas between them.
pub fn append_wanted(wanted: &[Name], out: &mut Vec<u8>) -> Result<(), AllocError> {
    for (column, name) in wanted.iter().enumerate() {
        if column > 0 {
            out.extend_from_slice(b",")?;
        }
        out.extend_from_slice(name.as_str().as_bytes())?;
    }
    out.extend_from_slice(b"\n")
}

/// Appends the names that are wanted and don't stand.
fn append_missing(
    fields: &ByteRecord,
    wanted: &[Name],
    out: &mut Vec<u8>,
) -> Result<(), AllocError> {
    for name in wanted {
        if !is_among(fields, name.as_str().as_bytes()) {
            append(
                &[
                    b"  Column ",
                    name.as_str().as_bytes(),
                    b" is missing: add it, with empty cells if nothing is known.\n",
                ],
                out,
            )?;
        }
    }
    Ok(())
}

/// Appends the names that stand and aren't wanted.
fn append_extra(fields: &ByteRecord, wanted: &[Name], out: &mut Vec<u8>) -> Result<(), AllocError> {
    for column in 0..fields.len() {
        if !is_wanted(wanted, field(fields, column)) {
            append(&[b"  Column "], out)?;
            append_quoted(field(fields, column), out)?;
            append(
                &[b" isn't wanted: delete it, or add it to the schema.\n"],
                out,
            )?;
        }
    }
    Ok(())
}

/// Whether each field is a wanted name.
fn are_wanted(fields: &ByteRecord, wanted: &[Name]) -> bool {
    for column in 0..fields.len() {
        if !is_wanted(wanted, field(fields, column)) {
            return false;
        }
    }
    true
}

/// Appends the names that are missing, those that aren't wanted, and that some stand more than once.
fn append_names(fields: &ByteRecord, wanted: &[Name], out: &mut Vec<u8>) -> Result<(), AllocError> {
    append_missing(fields, wanted, out)?;
    append_extra(fields, wanted, out)?;
    if has_all(fields, wanted) && are_wanted(fields, wanted) {
        append(&[b"  Each column may stand once.\n"], out)?;
    }
    Ok(())
}

/// Appends the names that differ in upper and lower case, or by spaces.
fn append_cases(fields: &ByteRecord, wanted: &[Name], out: &mut Vec<u8>) -> Result<(), AllocError> {
    for (column, name) in wanted.iter().enumerate() {
        if field(fields, column) != name.as_str().as_bytes() {
            append(&[b"  Rename "], out)?;
            append_quoted(field(fields, column), out)?;
            append(
                &[
                    b" to \"",
                    name.as_str().as_bytes(),
                    b"\": upper and lower case differ, and so do spaces.\n",
                ],
                out,
            )?;
        }
    }
    Ok(())
}

/// Appends what stands between the names.
fn append_separator(separator: u8, out: &mut Vec<u8>) -> Result<(), AllocError> {
    let name: &[u8] = match separator {
        b'\t' => b"tabs",
        b'|' => b"bars (|)",
        _ => b"semicolons",
    };
    append(
        &[
            b"  The columns are separated by ",
            name,
            b". Save the file with commas between them: in a spreadsheet, as CSV with a comma as field delimiter.\n",
        ],
        out,
    )
}

/// Appends how the header differs.
fn append_difference(
    difference: Difference,
    fields: &ByteRecord,
    wanted: &[Name],
    out: &mut Vec<u8>,
) -> Result<(), AllocError> {
    match difference {
        Difference::Empty => append(
            &[b"  The file is empty. Its first line has to be this header.\n"],
            out,
        ),
        Difference::Utf16 => append(
            &[b"  The file is in UTF-16. Save it in UTF-8: in a spreadsheet, as \"CSV UTF-8\".\n"],
            out,
        ),
        Difference::Separator(separator) => append_separator(separator, out),
        Difference::Mark => append(
            &[
                b"  Two marks of byte order (U+FEFF) stand at the head of the file. Delete one of them.\n",
            ],
            out,
        ),
        Difference::Order => append(
            &[
                b"  The columns are right, in another order. Move them into the order that is wanted.\n",
            ],
            out,
        ),
        Difference::Case => append_cases(fields, wanted, out),
        Difference::Names => append_names(fields, wanted, out),
    }
}

/// Appends the header that is wanted beside the one that is there, and what differs.
pub fn append_header(
    sheet: &Sheet,
    line: u32,
    fields: &ByteRecord,
    out: &mut Vec<u8>,
) -> Result<(), AllocError> {
    let difference = find_difference(sheet.text, fields, sheet.wanted);
    append_line(sheet, line, out)?;
    append(
        &[b": this is another header than the one that is wanted.\n  wanted: "],
        out,
    )?;
    append_wanted(sheet.wanted, out)?;
    if difference != Difference::Empty && difference != Difference::Utf16 {
        append(&[b"  there:  "], out)?;
        append_record(fields, out)?;
        append(&[b"\n"], out)?;
    }
    append_difference(difference, fields, sheet.wanted, out)
}
