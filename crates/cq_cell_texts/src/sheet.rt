//! A file that is told of.
use crate::bytes::{append, append_number};
use cq_base::Name;
use cq_cells::Fault;
use cq_import::columns::Column;
use cq_theory::Schema;
use std::alloc::{AllocError, Global};

/// A file with its folder and its name there before `.csv`, the header that it must have, and its bytes.
#[derive(Clone, Copy)]
pub struct Sheet<'a> {
    pub alloc: Global,
    pub schema: &'a Schema,
    pub dir: &'a Name,
    pub entity: &'a Name,
    pub columns: &'a [Column],
    pub wanted: &'a [Name],
    pub text: &'a [u8],
    /// Whether it is the file of the nulls and the entries.
    pub is_entries: bool,
}

/// Appends the name of the file of an entity.
pub fn append_file(dir: &Name, entity: &Name, out: &mut Vec<u8>) -> Result<(), AllocError> {
    append(
        &[
            dir.as_str().as_bytes(),
            b"/",
            entity.as_str().as_bytes(),
            b".csv",
        ],
        out,
    )
}

/// Appends the name of the file and a line in it.
pub fn append_line(sheet: &Sheet, line: u32, out: &mut Vec<u8>) -> Result<(), AllocError> {
    append_file(sheet.dir, sheet.entity, out)?;
    append(&[b", line "], out)?;
    append_number(line as u64, out)
}

/// Appends where a fault stands: file, line, record, and the column's name, if it is that of a cell.
pub fn append_place(
    sheet: &Sheet,
    fault: &Fault,
    line: u32,
    out: &mut Vec<u8>,
) -> Result<(), AllocError> {
    append_line(sheet, line, out)?;
    append(&[b", record "], out)?;
    append_number(fault.number as u64, out)?;
    if fault.column > 0 {
        append(&[b", column "], out)?;
        append(&[column_name(sheet.wanted, fault.column as usize - 1)], out)?;
    }
    append(&[b": "], out)
}

/// The name of a column, from 0.
pub fn column_name(wanted: &[Name], column: usize) -> &[u8] {
    match wanted.get(column) {
        Some(name) => name.as_str().as_bytes(),
        None => &[],
    }
}
