//! Which rule a cell breaks.
use crate::bytes::{append, append_number, append_quoted};
use crate::sheet::Sheet;
use cq_import::columns::Column;
use cq_theory::{Schema, Typeside};
use cq_values::{name_of, read_label};
use std::alloc::AllocError;

/// The name of a type.
fn type_name(typeside: &Typeside, sort: u32) -> &[u8] {
    match typeside.types.as_slice().get(sort as usize) {
        Some(name) => name.as_str().as_bytes(),
        None => &[],
    }
}

/// Appends up to five constants of a type, where it has some.
fn append_constants(typeside: &Typeside, sort: u32, out: &mut Vec<u8>) -> Result<(), AllocError> {
    let mut count = 0u32;
    for (name, of) in typeside.constants.as_slice() {
        if *of == sort && count < 5 {
            let before: &[u8] = if count == 0 {
                b"  Constants of this type: "
            } else {
                b", "
            };
            append(&[before], out)?;
            append_quoted(name.as_str().as_bytes(), out)?;
            count += 1;
        }
    }
    if count > 0 {
        append(&[b".\n"], out)?;
    }
    Ok(())
}

/// Appends why a text is no constant of this type.
fn append_constant(
    sheet: &Sheet,
    typeside: &Typeside,
    sort: u32,
    field: &[u8],
    out: &mut Vec<u8>,
) -> Result<(), AllocError> {
    if field.len() > 255 {
        append(&[b"  A text has at most 255 bytes, and this one has "], out)?;
        append_number(field.len() as u64, out)?;
        return append(&[b". Shorten it.\n"], out);
    }
    let Some(name) = name_of(sheet.alloc, field)? else {
        return append(&[b"  It is no text.\n"], out);
    };
    match typeside.find_constant(&name) {
        Some(number) => append_other_type(typeside, number, sort, out)?,
        None => append(
            &[
                b"  The type ",
                type_name(typeside, sort),
                b" isn't open, and it has no such constant.\n",
            ],
            out,
        )?,
    }
    append_constants(typeside, sort, out)
}

/// Appends that a constant is of another type.
fn append_other_type(
    typeside: &Typeside,
    number: u32,
    sort: u32,
    out: &mut Vec<u8>,
) -> Result<(), AllocError> {
    let of: &[u8] = match typeside.constants.as_slice().get(number as usize) {
        Some((_, of)) => type_name(typeside, *of),
        None => &[],
    };
    append(
        &[
            b"  It is a constant of the type ",
            of,
            b", and the column has the type ",
            type_name(typeside, sort),
            b".\n",
        ],
        out,
    )
}

/// Appends why a cell that begins with `?` is no null there.
fn append_null(field: &[u8], out: &mut Vec<u8>) -> Result<(), AllocError> {
    if read_label(field).is_some() {
        append(
            &[
                b"  This null is of another type, by a column before or by its record in entries-2.csv, or it has no",
                b" record there. Number it otherwise.\n",
            ],
            out,
        )
    } else {
        append(
            &[
                b"  Behind ? stands a number of one to nine digits that doesn't begin with 0.",
                b" Leave the cell empty if nothing is known.\n",
            ],
            out,
        )
    }
}

/// Appends which rule the cell of an attribute breaks.
fn append_attribute(
    sheet: &Sheet,
    sort: u32,
    field: &[u8],
    out: &mut Vec<u8>,
) -> Result<(), AllocError> {
    let schema: &Schema = sheet.schema;
    let typeside: &Typeside = &schema.typeside;
    match field.first() {
        Some(b'?') => append_null(field, out),
        Some(b'=') => append(
            &[
                b"  Behind = a value of the type ",
                type_name(typeside, sort),
                b" is wanted as it is printed.",
                b" For a text that begins with =, write =\"..\" with the text between the quotes.\n",
            ],
            out,
        ),
        _ => append_constant(sheet, typeside, sort, field, out),
    }
}

/// Appends which rule a cell breaks.
pub fn append_rule(
    sheet: &Sheet,
    column: u32,
    field: &[u8],
    out: &mut Vec<u8>,
) -> Result<(), AllocError> {
    if column == 1 {
        return append(
            &[
                b"the id is empty.\n  Each record needs an id, another one for each record of the file.\n",
            ],
            out,
        );
    }
    append_quoted(field, out)?;
    append(&[b" means nothing there.\n"], out)?;
    match sheet.columns.get((column as usize).saturating_sub(2)) {
        Some(Column::Attribute(_, sort)) => append_attribute(sheet, *sort, field, out),
        _ => Ok(()),
    }
}

/// Appends what stands in a column of the file of the nulls and the entries.
pub fn append_entry_rule(column: u32, field: &[u8], out: &mut Vec<u8>) -> Result<(), AllocError> {
    append_quoted(field, out)?;
    append(&[b" means nothing there.\n"], out)?;
    append_entry_column(column, out)
}

fn append_entry_column(column: u32, out: &mut Vec<u8>) -> Result<(), AllocError> {
    match column {
        1 => append(&[b"  The first column is \"null\" or \"entry\".\n"], out),
        2 => append(
            &[
                b"  In the record of a null stands ? and a label that no record before it has;",
                b" in that of an entry a function at its arguments, over nulls that have a record.\n",
            ],
            out,
        ),
        _ => append(
            &[
                b"  In the record of a null stands the name of its type;",
                b" in that of an entry a value of the function's type, over nulls that have a record.\n",
            ],
            out,
        ),
    }
}
