//! Texts of places: of the text, of files, and of tables.
ghost use Rattle.std.specs.Prelude.{◌≡◌, ◌++◌, OnOk, slice_get};
ghost use Rattle.cq_conflict.specs.Notes.{cell_text, column_text, edge_text, entity_text, file_text, line_text};
ghost use Rattle.cq_conflict.specs.Notes.{place_text, row_text};

use crate::sources::Files;
use cq_base::{Name, Place};
use cq_import::columns::Column;
use cq_origin::CellPlace;
use cq_text::push_number;
use cq_theory::{Edge, Schema};
use std::alloc::AllocError;

/// Appends a name.
pub fn push_name(name: &Name, text: &mut Vec<u8>) -> Result<(), AllocError>
    ensures { OnOk result (text.new.items ≡ text.old.items ++ name.now) }
{
    text.extend_from_slice(name.as_str().as_bytes())?;
    Ok(())
}

/// Appends a place of the text: its line and its column.
pub fn push_place(place: Place, text: &mut Vec<u8>) -> Result<(), AllocError>
    ensures { OnOk result (text.new.items ≡ text.old.items ++ place_text place) }
{
    text.extend_from_slice(b"line ")?;
    push_number(u64::from(place.line), text)?;
    text.extend_from_slice(b", column ")?;
    push_number(u64::from(place.col), text)?;
    Ok(())
}

/// Appends the name of a foreign key or an attribute.
fn push_edge(edges: &[Edge], number: u32, text: &mut Vec<u8>) -> Result<(), AllocError>
    ensures { OnOk result (text.new.items ≡ text.old.items ++ edge_text (slice_get edges.now number)) }
{
    match edges.get(number as usize) {
        Some(edge) => push_name(&edge.name, text),
        None => Ok(()),
    }
}

/// Appends the name of a column.
fn push_column(schema: &Schema, column: Column, text: &mut Vec<u8>) -> Result<(), AllocError>
    ensures { OnOk result (text.new.items ≡ text.old.items ++ column_text schema.now column) }
{
    match column {
        Column::Attribute(attribute, _) => push_edge(schema.attributes.as_slice(), attribute, text),
        Column::Key(key, _) => push_edge(schema.keys.as_slice(), key, text),
    }
}

/// Appends the name of an entity.
fn push_entity(schema: &Schema, entity: u32, text: &mut Vec<u8>) -> Result<(), AllocError>
    ensures { OnOk result (text.new.items ≡ text.old.items ++ entity_text (slice_get schema.now.entities entity)) }
{
    match schema.entities.as_slice().get(entity as usize) {
        Some(name) => push_name(name, text),
        None => Ok(()),
    }
}

/// Appends the name of the file of an entity in a folder.
fn push_file(files: Files, entity: u32, text: &mut Vec<u8>) -> Result<(), AllocError>
    ensures { OnOk result (text.new.items ≡ text.old.items
        ++ file_text files.entry.dir.now files.entry.schema.now entity) }
{
    push_name(files.dir, text)?;
    text.extend_from_slice(b"/")?;
    push_entity(files.schema, entity, text)?;
    text.extend_from_slice(b".csv")?;
    Ok(())
}

/// Appends the line of a file where it is known, and else the number of the record.
fn push_line(line: Option<u32>, number: u64, text: &mut Vec<u8>) -> Result<(), AllocError>
    ensures { OnOk result (text.new.items ≡ text.old.items ++ line_text line number) }
{
    match line {
        Some(line) => {
            text.extend_from_slice(b"line ")?;
            push_number(u64::from(line), text)
        }
        None => {
            text.extend_from_slice(b"record ")?;
            push_number(number, text)
        }
    }
}

/// Appends a cell: its file, the line, and the name of the column.
pub fn push_cell(
    files: Files,
    place: CellPlace,
    line: Option<u32>,
    text: &mut Vec<u8>,
) -> Result<(), AllocError>
    ensures { OnOk result (text.new.items ≡ text.old.items
        ++ cell_text files.entry.dir.now files.entry.schema.now place line) }
{
    push_file(files, place.entity, text)?;
    text.extend_from_slice(b", ")?;
    push_line(line, place.record_number, text)?;
    text.extend_from_slice(b", column ")?;
    push_column(files.schema, place.column, text)?;
    Ok(())
}

/// Appends a row of tables that no file has: its entity, its number from 1, and the name of the column.
pub fn push_row(schema: &Schema, place: CellPlace, text: &mut Vec<u8>) -> Result<(), AllocError>
    ensures { OnOk result (text.new.items ≡ text.old.items ++ row_text schema.now place) }
{
    text.extend_from_slice(b"row ")?;
    push_number(place.record_number, text)?;
    text.extend_from_slice(b" of ")?;
    push_entity(schema, place.entity, text)?;
    text.extend_from_slice(b", column ")?;
    push_column(schema, place.column, text)?;
    Ok(())
}
