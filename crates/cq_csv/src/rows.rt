//! The records of an entity's file.
ghost use Rattle.std.specs.Prelude.{◌≡◌, ◌∷◌, ◌+◌, ◌<◌, [], decimal, map, length, All, OnOk};
ghost use Rattle.csv.specs.Records.{partial_of};
ghost use Rattle.cq_text.specs.Spelling.{LeavesRow};
ghost use Rattle.cq_csv.specs.Files.{cell, header, names_of, reference, row_record};
ghost use Rattle.cq_csv.specs.Records.{AddsFields};

use crate::fields::{push_cell_field, push_name_field, push_number_field};
use crate::records::push_field;
use cq_instance::Instance;
use cq_theory::Edge;
use csv::ByteRecord;
use std::alloc::AllocError;

/// Appends the names of an entity's columns. Its attributes and keys are given by their numbers.
pub fn push_header(
    instance: &Instance,
    attributes: &[u32],
    keys: &[u32],
    fields: &mut ByteRecord,
) -> Result<(), AllocError>
    requires attributes { All (λ a. a < length instance.now.schema.attributes) attributes.now }
    requires keys { All (λ k. k < length instance.now.schema.keys) keys.now }
    requires whole { partial_of fields.old ≡ [] }
    ensures { OnOk result (AddsFields fields.old fields.new (header instance.now attributes.now keys.now)) }
{
    let schema = instance.schema();
    push_field(b"id", fields)?;
    push_names(schema.attributes.as_slice(), attributes, fields)?;
    push_names(schema.keys.as_slice(), keys, fields)?;
    Ok(())
}

fn push_names(edges: &[Edge], numbers: &[u32], fields: &mut ByteRecord) -> Result<(), AllocError>
    requires within { All (λ n. n < length edges.now) numbers.now }
    requires whole { partial_of fields.old ≡ [] }
    ensures { OnOk result (AddsFields fields.old fields.new (names_of edges.now numbers.now)) }
{
    for number in numbers {
        push_edge_name(edges, *number, fields)?;
    }
    Ok(())
}

fn push_edge_name(edges: &[Edge], edge: u32, fields: &mut ByteRecord) -> Result<(), AllocError>
    requires within { edge < length edges.now }
    requires whole { partial_of fields.old ≡ [] }
    ensures { OnOk result (AddsFields fields.old fields.new (names_of edges.now (edge ∷ []))) }
{
    push_name_field(&edges[edge as usize].name, fields)?;
    Ok(())
}

/// Appends the fields of a row. The attributes and keys of its entity are given by their numbers, and the text is
/// room to write in.
pub fn push_row(
    instance: &Instance,
    row: u32,
    attributes: &[u32],
    keys: &[u32],
    text: &mut Vec<u8>,
    fields: &mut ByteRecord,
) -> Result<(), AllocError>
    requires attributes { All (LeavesRow instance.now.tables instance.now.schema.attributes row) attributes.now }
    requires keys { All (LeavesRow instance.now.tables instance.now.schema.keys row) keys.now }
    requires whole { partial_of fields.old ≡ [] }
    ensures { OnOk result (AddsFields fields.old fields.new (row_record instance.now attributes.now keys.now row)) }
{
    push_number_field(u64::from(row) + 1, text, fields)?;
    push_cells(instance, row, attributes, text, fields)?;
    push_references(instance, row, keys, text, fields)?;
    Ok(())
}

fn push_cells(
    instance: &Instance,
    row: u32,
    attributes: &[u32],
    text: &mut Vec<u8>,
    fields: &mut ByteRecord,
) -> Result<(), AllocError>
    requires row { All (LeavesRow instance.now.tables instance.now.schema.attributes row) attributes.now }
    requires whole { partial_of fields.old ≡ [] }
    ensures { OnOk result (AddsFields fields.old fields.new (map (cell instance.now row) attributes.now)) }
{
    for attribute in attributes {
        push_cell(instance, row, *attribute, text, fields)?;
    }
    Ok(())
}

fn push_cell(
    instance: &Instance,
    row: u32,
    attribute: u32,
    text: &mut Vec<u8>,
    fields: &mut ByteRecord,
) -> Result<(), AllocError>
    requires row { LeavesRow instance.now.tables instance.now.schema.attributes row attribute }
    requires whole { partial_of fields.old ≡ [] }
    ensures { OnOk result (AddsFields fields.old fields.new (cell instance.now row attribute ∷ [])) }
{
    let schema = instance.schema();
    let value = instance.cell(attribute, row);
    push_cell_field(&schema.typeside, value, text, fields)?;
    Ok(())
}

fn push_references(
    instance: &Instance,
    row: u32,
    keys: &[u32],
    text: &mut Vec<u8>,
    fields: &mut ByteRecord,
) -> Result<(), AllocError>
    requires row { All (LeavesRow instance.now.tables instance.now.schema.keys row) keys.now }
    requires whole { partial_of fields.old ≡ [] }
    ensures { OnOk result (AddsFields fields.old fields.new (map (reference instance.now row) keys.now)) }
{
    for key in keys {
        push_reference(instance, row, *key, text, fields)?;
    }
    Ok(())
}

fn push_reference(
    instance: &Instance,
    row: u32,
    key: u32,
    text: &mut Vec<u8>,
    fields: &mut ByteRecord,
) -> Result<(), AllocError>
    requires row { LeavesRow instance.now.tables instance.now.schema.keys row key }
    requires whole { partial_of fields.old ≡ [] }
    ensures { OnOk result (AddsFields fields.old fields.new (reference instance.now row key ∷ [])) }
{
    let target = instance.key(key, row);
    push_number_field(u64::from(target) + 1, text, fields)?;
    Ok(())
}
