//! The records of nulls and of entries.
ghost use Rattle.std.specs.Prelude.{ℕ, List, ◌≡◌, ◌++◌, ◌<◌, ◌∷◌, [], All, IfOk, OnOk, length, map, slice_get};
ghost use Rattle.csv.specs.Records.{fields_of, partial_of};
ghost use Rattle.cq_theory.specs.ValueText.{application_text, function_name, value_text};
ghost use Rattle.cq_text.specs.Transcript.{IsNamedEntry, name_or_empty};
ghost use Rattle.cq_csv.specs.Files.{algebra_records, entry_record, entry_records, mark as mark_of, null_record};
ghost use Rattle.cq_csv.specs.Files.{null_records};
ghost use Rattle.cq_csv.specs.Records.{AddsFields, HasWritten, file_text};

use crate::fields::{push_name_field, push_null_field, push_value_field};
use crate::records::{finish, push_field, start, write};
use cq_instance::Instance;
use cq_theory::value_text::push_application;
use cq_theory::{Entry, Typeside};
use csv::{ByteRecord, Writer};
use std::alloc::{AllocError, Global};

/// The text of the file with the nulls and the entries.
pub fn algebra_text(alloc: Global, instance: &Instance) -> Result<Vec<u8>, AllocError>
    ensures { IfOk result (λ text. text.items ≡ file_text (algebra_records instance.now)) }
{
    let mut writer = start(alloc);
    let first = mark(alloc)?;
    write(&mut writer, &first)?;
    write_nulls(alloc, instance, &mut writer)?;
    write_entries(alloc, instance, &mut writer)?;
    let text = finish(writer)?;
    Ok(text)
}

/// The first record: the mark of the format.
fn mark(alloc: Global) -> Result<ByteRecord, AllocError>
    ensures { IfOk result (λ fields. fields_of fields ≡ mark_of) }
{
    let mut fields = ByteRecord::new(alloc);
    push_field(b"format-2", &mut fields)?;
    push_field(b"left", &mut fields)?;
    push_field(b"right", &mut fields)?;
    Ok(fields)
}

fn write_nulls(
    alloc: Global,
    instance: &Instance,
    writer: &mut Writer<Vec<u8>>,
) -> Result<(), AllocError>
    ensures { (before : List (List (List ℕ))) → HasWritten writer.old before
        → OnOk result (HasWritten writer.new (before
        ++ null_records instance.now.schema.typeside instance.now.tables.algebra.nulls)) }
{
    let sorts = instance.algebra().nulls.as_slice();
    write_null_records(alloc, &instance.schema().typeside, sorts, writer)?;
    Ok(())
}

fn write_null_records(
    alloc: Global,
    typeside: &Typeside,
    sorts: &[u32],
    writer: &mut Writer<Vec<u8>>,
) -> Result<(), AllocError>
    requires { All (λ sort. sort < length typeside.now.types) sorts.now }
    ensures { (before : List (List (List ℕ))) → HasWritten writer.old before
        → OnOk result (HasWritten writer.new (before ++ null_records typeside.now sorts.now)) }
{
    let mut text = Vec::new(alloc);
    let mut fields = ByteRecord::new(alloc);
    for label in 0..sorts.len() {
        fill_null(typeside, label as u64, sorts[label], &mut text, &mut fields)?;
        write(writer, &fields)?;
    }
    Ok(())
}

/// Makes the record of a null.
fn fill_null(
    typeside: &Typeside,
    label: u64,
    sort: u32,
    text: &mut Vec<u8>,
    fields: &mut ByteRecord,
) -> Result<(), AllocError>
    requires { sort < length typeside.now.types }
    ensures { OnOk result (fields_of fields.new ≡ null_record typeside.now label sort) }
{
    fields.clear();
    push_field(b"null", fields)?;
    push_null_field(label, text, fields)?;
    push_type_field(typeside, sort, fields)?;
    Ok(())
}

fn push_type_field(
    typeside: &Typeside,
    sort: u32,
    fields: &mut ByteRecord,
) -> Result<(), AllocError>
    requires sort { sort < length typeside.now.types }
    requires whole { partial_of fields.old ≡ [] }
    ensures { OnOk result (AddsFields fields.old fields.new (name_or_empty (slice_get typeside.now.types sort) ∷ [])) }
{
    let types = typeside.types.as_slice();
    push_name_field(&types[sort as usize], fields)?;
    Ok(())
}

fn write_entries(
    alloc: Global,
    instance: &Instance,
    writer: &mut Writer<Vec<u8>>,
) -> Result<(), AllocError>
    ensures { (before : List (List (List ℕ))) → HasWritten writer.old before
        → OnOk result (HasWritten writer.new (before
        ++ entry_records instance.now.schema.typeside instance.now.tables.algebra.entries)) }
{
    let entries = instance.algebra().entries.as_slice();
    write_entry_records(alloc, &instance.schema().typeside, entries, writer)?;
    Ok(())
}

fn write_entry_records(
    alloc: Global,
    typeside: &Typeside,
    entries: &[Entry],
    writer: &mut Writer<Vec<u8>>,
) -> Result<(), AllocError>
    requires { All (IsNamedEntry typeside.now) entries.now }
    ensures { (before : List (List (List ℕ))) → HasWritten writer.old before
        → OnOk result (HasWritten writer.new (before ++ entry_records typeside.now entries.now)) }
{
    let mut text = Vec::new(alloc);
    let mut fields = ByteRecord::new(alloc);
    for entry in entries {
        fill_entry(typeside, entry, &mut text, &mut fields)?;
        write(writer, &fields)?;
    }
    Ok(())
}

/// Makes the record of an entry.
fn fill_entry(
    typeside: &Typeside,
    entry: &Entry,
    text: &mut Vec<u8>,
    fields: &mut ByteRecord,
) -> Result<(), AllocError>
    requires { IsNamedEntry typeside.now entry.now }
    ensures { OnOk result (fields_of fields.new ≡ entry_record typeside.now entry.now) }
{
    fields.clear();
    push_field(b"entry", fields)?;
    push_application_field(typeside, entry, text, fields)?;
    push_value_field(typeside, &entry.value, text, fields)?;
    Ok(())
}

fn push_application_field(
    typeside: &Typeside,
    entry: &Entry,
    text: &mut Vec<u8>,
    fields: &mut ByteRecord,
) -> Result<(), AllocError>
    requires named { IsNamedEntry typeside.now entry.now }
    requires whole { partial_of fields.old ≡ [] }
    ensures { OnOk result (AddsFields fields.old fields.new
        (application_text (function_name (slice_get typeside.now.functions entry.now.function))
        (map (value_text typeside.now) entry.now.args) ∷ [])) }
{
    text.clear();
    push_application(typeside, entry.function, entry.args.as_slice(), text)?;
    push_field(text.as_slice(), fields)?;
    Ok(())
}
