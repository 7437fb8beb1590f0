//! The files of an instance.
ghost use Rattle.std.specs.Prelude.{◌≡◌, ◌++◌, ◌<◌, ◌∷◌, [], IfOk, OnOk, length, map, slice_get, string_bytes};
ghost use Rattle.csv.specs.Records.{fields_of};
ghost use Rattle.cq_theory.specs.Canonical.{below};
ghost use Rattle.cq_text.specs.Grouped.{numbers_from};
ghost use Rattle.cq_text.specs.Transcript.{name_or_empty};
ghost use Rattle.cq_csv.specs.Files.{entity_file, entity_records, file_name as name_in, files_of};
ghost use Rattle.cq_csv.specs.Records.{file_text};

use crate::algebra::algebra_text;
use crate::records::{finish, start, write};
use crate::rows::{push_header, push_row};
use cq_base::Name;
use cq_instance::Instance;
use cq_text::edges::{attributes_by_entity, keys_by_entity};
use csv::ByteRecord;
use std::alloc::{AllocError, Global};

/// The CSV files of an instance under a name, each by its name and with its bytes: `INSTANCE/ENTITY.csv` for each
/// entity in order, and then `INSTANCE/entries-2.csv`.
///
/// The file of an entity has the columns `id`, its attributes and its foreign keys in the order of the schema, and a
/// record for each row: its number from 1, the value of each attribute, and the number of the row to which each key
/// leads. A constant is written as it is, a null as `?` and its label, and a built value as `=` and its text. The last
/// file has the nulls with their types and the entries. The only refusal is want of memory.
pub fn files(
    alloc: Global,
    name: &Name,
    instance: &Instance,
) -> Result<Vec<(String, Vec<u8>)>, AllocError>
    ensures { IfOk result (λ files. map (λ file. (string_bytes file.0, file.1.items)) files.items
        ≡ files_of name.now instance.now) }
{
    let mut files = entity_files(alloc, name, instance)?;
    let last = file_name(alloc, name, "entries-2")?;
    let text = algebra_text(alloc, instance)?;
    files.push((last, text))?;
    Ok(files)
}

/// The files of the entities.
fn entity_files(
    alloc: Global,
    name: &Name,
    instance: &Instance,
) -> Result<Vec<(String, Vec<u8>)>, AllocError>
    ensures { IfOk result (λ files. map (λ file. (string_bytes file.0, file.1.items)) files.items ≡ map
        (entity_file name.now instance.now) (below (length instance.now.schema.entities))) }
{
    let attributes = attributes_by_entity(alloc, instance)?;
    let keys = keys_by_entity(alloc, instance)?;
    let entities = instance.schema().entities.len() as u32;
    let mut files = Vec::new(alloc);
    for entity in 0..entities {
        let place = entity as usize;
        let file = entity_name(alloc, name, instance, entity)?;
        let text = entity_text(alloc, instance, entity, &attributes[place], &keys[place])?;
        files.push((file, text))?;
    }
    Ok(files)
}

/// The name of an entity's file.
fn entity_name(
    alloc: Global,
    name: &Name,
    instance: &Instance,
    entity: u32,
) -> Result<String, AllocError>
    requires { entity < length instance.now.schema.entities }
    ensures { IfOk result (λ file. string_bytes file ≡ name_in name.now
        (name_or_empty (slice_get instance.now.schema.entities entity))) }
{
    let entities = instance.schema().entities.as_slice();
    let file = file_name(alloc, name, entities[entity as usize].as_str())?;
    Ok(file)
}

/// The name of a file in the folder of an instance.
fn file_name(alloc: Global, folder: &Name, file: &str) -> Result<String, AllocError>
    ensures { IfOk result (λ name. string_bytes name ≡ name_in folder.now file.now) }
{
    let mut name = String::from_str(alloc, folder.as_str())?;
    name.push_str("/")?;
    name.push_str(file)?;
    name.push_str(".csv")?;
    Ok(name)
}

/// The text of an entity's file.
fn entity_text(
    alloc: Global,
    instance: &Instance,
    entity: u32,
    attributes: &[u32],
    keys: &[u32],
) -> Result<Vec<u8>, AllocError>
    requires entity { entity < length instance.now.schema.entities }
    requires attributes { attributes.now ≡ numbers_from entity instance.now.schema.attributes }
    requires keys { keys.now ≡ numbers_from entity instance.now.schema.keys }
    ensures { IfOk result (λ text. text.items ≡ file_text (entity_records instance.now entity)) }
{
    let mut writer = start(alloc);
    let mut text = Vec::new(alloc);
    let mut fields = ByteRecord::new(alloc);
    push_header(instance, attributes, keys, &mut fields)?;
    write(&mut writer, &fields)?;
    let count = instance.count(entity);
    for row in 0..count {
        fields.clear();
        push_row(instance, row, attributes, keys, &mut text, &mut fields)?;
        write(&mut writer, &fields)?;
    }
    let bytes = finish(writer)?;
    Ok(bytes)
}
