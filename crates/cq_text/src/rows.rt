//! The lines of entities and of their rows.
ghost use Rattle.std.specs.Prelude.{◌≡◌, ◌++◌, ◌<◌, IfSome, OnOk, codes, length, slice_get};
ghost use Rattle.std.specs.List.{flat_map};
ghost use Rattle.cq_theory.specs.Tables.{count_of};
ghost use Rattle.cq_theory.specs.Canonical.{below};
ghost use Rattle.cq_text.specs.Grouped.{IsGrouped, numbers_from};
ghost use Rattle.cq_instance.specs.InstanceData.{name_at};
ghost use Rattle.cq_text.specs.Transcript.{attribute_text, attribute_texts, key_text, key_texts, name_text};
ghost use Rattle.cq_text.specs.Transcript.{name_or_empty, heading, row_line, entity_lines};

use crate::pieces::{push_cell, push_name, push_number, push_reference, push_term};
use cq_instance::Instance;
use std::alloc::AllocError;

/// Appends the lines of all entities. The attributes and the keys are given by their numbers, for each entity.
pub fn push_entities(
    instance: &Instance,
    attributes: &[Vec<u32>],
    keys: &[Vec<u32>],
    text: &mut Vec<u8>,
) -> Result<(), AllocError>
    requires attributes { IsGrouped instance.now.schema.attributes (length instance.now.schema.entities)
        attributes.now }
    requires keys { IsGrouped instance.now.schema.keys (length instance.now.schema.entities) keys.now }
    ensures { OnOk result (text.new.items ≡ text.old.items
        ++ flat_map (entity_lines instance.now) (below (length instance.now.schema.entities))) }
{
    let count = instance.schema().entities.len() as u32;
    for entity in 0..count {
        let place = entity as usize;
        push_entity(instance, entity, &attributes[place], &keys[place], text)?;
    }
    Ok(())
}

fn push_entity(
    instance: &Instance,
    entity: u32,
    attributes: &[u32],
    keys: &[u32],
    text: &mut Vec<u8>,
) -> Result<(), AllocError>
    requires entity { entity < length instance.now.schema.entities }
    requires attributes { attributes.now ≡ numbers_from entity instance.now.schema.attributes }
    requires keys { keys.now ≡ numbers_from entity instance.now.schema.keys }
    ensures { OnOk result (text.new.items ≡ text.old.items ++ entity_lines instance.now entity) }
{
    push_entity_heading(instance, entity, text)?;
    push_rows(instance, entity, attributes, keys, text)?;
    Ok(())
}

fn push_entity_heading(
    instance: &Instance,
    entity: u32,
    text: &mut Vec<u8>,
) -> Result<(), AllocError>
    requires { entity < length instance.now.schema.entities }
    ensures { OnOk result (text.new.items ≡ text.old.items
        ++ heading (codes "entity " ++ name_or_empty (slice_get instance.now.schema.entities entity))
        (count_of instance.now.tables entity)) }
{
    text.extend_from_slice(b"entity ")?;
    push_entity_name(instance, entity, text)?;
    text.extend_from_slice(b" ")?;
    push_number(u64::from(instance.count(entity)), text)?;
    text.extend_from_slice(b"\n")?;
    Ok(())
}

/// Appends the name of an entity.
pub fn push_entity_name(
    instance: &Instance,
    entity: u32,
    text: &mut Vec<u8>,
) -> Result<(), AllocError>
    requires { entity < length instance.now.schema.entities }
    ensures { OnOk result (text.new.items ≡ text.old.items
        ++ name_or_empty (slice_get instance.now.schema.entities entity)) }
{
    let entities = instance.schema().entities.as_slice();
    push_name(&entities[entity as usize], text)?;
    Ok(())
}

fn push_rows(
    instance: &Instance,
    entity: u32,
    attributes: &[u32],
    keys: &[u32],
    text: &mut Vec<u8>,
) -> Result<(), AllocError>
    requires entity { entity < length instance.now.schema.entities }
    requires attributes { attributes.now ≡ numbers_from entity instance.now.schema.attributes }
    requires keys { keys.now ≡ numbers_from entity instance.now.schema.keys }
    ensures { OnOk result (text.new.items ≡ text.old.items
        ++ flat_map (row_line instance.now entity) (below (count_of instance.now.tables entity))) }
{
    let start = text.len();
    let count = instance.count(entity);
    for row in 0..count {
        make_room(text, start, row, count);
        push_row(instance, entity, row, attributes, keys, text)?;
    }
    Ok(())
}

/// How many rows of an entity tell how long the others are.
const MEASURED: u32 = 1024;

/// After some rows, of `count` whose lines begin at `start`, makes room for the others, since a text that grows by
/// doubling takes up to three times its memory. Where there isn't so much, the text grows as it goes.
fn make_room(text: &mut Vec<u8>, start: usize, row: u32, count: u32)
    ensures { text.new.items ≡ text.old.items }
{
    if row == MEASURED {
        // Later rows have longer numbers and names: 200,000 has two digits more than 1,024.
        let bytes = text.len().saturating_sub(start) / MEASURED as usize;
        let each = bytes.saturating_add(bytes / 16).saturating_add(4);
        let _made = text.reserve(each.saturating_mul(count.saturating_sub(row) as usize));
    }
}

fn push_row(
    instance: &Instance,
    entity: u32,
    row: u32,
    attributes: &[u32],
    keys: &[u32],
    text: &mut Vec<u8>,
) -> Result<(), AllocError>
    requires entity { entity < length instance.now.schema.entities }
    requires row { row < count_of instance.now.tables entity }
    requires attributes { attributes.now ≡ numbers_from entity instance.now.schema.attributes }
    requires keys { keys.now ≡ numbers_from entity instance.now.schema.keys }
    ensures { OnOk result (text.new.items ≡ text.old.items ++ row_line instance.now entity row) }
{
    push_number(u64::from(row) + 1, text)?;
    text.extend_from_slice(b" ")?;
    push_row_name(instance, entity, row, text)?;
    push_attributes(instance, entity, row, attributes, text)?;
    push_keys(instance, entity, row, keys, text)?;
    text.extend_from_slice(b"\n")?;
    Ok(())
}

fn push_row_name(
    instance: &Instance,
    entity: u32,
    row: u32,
    text: &mut Vec<u8>,
) -> Result<(), AllocError>
    requires entity { entity < length instance.now.schema.entities }
    requires row { row < count_of instance.now.tables entity }
    ensures { OnOk result (text.new.items ≡ text.old.items
        ++ name_text instance.now.schema.keys instance.now.presentation.generators
        (name_at instance.now.names entity row)) }
{
    let schema = instance.schema();
    let generators = instance.presentation().generators.as_slice();
    push_term(
        schema.keys.as_slice(),
        generators,
        instance.name_of(entity, row),
        text,
    )?;
    Ok(())
}

fn push_attributes(
    instance: &Instance,
    entity: u32,
    row: u32,
    attributes: &[u32],
    text: &mut Vec<u8>,
) -> Result<(), AllocError>
    requires row { row < count_of instance.now.tables entity }
    requires attributes { attributes.now ≡ numbers_from entity instance.now.schema.attributes }
    ensures { OnOk result (text.new.items ≡ text.old.items ++ attribute_texts instance.now entity row) }
{
    for attribute in attributes {
        push_attribute(instance, *attribute, row, text)?;
    }
    Ok(())
}

fn push_attribute(
    instance: &Instance,
    attribute: u32,
    row: u32,
    text: &mut Vec<u8>,
) -> Result<(), AllocError>
    requires attribute { attribute < length instance.now.schema.attributes }
    requires row { IfSome (slice_get instance.now.schema.attributes attribute)
        (λ edge. row < count_of instance.now.tables edge.from) }
    ensures { OnOk result (text.new.items ≡ text.old.items ++ attribute_text instance.now row attribute) }
{
    let schema = instance.schema();
    let attributes = schema.attributes.as_slice();
    let value = instance.cell(attribute, row);
    push_cell(&schema.typeside, attributes, attribute, value, text)?;
    Ok(())
}

fn push_keys(
    instance: &Instance,
    entity: u32,
    row: u32,
    keys: &[u32],
    text: &mut Vec<u8>,
) -> Result<(), AllocError>
    requires row { row < count_of instance.now.tables entity }
    requires keys { keys.now ≡ numbers_from entity instance.now.schema.keys }
    ensures { OnOk result (text.new.items ≡ text.old.items ++ key_texts instance.now entity row) }
{
    for key in keys {
        push_key(instance, *key, row, text)?;
    }
    Ok(())
}

fn push_key(instance: &Instance, key: u32, row: u32, text: &mut Vec<u8>) -> Result<(), AllocError>
    requires key { key < length instance.now.schema.keys }
    requires row { IfSome (slice_get instance.now.schema.keys key)
        (λ edge. row < count_of instance.now.tables edge.from) }
    ensures { OnOk result (text.new.items ≡ text.old.items ++ key_text instance.now row key) }
{
    let keys = instance.schema().keys.as_slice();
    push_reference(keys, key, instance.key(key, row), text)?;
    Ok(())
}
