//! The transcript of an instance.
ghost use Rattle.std.specs.Prelude.{◌≡◌, ◌++◌, IfOk, OnOk, codes, length};
ghost use Rattle.std.specs.List.{flat_map};
ghost use Rattle.cq_theory.specs.Canonical.{below};
ghost use Rattle.cq_text.specs.Transcript.{entity_lines, line, transcript_of};

use crate::algebra::{push_entries, push_nulls};
use crate::edges::{attributes_by_entity, keys_by_entity};
use crate::pieces::push_name;
use crate::rows::push_entities;
use cq_base::Name;
use cq_instance::Instance;
use std::alloc::{AllocError, Global};

/// The transcript of an instance under a name: its schema's name, each entity with its rows in order, the nulls
/// with their types, and the entries of functions. Each line ends with LF.
///
/// A row is shown by its number from 1, its least name, the values of its attributes and the numbers of the rows to
/// which its keys lead, both in the order of the schema. The only refusal is want of memory.
pub fn transcript(
    alloc: Global,
    name: &Name,
    schema: &Name,
    instance: &Instance,
) -> Result<Vec<u8>, AllocError>
    ensures { IfOk result (λ text. text.items ≡ transcript_of name.now schema.now instance.now) }
{
    let mut text = Vec::new(alloc);
    push_transcript(alloc, name, schema, instance, &mut text)?;
    Ok(text)
}

/// Appends the transcript of an instance to a text, so that a file's transcripts are made in one text. The only
/// refusal is want of memory, after which a part of it may stand there.
pub fn push_transcript(
    alloc: Global,
    name: &Name,
    schema: &Name,
    instance: &Instance,
    text: &mut Vec<u8>,
) -> Result<(), AllocError>
    ensures { OnOk result (text.new.items ≡ text.old.items ++ transcript_of name.now schema.now instance.now) }
{
    push_first_line(name, schema, text)?;
    push_tables(alloc, instance, text)?;
    push_nulls(instance, text)?;
    push_entries(instance, text)?;
    text.extend_from_slice(b"end\n")?;
    Ok(())
}

fn push_first_line(name: &Name, schema: &Name, text: &mut Vec<u8>) -> Result<(), AllocError>
    ensures { OnOk result (text.new.items ≡ text.old.items
        ++ line (codes "instance " ++ name.now ++ codes " : " ++ schema.now)) }
{
    text.extend_from_slice(b"instance ")?;
    push_name(name, text)?;
    text.extend_from_slice(b" : ")?;
    push_name(schema, text)?;
    text.extend_from_slice(b"\n")?;
    Ok(())
}

/// Appends the lines of all entities and rows.
fn push_tables(alloc: Global, instance: &Instance, text: &mut Vec<u8>) -> Result<(), AllocError>
    ensures { OnOk result (text.new.items ≡ text.old.items
        ++ flat_map (entity_lines instance.now) (below (length instance.now.schema.entities))) }
{
    let attributes = attributes_by_entity(alloc, instance)?;
    let keys = keys_by_entity(alloc, instance)?;
    push_entities(instance, &attributes, &keys, text)?;
    Ok(())
}
