//! Which rows are too many.
ghost use Rattle.std.specs.Prelude.{ℕ, ◌≡◌, ◌≤◌, ◌++◌, OnOk, length, slice_get};
ghost use Rattle.cq_tables.specs.Content.{entities_of, IsWhole};
ghost use Rattle.cq_text.specs.Transcript.{name_or_empty};
ghost use Rattle.cq_theory.specs.Presentation.{IsPresentation};
ghost use Rattle.cq_witness.specs.Rows.{count_text, most_text, wide_text, TellsRows, TellsWithin};

use crate::phrases::{Phrase, append_phrase};
use cq_growth::{Growth, Most, Within, last_within, most_rows};
use cq_text::push_number;
use cq_theory::{Presentation, Schema};
use std::alloc::{AllocError, Global};

/// Appends the name of an entity, if there is such an entity.
fn append_entity(out: &mut Vec<u8>, schema: &Schema, entity: u32) -> Result<(), AllocError>
    ensures { OnOk result (out.new.items ≡ out.old.items
        ++ name_or_empty (slice_get schema.now.entities entity)) }
{
    match schema.entities.as_slice().get(entity as usize) {
        Some(name) => {
            out.extend_from_slice(name.as_str().as_bytes())?;
            Ok(())
        }
        None => Ok(()),
    }
}

/// Appends how many rows an entity has.
fn append_count(out: &mut Vec<u8>, schema: &Schema, most: &Most) -> Result<(), AllocError>
    ensures { OnOk result (out.new.items ≡ out.old.items ++ count_text schema.now most.now) }
{
    push_number(most.count, out)?;
    append_phrase(out, Phrase::RowsOf)?;
    append_entity(out, schema, most.entity)?;
    Ok(())
}

/// Appends which entity has most rows at a depth, and how many.
fn append_most(
    out: &mut Vec<u8>,
    schema: &Schema,
    depth: u32,
    most: &Most,
) -> Result<(), AllocError>
    ensures { OnOk result (out.new.items ≡ out.old.items ++ most_text schema.now depth most.now) }
{
    append_phrase(out, Phrase::OfDepth)?;
    push_number(depth as u64, out)?;
    append_phrase(out, Phrase::ThereAre)?;
    append_count(out, schema, most)?;
    append_phrase(out, Phrase::NoneMore)?;
    Ok(())
}

/// Appends that the rows are too many at a depth, and what there is to mend.
fn append_wide(out: &mut Vec<u8>, schema: &Schema, wide: u32, most: &Most) -> Result<(), AllocError>
    ensures { OnOk result (out.new.items ≡ out.old.items ++ wide_text schema.now wide most.now) }
{
    append_phrase(out, Phrase::WithDepth)?;
    push_number(u64::from(wide), out)?;
    append_phrase(out, Phrase::TooMany)?;
    append_entity(out, schema, most.entity)?;
    append_phrase(out, Phrase::Split)?;
    Ok(())
}

/// How many entities there are.
fn entity_count(schema: &Schema) -> u32
    ensures { result ≡ length schema.now.entities }
{
    schema.is_well_sorted();
    schema.entities.len() as u32
}

/// Appends a depth at which rows are not too many, with the entity that has most, and one at which they are.
fn append_within(
    alloc: Global,
    out: &mut Vec<u8>,
    schema: &Schema,
    within: &Within,
    wide: u32,
) -> Result<(), AllocError>
    requires whole { IsWhole within.now.rows.tables }
    requires entities { entities_of within.now.rows.tables ≡ length schema.now.entities }
    ensures { OnOk result (TellsWithin schema.now within.now wide out.old.items out.new.items) }
{
    let entities = entity_count(schema);
    let Some(most) = most_rows(alloc, &within.rows.tables, entities)? else {
        return Ok(());
    };
    append_most(out, schema, within.depth, &most)?;
    append_wide(out, schema, wide, &most)?;
    Ok(())
}

/// Appends how the rows of a presentation become too many up to a depth, of at most 64: the entity that has most at the
/// last depth at which they aren't, and how many; or at an earlier one, where the rows of the next would take too much
/// memory. Nothing is appended where they are at no depth too many.
pub fn append_rows(
    alloc: Global,
    out: &mut Vec<u8>,
    schema: &Schema,
    presentation: &Presentation,
    depth: u32,
) -> Result<(), AllocError>
    requires presentation { IsPresentation schema.now presentation.now }
    requires depth { depth ≤ 64 }
    ensures { OnOk result (TellsRows schema.now presentation.now depth out.old.items out.new.items) }
{
    let grown = last_within(alloc, schema, presentation, depth)?;
    match &grown {
        Growth::Kept => Ok(()),
        Growth::Passed(within) => {
            append_within(alloc, out, schema, within, within.depth + 1)?;
            Ok(())
        }
        Growth::Later(within) => {
            append_within(alloc, out, schema, within, depth)?;
            Ok(())
        }
        Growth::AtOnce => {
            append_phrase(out, Phrase::AtOnce)?;
            Ok(())
        }
    }
}
