//! The generators of a literal.
ghost use Rattle.std.specs.Prelude.{◌≡◌, ◌++◌, ◌+◌, ◌<◌, All, OnOk, length, slice_index};
ghost use Rattle.std.specs.List.{flat_map};
ghost use Rattle.cq_theory.specs.Tables.{count_of};
ghost use Rattle.cq_theory.specs.Canonical.{below, canonical};
ghost use Rattle.cq_text.specs.Literal.{generator_line};
ghost use Rattle.cq_text.specs.Spelling.{null_generator_line, plain_line, row_generator_line, IsPlan};

use crate::pieces::push_type;
use crate::plan::{Plan, row_number, sum_of};
use crate::rows::push_entity_name;
use crate::spelling::push_generator;
use cq_instance::Instance;
use cq_theory::Typeside;
use std::alloc::AllocError;

/// Appends the lines of all generators: those of the rows, entity by entity, and then those of the nulls.
pub fn push_generators(
    instance: &Instance,
    plan: &Plan,
    text: &mut Vec<u8>,
) -> Result<(), AllocError>
    requires { IsPlan instance.now plan.now }
    ensures { OnOk result (text.new.items ≡ text.old.items
        ++ flat_map (generator_line instance.now.schema)
        (canonical instance.now.schema instance.now.tables).generators) }
{
    push_row_generators(instance, plan, text)?;
    push_null_generators(instance, plan, text)?;
    Ok(())
}

fn push_row_generators(
    instance: &Instance,
    plan: &Plan,
    text: &mut Vec<u8>,
) -> Result<(), AllocError>
    requires { IsPlan instance.now plan.now }
    ensures { OnOk result (text.new.items ≡ text.old.items
        ++ flat_map (λ entity. flat_map (row_generator_line instance.now.schema instance.now.tables entity)
        (below (count_of instance.now.tables entity))) (below (length instance.now.schema.entities))) }
{
    let count = instance.schema().entities.len() as u32;
    for entity in 0..count {
        push_entity_generators(instance, plan, entity, text)?;
    }
    Ok(())
}

fn push_entity_generators(
    instance: &Instance,
    plan: &Plan,
    entity: u32,
    text: &mut Vec<u8>,
) -> Result<(), AllocError>
    requires plan { IsPlan instance.now plan.now }
    requires entity { entity < length instance.now.schema.entities }
    ensures { OnOk result (text.new.items ≡ text.old.items
        ++ flat_map (row_generator_line instance.now.schema instance.now.tables entity)
        (below (count_of instance.now.tables entity))) }
{
    for row in 0..instance.count(entity) {
        push_row_generator(instance, plan, entity, row, text)?;
    }
    Ok(())
}

fn push_row_generator(
    instance: &Instance,
    plan: &Plan,
    entity: u32,
    row: u32,
    text: &mut Vec<u8>,
) -> Result<(), AllocError>
    requires plan { IsPlan instance.now plan.now }
    requires entity { entity < length instance.now.schema.entities }
    ensures { OnOk result (text.new.items ≡ text.old.items
        ++ row_generator_line instance.now.schema instance.now.tables entity row) }
{
    let number = row_number(instance, plan, entity, row)?;
    push_generator(number, text)?;
    text.extend_from_slice(b" : ")?;
    push_entity_name(instance, entity, text)?;
    text.extend_from_slice(b"\n")?;
    Ok(())
}

fn push_null_generators(
    instance: &Instance,
    plan: &Plan,
    text: &mut Vec<u8>,
) -> Result<(), AllocError>
    requires { IsPlan instance.now plan.now }
    ensures { OnOk result (text.new.items ≡ text.old.items
        ++ flat_map (null_generator_line instance.now.schema instance.now.tables)
        (below (length instance.now.tables.algebra.nulls))) }
{
    let sorts = instance.algebra().nulls.as_slice();
    push_plain_generators(&instance.schema().typeside, plan.first_null, sorts, text)?;
    Ok(())
}

fn push_plain_generators(
    typeside: &Typeside,
    first_null: u64,
    sorts: &[u32],
    text: &mut Vec<u8>,
) -> Result<(), AllocError>
    requires { All (λ sort. sort < length typeside.now.types) sorts.now }
    ensures { OnOk result (text.new.items ≡ text.old.items
        ++ flat_map (λ label. plain_line typeside.now (first_null + label) (slice_index sorts.now label))
        (below (length sorts.now))) }
{
    for label in 0..sorts.len() {
        push_plain_generator(
            typeside,
            sum_of(first_null, label as u64)?,
            sorts[label],
            text,
        )?;
    }
    Ok(())
}

fn push_plain_generator(
    typeside: &Typeside,
    number: u64,
    sort: u32,
    text: &mut Vec<u8>,
) -> Result<(), AllocError>
    requires { sort < length typeside.now.types }
    ensures { OnOk result (text.new.items ≡ text.old.items ++ plain_line typeside.now number sort) }
{
    push_generator(number, text)?;
    text.extend_from_slice(b" : ")?;
    push_type(typeside, sort, text)?;
    text.extend_from_slice(b"\n")?;
    Ok(())
}
