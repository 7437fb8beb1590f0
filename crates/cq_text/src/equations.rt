//! The equations of a literal.
ghost use Rattle.std.specs.Prelude.{◌≡◌, ◌++◌, ◌<◌, All, OnOk, length, sum};
ghost use Rattle.std.specs.List.{flat_map};
ghost use Rattle.cq_theory.specs.Tables.{count_of};
ghost use Rattle.cq_theory.specs.Canonical.{below, canonical, row_equations, row_generator, entity_equations};
ghost use Rattle.cq_text.specs.Transcript.{IsNamedEntry};
ghost use Rattle.cq_text.specs.Literal.{equation_line};
ghost use Rattle.cq_text.specs.Spelling.{cell_equation_line, entry_equation_line, key_equation_line, IsPlan, LeavesRow};

use crate::plan::{Plan, row_number, target_number};
use crate::spelling::{push_edge_at, push_entry_equation, push_generator, push_spelled};
use cq_instance::Instance;
use cq_theory::{Entry, Typeside};
use std::alloc::AllocError;

/// Appends the equations of all rows, entity by entity, and then those of the entries.
pub fn push_equations(
    instance: &Instance,
    plan: &Plan,
    text: &mut Vec<u8>,
) -> Result<(), AllocError>
    requires { IsPlan instance.now plan.now }
    ensures { OnOk result (text.new.items ≡ text.old.items
        ++ flat_map (equation_line instance.now.schema) (canonical instance.now.schema instance.now.tables).equations) }
{
    push_row_equations(instance, plan, text)?;
    push_entries(instance, plan, text)?;
    Ok(())
}

fn push_row_equations(
    instance: &Instance,
    plan: &Plan,
    text: &mut Vec<u8>,
) -> Result<(), AllocError>
    requires { IsPlan instance.now plan.now }
    ensures { OnOk result (text.new.items ≡ text.old.items
        ++ flat_map (λ entity. flat_map (λ row. flat_map (equation_line instance.now.schema)
        (row_equations instance.now.schema instance.now.tables entity row))
        (below (count_of instance.now.tables entity))) (below (length instance.now.schema.entities))) }
{
    let count = instance.schema().entities.len() as u32;
    for entity in 0..count {
        push_entity_equations(instance, plan, entity, text)?;
    }
    Ok(())
}

fn push_entity_equations(
    instance: &Instance,
    plan: &Plan,
    entity: u32,
    text: &mut Vec<u8>,
) -> Result<(), AllocError>
    requires plan { IsPlan instance.now plan.now }
    requires entity { entity < length instance.now.schema.entities }
    ensures { OnOk result (text.new.items ≡ text.old.items
        ++ flat_map (λ row. flat_map (equation_line instance.now.schema)
        (row_equations instance.now.schema instance.now.tables entity row))
        (below (count_of instance.now.tables entity))) }
{
    for row in 0..instance.count(entity) {
        push_equations_at(instance, plan, entity, row, text)?;
    }
    Ok(())
}

/// Appends the equations of a row.
fn push_equations_at(
    instance: &Instance,
    plan: &Plan,
    entity: u32,
    row: u32,
    text: &mut Vec<u8>,
) -> Result<(), AllocError>
    requires plan { IsPlan instance.now plan.now }
    requires entity { entity < length instance.now.schema.entities }
    requires row { row < count_of instance.now.tables entity }
    ensures { OnOk result (text.new.items ≡ text.old.items
        ++ flat_map (equation_line instance.now.schema)
        (row_equations instance.now.schema instance.now.tables entity row)) }
{
    let number = row_number(instance, plan, entity, row)?;
    let attributes = plan.attributes[entity as usize].as_slice();
    push_cells(instance, plan, row, number, attributes, text)?;
    let keys = plan.keys[entity as usize].as_slice();
    push_keys(instance, plan, row, number, keys, text)?;
    Ok(())
}

fn push_cells(
    instance: &Instance,
    plan: &Plan,
    row: u32,
    generator: u64,
    attributes: &[u32],
    text: &mut Vec<u8>,
) -> Result<(), AllocError>
    requires plan { IsPlan instance.now plan.now }
    requires row { All (LeavesRow instance.now.tables instance.now.schema.attributes row) attributes.now }
    ensures { OnOk result (text.new.items ≡ text.old.items
        ++ flat_map (cell_equation_line instance.now.schema instance.now.tables generator row) attributes.now) }
{
    for attribute in attributes {
        push_cell(instance, plan, row, generator, *attribute, text)?;
    }
    Ok(())
}

fn push_cell(
    instance: &Instance,
    plan: &Plan,
    row: u32,
    generator: u64,
    attribute: u32,
    text: &mut Vec<u8>,
) -> Result<(), AllocError>
    requires plan { IsPlan instance.now plan.now }
    requires row { LeavesRow instance.now.tables instance.now.schema.attributes row attribute }
    ensures { OnOk result (text.new.items ≡ text.old.items
        ++ cell_equation_line instance.now.schema instance.now.tables generator row attribute) }
{
    let schema = instance.schema();
    let value = instance.cell(attribute, row);
    push_edge_at(schema.attributes.as_slice(), attribute, generator, text)?;
    text.extend_from_slice(b" = ")?;
    push_spelled(&schema.typeside, plan.first_null, value, text)?;
    text.extend_from_slice(b"\n")?;
    Ok(())
}

fn push_keys(
    instance: &Instance,
    plan: &Plan,
    row: u32,
    generator: u64,
    keys: &[u32],
    text: &mut Vec<u8>,
) -> Result<(), AllocError>
    requires plan { IsPlan instance.now plan.now }
    requires row { All (LeavesRow instance.now.tables instance.now.schema.keys row) keys.now }
    ensures { OnOk result (text.new.items ≡ text.old.items
        ++ flat_map (key_equation_line instance.now.schema instance.now.tables generator row) keys.now) }
{
    for key in keys {
        push_key(instance, plan, row, generator, *key, text)?;
    }
    Ok(())
}

fn push_key(
    instance: &Instance,
    plan: &Plan,
    row: u32,
    generator: u64,
    key: u32,
    text: &mut Vec<u8>,
) -> Result<(), AllocError>
    requires plan { IsPlan instance.now plan.now }
    requires row { LeavesRow instance.now.tables instance.now.schema.keys row key }
    ensures { OnOk result (text.new.items ≡ text.old.items
        ++ key_equation_line instance.now.schema instance.now.tables generator row key) }
{
    let target = target_number(instance, plan, key, row)?;
    push_edge_at(instance.schema().keys.as_slice(), key, generator, text)?;
    text.extend_from_slice(b" = ")?;
    push_generator(target, text)?;
    text.extend_from_slice(b"\n")?;
    Ok(())
}

fn push_entries(instance: &Instance, plan: &Plan, text: &mut Vec<u8>) -> Result<(), AllocError>
    requires { IsPlan instance.now plan.now }
    ensures { OnOk result (text.new.items ≡ text.old.items
        ++ flat_map (entry_equation_line instance.now.schema.typeside (sum instance.now.tables.sheet.counts))
        instance.now.tables.algebra.entries) }
{
    let entries = instance.algebra().entries.as_slice();
    push_entry_equations(&instance.schema().typeside, plan.first_null, entries, text)?;
    Ok(())
}

fn push_entry_equations(
    typeside: &Typeside,
    first_null: u64,
    entries: &[Entry],
    text: &mut Vec<u8>,
) -> Result<(), AllocError>
    requires { All (IsNamedEntry typeside.now) entries.now }
    ensures { OnOk result (text.new.items ≡ text.old.items
        ++ flat_map (entry_equation_line typeside.now first_null) entries.now) }
{
    for entry in entries {
        push_entry_equation(typeside, first_null, entry, text)?;
    }
    Ok(())
}
