//! The cells and the generators of types, as terms of nulls.
ghost use Rattle.std.specs.Prelude.{◌≡◌, ◌<◌, ◌∷◌, [], IfSome, OnOk, length, map, slice_get};
ghost use Rattle.std.specs.List.{enumerate_from, filter_map, flat_map};
ghost use Rattle.cq_theory.specs.Canonical.{below, edges_from};
ghost use Rattle.cq_theory.specs.Groups.{positions, edge_sources};
ghost use Rattle.cq_theory.specs.Listed.{cell_nodes, generator_node};
ghost use Rattle.cq_theory.specs.Tables.{count_of, row_of, value_in};
ghost use Rattle.cq_theory.specs.declared.term.TypeTerm.TheVariants.{Gen, Att};
ghost use Rattle.cq_instance.specs.InstanceData.{name_at};
ghost use Rattle.cq_instance.specs.Learning.{learned, learned_from};
ghost use Rattle.cq_instance.specs.Standing.{meaning};

use crate::instance::Instance;
use crate::null_terms::known::{is_unknown, learn};
use crate::standing::Standing;
use cq_terms::copy_entity_term;
use cq_theory::{EntTerm, Sort, TypeTerm, attributes_by_entity};
use std::alloc::{AllocError, Global};

/// Learns from the cell of an attribute at a row with this name.
fn learn_cell(
    alloc: Global,
    instance: &Instance,
    known: &mut Vec<Option<TypeTerm>>,
    name: &EntTerm,
    row: u32,
    attribute: u32,
) -> Result<(), AllocError>
    requires attribute { attribute < length instance.now.schema.attributes }
    requires row { IfSome (slice_get instance.now.schema.attributes attribute)
        (λ edge. row < count_of instance.now.tables edge.from) }
    requires name { row_of instance.now.tables instance.now.assignment name.now ≡ row }
    ensures { OnOk result (known.new.items ≡ learned_from instance.now known.old.items
        (Att attribute name.now ∷ [])) }
{
    let value = instance.cell(attribute, row);
    if is_unknown(known.as_slice(), value) {
        let term = TypeTerm::Att(attribute, copy_entity_term(alloc, name)?);
        learn(known, value, term);
    }
    Ok(())
}

/// Learns from the cells of a row, of whose entity the attributes have these numbers.
fn learn_row(
    alloc: Global,
    instance: &Instance,
    known: &mut Vec<Option<TypeTerm>>,
    entity: u32,
    row: u32,
    numbers: &[u32],
) -> Result<(), AllocError>
    requires entity { entity < length instance.now.schema.entities }
    requires row { row < count_of instance.now.tables entity }
    requires numbers { numbers.now ≡ positions (edge_sources instance.now.schema.attributes) entity }
    ensures { OnOk result (known.new.items ≡ learned_from instance.now known.old.items
        (map (λ a. Att a.0 (name_at instance.now.names entity row))
        (edges_from entity instance.now.schema.attributes))) }
{
    instance.is_instance();
    let name = instance.name_of(entity, row);
    for number in numbers {
        learn_cell(alloc, instance, known, name, row, *number)?;
    }
    Ok(())
}

/// Learns from the cells of an entity, whose attributes have these numbers.
fn learn_entity(
    alloc: Global,
    instance: &Instance,
    known: &mut Vec<Option<TypeTerm>>,
    entity: u32,
    numbers: &[u32],
) -> Result<(), AllocError>
    requires entity { entity < length instance.now.schema.entities }
    requires numbers { numbers.now ≡ positions (edge_sources instance.now.schema.attributes) entity }
    ensures { OnOk result (known.new.items ≡ learned_from instance.now known.old.items
        (cell_nodes instance.now.schema instance.now.presentation instance.now.names entity)) }
{
    instance.is_instance();
    for row in 0..instance.count(entity) {
        learn_row(alloc, instance, known, entity, row, numbers)?;
    }
    Ok(())
}

/// Learns from all cells.
pub fn learn_cells(
    alloc: Global,
    instance: &Instance,
    known: &mut Vec<Option<TypeTerm>>,
) -> Result<(), AllocError>
    ensures { OnOk result (known.new.items ≡ learned_from instance.now known.old.items
        (flat_map (cell_nodes instance.now.schema instance.now.presentation instance.now.names)
        (below (length instance.now.schema.entities)))) }
{
    let schema = instance.schema();
    schema.is_well_sorted();
    let groups = attributes_by_entity(alloc, schema)?;
    for entity in 0..schema.entities.len() as u32 {
        learn_entity(alloc, instance, known, entity, groups.of(entity))?;
    }
    Ok(())
}

/// Learns from a generator that stands for a row or a value.
fn learn_generator(known: &mut Vec<Option<TypeTerm>>, standing: &Standing, generator: u32)
    ensures { known.new.items ≡ learned (value_in (meaning standing.now)) (Gen generator) known.old.items }
{
    if let Standing::Value(value) = standing {
        if is_unknown(known.as_slice(), value) {
            learn(known, value, TypeTerm::Gen(generator));
        }
    }
}

/// Learns from the generators of types.
pub fn learn_generators(instance: &Instance, known: &mut Vec<Option<TypeTerm>>)
    ensures { known.new.items ≡ learned_from instance.now known.old.items
        (filter_map (generator_node instance.now.schema instance.now.presentation instance.now.names)
        (enumerate_from 0 instance.now.presentation.generators)) }
{
    let standings = instance.standings();
    for (number, generator) in instance
        .presentation()
        .generators
        .as_slice()
        .iter()
        .enumerate()
    {
        match generator.1 {
            Sort::Plain(_) => learn_generator(known, &standings[number], number as u32),
            Sort::Entity(_) => (),
        }
    }
}
