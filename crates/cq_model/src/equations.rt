//! The equations between type terms: those of a presentation, and those of its schema at each row.
ghost use Rattle.std.specs.Prelude.{ℕ, ◌≡◌, ◌<◌, ◌≤◌, ◌^◌, [], true, false, Some, All, length, slice_get};
ghost use Rattle.std.specs.Prelude.{IfOk, OnOk, slice_index_or};
ghost use Rattle.std.specs.List.{flat_map};
ghost use Rattle.cq_tables.specs.Content.{live_of};
ghost use Rattle.cq_tables.specs.Content.{entity_of as row_entity};
ghost use Rattle.cq_theory.specs.Groups.{AreGroups, positions, obs_eq_sources};
ghost use Rattle.cq_theory.specs.Presentation.{IsPresentation};
ghost use Rattle.cq_model.specs.NodeTerms.{equation_sides};
ghost use Rattle.cq_model.specs.Grounds.{HavePlaces, IsPresented, AddsSides, AddsAtRow, AddsAtRows, AddsObservations};

use crate::nodes::{NodeList, push_equation};
use crate::places::Ground;
use cq_base::Seq;
use cq_theory::{Equation, Groups, Presentation, Schema, observation_equations_by_entity};
use std::alloc::{AllocError, Global};

/// Adds the equations between type terms of a presentation.
pub fn push_given(
    alloc: Global,
    ground: &Ground,
    presentation: &Presentation,
    entries: &[u64],
    list: &mut NodeList,
) -> Result<(), AllocError>
    requires places { HavePlaces ground.now (length list.old.nodes) }
    requires presented { IsPresented ground.now presentation.now entries.now (length list.old.nodes) }
    requires presentation { IsPresentation ground.now.schema.now presentation.now }
    ensures grows { OnOk result (length list.old.nodes ≤ length list.new.nodes) }
    ensures added { OnOk result (AddsSides ground.now presentation.now entries.now
        (flat_map equation_sides presentation.now.equations) list.old list.new) }
{
    for equation in presentation.equations.as_slice() {
        let Equation::Typ(left, right) = equation else {
            continue;
        };
        push_equation(alloc, ground, entries, list, left, right)?;
    }
    Ok(())
}

/// The numbers of an entity, and none past the last entity.
fn group_at(groups: &[Seq<u32>], entity: u32) -> &[u32]
    ensures { result.now ≡ slice_index_or groups.now entity [] }
{
    match groups.get(entity as usize) {
        Some(numbers) => numbers.as_slice(),
        None => &[],
    }
}

/// Adds at a row the observation equations of its entity, which have these numbers.
fn push_row(
    alloc: Global,
    ground: &Ground,
    numbers: &[u32],
    row: u64,
    list: &mut NodeList,
) -> Result<(), AllocError>
    requires places { HavePlaces ground.now (length list.old.nodes) }
    requires live { live_of ground.now.tables.now row ≡ true }
    requires numbers { numbers.now ≡ positions (obs_eq_sources ground.now.schema.now.obs_eqs)
        (row_entity ground.now.tables.now row) }
    ensures grows { OnOk result (length list.old.nodes ≤ length list.new.nodes) }
    ensures added { OnOk result (AddsAtRow ground.now (row_entity ground.now.tables.now row)
        ground.now.schema.now.obs_eqs row list.old list.new) }
{
    let schema: &Schema = ground.schema;
    let equations = schema.obs_eqs.as_slice();
    for number in numbers {
        let equation = &equations[*number as usize];
        push_equation(alloc, ground, &[row], list, &equation.left, &equation.right)?;
    }
    Ok(())
}

/// Adds the observation equations of an entity at its rows.
fn push_entity(
    alloc: Global,
    ground: &Ground,
    groups: &Groups,
    entity: u32,
    rows: &[u64],
    list: &mut NodeList,
) -> Result<(), AllocError>
    requires places { HavePlaces ground.now (length list.old.nodes) }
    requires groups { 0 < length rows.now → AreGroups (obs_eq_sources ground.now.schema.now.obs_eqs)
        (length ground.now.schema.now.entities) groups.now }
    requires rows { All (λ row. (live_of ground.now.tables.now row ≡ true)
        × (row_entity ground.now.tables.now row ≡ entity)) rows.now }
    ensures grows { OnOk result (length list.old.nodes ≤ length list.new.nodes) }
    ensures added { OnOk result (AddsAtRows ground.now entity rows.now list.old list.new) }
{
    ground.schema.is_well_sorted();
    let numbers = group_at(groups.groups.as_slice(), entity);
    for row in rows {
        push_row(alloc, ground, numbers, *row, list)?;
    }
    Ok(())
}

/// Whether some entity has rows.
fn has_rows(order: &[Seq<u64>]) -> bool
    ensures { result ≡ false → (e : ℕ) → slice_index_or order.now e [] ≡ [] }
{
    for rows in order {
        if rows.len() > 0 {
            return true;
        }
    }
    false
}

/// The observation equations that begin at each entity, or none where there are no rows. An instance without rows costs
/// no more where its schema has many.
fn list_equations(alloc: Global, schema: &Schema, order: &[Seq<u64>]) -> Result<Groups, AllocError>
    ensures { IfOk result (λ groups. (e : ℕ) → 0 < length (slice_index_or order.now e [])
        → AreGroups (obs_eq_sources schema.now.obs_eqs) (length schema.now.entities) groups) }
{
    if !has_rows(order) {
        return Groups::new(alloc, 0, &[]);
    }
    observation_equations_by_entity(alloc, schema)
}

/// Adds the observation equations of each entity at each of its rows.
pub fn push_observations(
    alloc: Global,
    ground: &Ground,
    order: &[Seq<u64>],
    list: &mut NodeList,
) -> Result<(), AllocError>
    requires places { HavePlaces ground.now (length list.old.nodes) }
    requires rows { (e r i : ℕ) → slice_get (slice_index_or order.now e []) i ≡ Some r
        → (live_of ground.now.tables.now r ≡ true) × (row_entity ground.now.tables.now r ≡ e) }
    requires few { length order.now < 2 ^ 32 }
    ensures grows { OnOk result (length list.old.nodes ≤ length list.new.nodes) }
    ensures added { OnOk result (AddsObservations ground.now order.now (length order.now) list.old list.new) }
{
    let groups = list_equations(alloc, ground.schema, order)?;
    for (entity, rows) in order.iter().enumerate() {
        push_entity(alloc, ground, &groups, entity as u32, rows.as_slice(), list)?;
    }
    Ok(())
}
