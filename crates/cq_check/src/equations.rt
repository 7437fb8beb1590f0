//! The equations between type terms: those of a presentation, and those of its schema at each row.
ghost use Rattle.std.specs.Prelude.{◌≡◌, ◌≤◌, ◌+◌, ◌<◌, true, length, map, slice_get, Some, OnOk};
ghost use Rattle.cq_tables.specs.Content.{live_of, made_of, keys_of, entities_of, IsWhole};
ghost use Rattle.cq_tables.specs.Content.{entity_of as row_entity};
ghost use Rattle.cq_check.specs.Adding.{Grows, HasGiven, HasAtRow, HasAtRows};
ghost use Rattle.cq_check.specs.Frame.{IsFrame};
ghost use Rattle.cq_check.specs.Prepared.{AreObservations};
ghost use Rattle.cq_check.specs.Sound.{AreSound, KeepsSound};
ghost use Rattle.cq_rows.specs.Plain.{ends_of};
ghost use Rattle.cq_theory.specs.Groups.{positions, obs_eq_sources};
ghost use Rattle.cq_theory.specs.Presentation.{IsPresentation};
ghost use Rattle.cq_theory.specs.Schema.{IsSchema};

use crate::nodes::{NodeList, push_equation};
use cq_tables::Tables;
use cq_theory::{Equation, Groups, ObsEq, Presentation, Schema};
use std::alloc::{AllocError, Global};

/// Adds the equations between type terms of a presentation of which all paths can be traced.
pub fn push_given(
    alloc: Global,
    schema: &Schema,
    presentation: &Presentation,
    tables: &Tables,
    entries: &[u64],
    list: &mut NodeList,
) -> Result<(), AllocError>
    requires presentation { IsPresentation schema.now presentation.now }
    requires frame { IsFrame schema.now presentation.now tables.now entries.now }
    requires count { made_of tables.now + length presentation.now.generators ≤ length list.old.nodes }
    ensures grows { OnOk result (Grows list.old list.new) }
    ensures sound { OnOk result (AreSound schema.now presentation.now tables.now entries.now list.old
        → AreSound schema.now presentation.now tables.now entries.now list.new) }
    ensures has { OnOk result (HasGiven presentation.now tables.now entries.now list.new
        (length presentation.now.equations)) }
{
    for equation in presentation.equations.as_slice() {
        let Equation::Typ(left, right) = equation else {
            continue;
        };
        push_equation(alloc, tables, entries, list, left, right)?;
    }
    Ok(())
}

/// The observation equations of a schema.
fn observation_equations(schema: &Schema) -> &[ObsEq]
    ensures { result.now ≡ schema.now.obs_eqs }
{
    schema.obs_eqs.as_slice()
}

/// The observation equation at one of their places.
fn equation_at(schema: &Schema, place: u32) -> &ObsEq
    requires within { place < length schema.now.obs_eqs }
    ensures { slice_get schema.now.obs_eqs place ≡ Some result.now }
{
    &observation_equations(schema)[place as usize]
}

/// Adds the observation equations of a row's entity, which stand at these places of the schema's, at this row.
fn push_row(
    alloc: Global,
    schema: &Schema,
    tables: &Tables,
    places: &[u32],
    row: u64,
    list: &mut NodeList,
) -> Result<(), AllocError>
    requires schema { IsSchema schema.now }
    requires whole { IsWhole tables.now }
    requires keys { keys_of tables.now ≡ map ends_of schema.now.keys }
    requires live { live_of tables.now row ≡ true }
    requires places { places.now ≡ positions (obs_eq_sources schema.now.obs_eqs) (row_entity tables.now row) }
    requires count { made_of tables.now ≤ length list.old.nodes }
    ensures grows { OnOk result (Grows list.old list.new) }
    ensures sound { OnOk result (KeepsSound schema.now tables.now list.old list.new) }
    ensures has { OnOk result (HasAtRow schema.now tables.now list.new row (length schema.now.obs_eqs)) }
{
    for place in places {
        let equation = equation_at(schema, *place);
        push_equation(alloc, tables, &[row], list, &equation.left, &equation.right)?;
    }
    Ok(())
}

/// Adds the observation equations of the schema, of which the places by entity are given, at each live row from which
/// all their paths can be traced.
pub fn push_observations(
    alloc: Global,
    schema: &Schema,
    observations: &Groups,
    tables: &Tables,
    list: &mut NodeList,
) -> Result<(), AllocError>
    requires whole { IsWhole tables.now }
    requires keys { keys_of tables.now ≡ map ends_of schema.now.keys }
    requires entities { entities_of tables.now ≡ length schema.now.entities }
    requires observations { AreObservations schema.now observations.now }
    requires count { made_of tables.now ≤ length list.old.nodes }
    ensures grows { OnOk result (Grows list.old list.new) }
    ensures sound { OnOk result (KeepsSound schema.now tables.now list.old list.new) }
    ensures has { OnOk result (HasAtRows schema.now tables.now list.new (made_of tables.now)) }
{
    schema.is_well_sorted();
    for row in 0..tables.made() {
        let alive = tables.live(row);
        if !alive {
            continue;
        }
        let places = observations.of(tables.entity(row));
        push_row(alloc, schema, tables, places, row, list)?;
    }
    Ok(())
}
