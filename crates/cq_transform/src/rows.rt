//! The rows to which rows go.
ghost use Rattle.std.specs.Prelude.{◌≡◌, ◌<◌, IfOk, length, map, slice_index_or};
ghost use Rattle.cq_theory.specs.Tables.{AtRow, key_at as key_in, row_from as row_behind, row_in as row_meant, row_of};
ghost use Rattle.cq_instance.specs.Standing.{meaning};
ghost use Rattle.cq_transform.specs.Rows.{rows_there, rows_made};

use cq_base::Seq;
use cq_instance::{Instance, Standing};
use cq_theory::EntTerm;
use std::alloc::{AllocError, Global};

/// The row in a foreign key's column, and 0 where there is none.
fn key_at(target: &Instance, key: u32, row: u32) -> u32
    ensures { result ≡ key_in target.now.tables key row }
{
    match target.sheet().keys.as_slice().get(key as usize) {
        Some(column) => match column.as_slice().get(row as usize) {
            Some(reached) => *reached,
            None => 0,
        },
        None => 0,
    }
}

/// The row to which a path leads from a row, where a key without a row leads to row 0.
fn row_from(target: &Instance, path: &[u32], row: u32) -> u32
    ensures { result ≡ row_behind target.now.tables row path.now }
{
    let mut reached = row;
    for key in path {
        reached = key_at(target, *key, reached);
    }
    reached
}

/// The row for which a generator stands, and 0 where it stands for none.
fn row_in(standings: &[Standing], generator: u32) -> u32
    ensures { result ≡ row_meant (slice_index_or (map meaning standings.now) generator (AtRow 0)) }
{
    match standings.get(generator as usize) {
        Some(Standing::Row(row)) => *row,
        Some(Standing::Value(_)) => 0,
        None => 0,
    }
}

/// The row to which a name leads, whose generators stand for these rows and values.
fn row_there(target: &Instance, standings: &[Standing], name: &EntTerm) -> u32
    ensures { result ≡ row_of target.now.tables (map meaning standings.now) name.now }
{
    let start = row_in(standings, name.generator);
    row_from(target, name.path.as_slice(), start)
}

/// The rows to which the names of an entity's rows lead.
#[tactic(auto, using(crate::proofs::Ranges::map_below_more))]
fn entity_rows(
    alloc: Global,
    source: &Instance,
    target: &Instance,
    standings: &[Standing],
    entity: u32,
) -> Result<Seq<u32>, AllocError>
    requires { entity < length source.now.schema.entities }
    ensures { IfOk result (λ made. made ≡ rows_there source.now target.now (map meaning standings.now) entity) }
{
    let count = source.count(entity);
    let mut rows = Vec::with_capacity(alloc, count as usize)?;
    for row in 0..count {
        let name = source.name_of(entity, row);
        rows.push(row_there(target, standings, name))?;
    }
    Ok(Seq::from_vec(rows))
}

/// The rows to which the rows of each entity go.
#[tactic(auto, using(crate::proofs::Ranges::map_below_more))]
pub(crate) fn rows(
    alloc: Global,
    source: &Instance,
    target: &Instance,
    standings: &[Standing],
) -> Result<Vec<Seq<u32>>, AllocError>
    ensures { IfOk result (λ made. made.items ≡ rows_made source.now target.now (map meaning standings.now)) }
{
    let count = entity_count(source);
    let mut rows = Vec::with_capacity(alloc, count as usize)?;
    for entity in 0..count {
        rows.push(entity_rows(alloc, source, target, standings, entity)?)?;
    }
    Ok(rows)
}

/// How many entities there are.
fn entity_count(source: &Instance) -> u32
    ensures { result ≡ length source.now.schema.entities }
{
    let schema = source.schema();
    schema.is_well_sorted();
    schema.entities.len() as u32
}
