//! How many rows each entity has.
ghost use Rattle.std.specs.Prelude.{◌≡◌, ◌<◌, ◌+◌, ◌^◌, length, map, replicate, slice_index, slice_set};
ghost use Rattle.std.specs.Prelude.{IfOk, MatchOption};
ghost use Rattle.cq_tables.specs.Content.{entities_of, made_of, IsWhole};
ghost use Rattle.cq_theory.specs.Canonical.{below};
ghost use Rattle.cq_growth.specs.Counts.{rows_below, rows_of, IsMost};
ghost use Rattle.cq_growth.specs.GreatestOf.{IsGreatest};

use cq_tables::Tables;
use std::alloc::{AllocError, Global};

/// An entity, and how many rows it has.
#[derive(Clone, Copy, Debug, PartialEq, Eq)]
pub struct Most {
    pub entity: u32,
    pub count: u64,
}

/// Counts one more at a place.
fn count_one(counts: &mut [u64], place: u32)
    requires place { place < length counts.old }
    requires fits { slice_index counts.old place + 1 < 2 ^ 64 }
    ensures { counts.new ≡ slice_set counts.old place (slice_index counts.old place + 1) }
{
    counts[place as usize] += 1;
}

/// That many zeros.
fn zeros(alloc: Global, count: usize) -> Result<Vec<u64>, AllocError>
    ensures { IfOk result (λ counts. counts.items ≡ replicate count 0) }
{
    Ok(vec![in alloc; 0u64; count]?)
}

/// Counts a row for its entity, if it stands.
fn count_row(counts: &mut [u64], tables: &Tables, row: u64)
    requires whole { IsWhole tables.now }
    requires row { row < made_of tables.now }
    requires fits { row + 1 < 2 ^ 64 }
    requires counted { counts.old ≡ map (λ e. rows_below tables.now e row) (below (entities_of tables.now)) }
    ensures { counts.new ≡ map (λ e. rows_below tables.now e (row + 1)) (below (entities_of tables.now)) }
{
    if !tables.live(row) {
        return;
    }
    count_one(counts, tables.entity(row));
}

/// How many rows each entity has.
fn count_rows(alloc: Global, tables: &Tables, entities: u32) -> Result<Vec<u64>, AllocError>
    requires whole { IsWhole tables.now }
    requires entities { entities_of tables.now ≡ entities }
    ensures { IfOk result (λ counts. counts.items ≡ map (rows_of tables.now) (below entities)) }
{
    let mut counts = zeros(alloc, entities as usize)?;
    for row in 0..tables.made() {
        count_row(&mut counts, tables, row);
    }
    Ok(counts)
}

/// The first place of the greatest number.
fn greatest(numbers: &[u64]) -> Option<usize>
    ensures { MatchOption result (length numbers.now ≡ 0) (IsGreatest numbers.now) }
{
    if numbers.len() == 0 {
        return None;
    }
    let mut best = 0usize;
    for place in 0..numbers.len() {
        if numbers[place] > numbers[best] {
            best = place;
        }
    }
    Some(best)
}

/// The first entity that has the most rows. There is none exactly where there are no entities.
pub fn most_rows(alloc: Global, tables: &Tables, entities: u32) -> Result<Option<Most>, AllocError>
    requires whole { IsWhole tables.now }
    requires entities { entities_of tables.now ≡ entities }
    ensures { IfOk result (λ found. MatchOption found (entities ≡ 0) (IsMost tables.now entities)) }
{
    let counts = count_rows(alloc, tables, entities)?;
    let Some(place) = greatest(&counts) else {
        return Ok(None);
    };
    Ok(Some(Most {
        entity: place as u32,
        count: counts[place],
    }))
}
