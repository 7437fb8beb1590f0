//! What lies ahead of a stage: whether the rows of the last one will be too many, and what the next one takes.
ghost use Rattle.std.specs.Prelude.{◌≡◌, ℕ, ◌+◌, ◌<◌, length, IfOk, All, true};
ghost use Rattle.cq_tables.specs.Content.{keys_of, entities_of, live_of, IsWhole};
ghost use Rattle.cq_theory.specs.Schema.{IsSchema};
ghost use Rattle.cq_rows.specs.Origin.{theory_at};
ghost use Rattle.cq_rows.specs.Outline.{HasFrame};
ghost use Rattle.cq_rows.specs.Rows.{SomeWide};
ghost use Rattle.cq_rows.specs.Unread.{AreCounts, HasMany};

use crate::origin::Origin;
use crate::outline::Outline;
use crate::unread::unread_keys;
use cq_tables::Tables;
use cq_theory::{Presentation, Schema, Sort};
use std::alloc::{AllocError, Global};

// What a row takes besides its cells, in cells.
const ROW_WEIGHT: u64 = 8;

// Of each entity, how many paths of unread keys begin there, with at most one key more than those that are counted.
fn longer(
    alloc: Global,
    free: &[bool],
    keys: &[(u32, u32)],
    counts: &[u64],
) -> Result<Vec<u64>, AllocError>
    requires free { length free.now ≡ length keys.now }
    requires range { All (λ k. (k.0 < length counts.now) × (k.1 < length counts.now)) keys.now }
    ensures len { IfOk result (λ next. length next.items ≡ length counts.now) }
    ensures counts { IfOk result (λ next. (n : ℕ) → AreCounts keys.now free.now n counts.now
        → AreCounts keys.now free.now (n + 1) next.items) }
{
    let mut next = vec![in alloc; 1u64; counts.len()]?;
    for number in 0..keys.len() {
        if !free[number] {
            continue;
        }
        let (from, to) = keys[number];
        let sum = next[from as usize].saturating_add(counts[to as usize]);
        next[from as usize] = sum;
    }
    Ok(next)
}

// Of each entity, how many paths of unread keys begin there, of at most so many keys.
fn count_paths(
    alloc: Global,
    free: &[bool],
    keys: &[(u32, u32)],
    entities: usize,
    depth: u32,
) -> Result<Vec<u64>, AllocError>
    requires free { length free.now ≡ length keys.now }
    requires range { All (λ k. (k.0 < entities) × (k.1 < entities)) keys.now }
    ensures { IfOk result (λ counts. AreCounts keys.now free.now depth counts.items) }
{
    let mut counts = vec![in alloc; 1u64; entities]?;
    for _step in 0..depth {
        counts = longer(alloc, free, keys, &counts)?;
    }
    Ok(counts)
}

// Whether the count of some generator's entity is over `most`.
fn some_many(counts: &[u64], presentation: &Presentation, most: u64) -> bool
    ensures { result ≡ true → HasMany presentation.now counts.now most }
{
    for generator in presentation.generators.as_slice() {
        let Sort::Entity(entity) = generator.1 else {
            continue;
        };
        if entity as usize >= counts.len() {
            continue;
        }
        if counts[entity as usize] > most {
            return true;
        }
    }
    false
}

/// Whether keys that no equation reads lead from one generator to more than `most` terms within the depth. No two of
/// these are equal.
pub fn is_wide(alloc: Global, origin: &Origin, depth: u32, most: u64) -> Result<bool, AllocError>
    requires schema { IsSchema origin.now.schema.now }
    requires frame { HasFrame origin.now.schema.now origin.now.outline.now }
    ensures { IfOk result (λ wide. wide ≡ true → SomeWide (theory_at origin.now) depth most) }
{
    let schema: &Schema = origin.schema;
    let outline: &Outline = origin.outline;
    let free = unread_keys(alloc, schema, origin.presentation)?;
    let counts = count_paths(
        alloc,
        &free,
        &outline.keys,
        schema.entities.len() as usize,
        depth,
    )?;
    Ok(some_many(&counts, origin.presentation, most))
}

// What new rows in the empty cells of a row take, in cells.
fn row_weight(keys: &[(u32, u32)], tables: &Tables, row: u64) -> u64
    requires range { All (λ k. (k.0 < entities_of tables.now) × (k.1 < entities_of tables.now)) keys.now }
    requires keys { keys_of tables.now ≡ keys.now }
    requires whole { IsWhole tables.now }
    requires row { live_of tables.now row ≡ true }
{
    let entity = tables.entity(row);
    let mut weight = 0u64;
    for key in tables.keys_from(entity) {
        if tables.cell(row, *key).is_some() {
            continue;
        }
        let width = tables.keys_from(keys[*key as usize].1).len() as u64;
        weight = weight.saturating_add(ROW_WEIGHT).saturating_add(width);
    }
    weight
}

/// What new rows in all empty cells take, in cells.
pub fn weight(keys: &[(u32, u32)], tables: &Tables) -> u64
    requires range { All (λ k. (k.0 < entities_of tables.now) × (k.1 < entities_of tables.now)) keys.now }
    requires keys { keys_of tables.now ≡ keys.now }
    requires whole { IsWhole tables.now }
{
    let mut weight = 0u64;
    for row in 0..tables.made() {
        if !tables.live(row) {
            continue;
        }
        weight = weight.saturating_add(row_weight(keys, tables, row));
    }
    weight
}
