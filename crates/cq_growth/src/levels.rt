//! Rows by the depth of the terms that reach them.
ghost use Rattle.std.specs.Prelude.{◌≡◌, ◌<◌, ◌^◌, ◌++◌, ◌∷◌, [], true, false, length, replicate, slice_get, slice_set};
ghost use Rattle.std.specs.Prelude.{IfOk, OnOk, Some};
ghost use Rattle.cq_tables.specs.Content.{made_of, live_of, IsWhole};
ghost use Rattle.cq_rows.specs.Saturated.{HasEntries};
ghost use Rattle.cq_theory.specs.EntTerm.{alone as generator_alone};
ghost use Rattle.cq_growth.specs.Levels.{AreLive, Expands, HasBegun, IsNext, Reaches, one_further};

use cq_tables::Tables;
use cq_theory::{EntTerm, Presentation, Sort, alone, extend};
use std::alloc::{AllocError, Global};

/// A row, and a term that leads to it.
#[derive(Drop)]
pub struct Member {
    pub row: u64,
    pub name: EntTerm,
}

/// The rows that terms of one depth reach and no lesser ones do, each with such a term, and for each row of the tables
/// whether a term up to that depth reaches it.
#[derive(Drop)]
pub struct Level {
    pub members: Vec<Member>,
    pub reached: Vec<bool>,
}

/// Whether a row is reached.
fn is_reached(reached: &[bool], row: u64) -> bool
    requires { row < length reached.now }
    ensures { slice_get reached.now row ≡ Some result }
{
    reached[row as usize]
}

/// Adds a row with a term that leads to it.
fn add(level: &mut Level, row: u64, name: EntTerm) -> Result<(), AllocError>
    requires { row < length level.old.reached.items }
    ensures members { OnOk result (level.new.members.items ≡ level.old.members.items
        ++ record { row = row; name = name } ∷ []) }
    ensures reached { OnOk result (level.new.reached.items ≡ slice_set level.old.reached.items row true) }
{
    level.members.push(Member { row, name })?;
    level.reached[row as usize] = true;
    Ok(())
}

/// Adds a row to which a generator leads, unless it is reached already.
fn reach_generator(
    alloc: Global,
    level: &mut Level,
    row: u64,
    generator: u32,
) -> Result<(), AllocError>
    requires { row < length level.old.reached.items }
    ensures { OnOk result (Reaches level.old.members.items level.old.reached.items
        level.new.members.items level.new.reached.items row (generator_alone generator)) }
{
    if is_reached(&level.reached, row) {
        return Ok(());
    }
    add(level, row, alone(alloc, generator))?;
    Ok(())
}

/// Adds a row to which a key leads from another one, unless it is reached already.
fn reach_along(
    alloc: Global,
    level: &mut Level,
    row: u64,
    from: &Member,
    key: u32,
) -> Result<(), AllocError>
    requires { row < length level.old.reached.items }
    ensures { OnOk result (Reaches level.old.members.items level.old.reached.items
        level.new.members.items level.new.reached.items row (one_further from.now.name key)) }
{
    if is_reached(&level.reached, row) {
        return Ok(());
    }
    let name = extend(alloc, &from.name, &[key])?;
    add(level, row, name)?;
    Ok(())
}

/// That none of so many rows is reached.
fn unreached(alloc: Global, count: u64) -> Result<Vec<bool>, AllocError>
    ensures { IfOk result (λ reached. reached.items ≡ replicate count false) }
{
    Ok(vec![in alloc; false; count as usize]?)
}

/// The rows of the generators.
pub fn begin(
    alloc: Global,
    presentation: &Presentation,
    tables: &Tables,
    entries: &[u64],
) -> Result<Level, AllocError>
    requires whole { IsWhole tables.now }
    requires entries { HasEntries presentation.now tables.now entries.now }
    requires few { length presentation.now.generators < 2 ^ 32 }
    ensures { IfOk result (λ level. HasBegun presentation.now tables.now entries.now
        (length presentation.now.generators) level.members.items level.reached.items) }
{
    let reached = unreached(alloc, tables.made())?;
    let mut level = Level {
        members: Vec::new(alloc),
        reached,
    };
    for (number, generator) in presentation.generators.as_slice().iter().enumerate() {
        let Sort::Entity(_entity) = generator.1 else {
            continue;
        };
        reach_generator(alloc, &mut level, entries[number], number as u32)?;
    }
    Ok(level)
}

/// Adds the rows to which the keys lead from a row.
fn expand(alloc: Global, tables: &Tables, from: &Member, next: &mut Level) -> Result<(), AllocError>
    requires whole { IsWhole tables.now }
    requires marks { length next.old.reached.items ≡ made_of tables.now }
    requires live { live_of tables.now from.now.row ≡ true }
    ensures { OnOk result (Expands tables.now from.now next.old.members.items next.old.reached.items
        next.new.members.items next.new.reached.items) }
{
    let row = from.row;
    let entity = tables.entity(row);
    for key in tables.keys_from(entity) {
        if let Some(to) = tables.cell(row, *key) {
            reach_along(alloc, next, to, from, *key)?;
        }
    }
    Ok(())
}

/// The level after one.
pub fn next_level(alloc: Global, tables: &Tables, level: Level) -> Result<Level, AllocError>
    requires whole { IsWhole tables.now }
    requires marks { length level.reached.items ≡ made_of tables.now }
    requires live { AreLive tables.now level.members.items }
    ensures { IfOk result (λ next. IsNext tables.now level.members.items level.reached.items
        next.members.items next.reached.items) }
{
    let Level { members, reached } = level;
    let mut next = Level {
        members: Vec::new(alloc),
        reached,
    };
    for member in members.iter() {
        expand(alloc, tables, member, &mut next)?;
    }
    Ok(next)
}
