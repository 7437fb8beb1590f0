//! A term that is still new at a depth.
ghost use Rattle.std.specs.Prelude.{ℕ, ◌≡◌, ◌<◌, ◌≤◌, IfOk, MatchOption, true};
ghost use Rattle.cq_tables.specs.Content.{live_of, IsWhole};
ghost use Rattle.cq_rows.specs.Rows.{AllFilled, RowFilled};
ghost use Rattle.cq_rows.specs.Saturated.{IsSaturated};
ghost use Rattle.cq_theory.specs.Presentation.{IsPresentation};
ghost use Rattle.cq_growth.specs.Levels.{AreLive, IsLevel};
ghost use Rattle.cq_growth.specs.News.{AreFilled, IsEmptyAt, IsNew, IsOpen};

use crate::levels::{Level, Member, begin, next_level};
use cq_rows::Partial;
use cq_tables::Tables;
use cq_terms::copy_entity_term;
use cq_theory::{EntTerm, Presentation, Schema};
use std::alloc::{AllocError, Global};

/// The first key of a row's entity at which the row's cell is empty.
fn empty_key(tables: &Tables, row: u64) -> Option<u32>
    requires whole { IsWhole tables.now }
    requires live { live_of tables.now row ≡ true }
    ensures { MatchOption result (RowFilled tables.now row) (IsEmptyAt tables.now row) }
{
    let entity = tables.entity(row);
    for key in tables.keys_from(entity) {
        if tables.cell(row, *key).is_none() {
            return Some(*key);
        }
    }
    None
}

/// The first member whose row has an empty cell.
fn open_member<'a>(tables: &Tables, members: &'a [Member]) -> Option<&'a Member>
    requires whole { IsWhole tables.now }
    requires live { AreLive tables.now members.now }
    ensures { MatchOption result (AreFilled tables.now members.now) (λ x. IsOpen tables.now members.now x.now) }
{
    for member in members {
        if empty_key(tables, member.row).is_some() {
            return Some(member);
        }
    }
    None
}

/// The rows that are reached first by terms of a depth.
fn level_at(
    alloc: Global,
    schema: &Schema,
    presentation: &Presentation,
    rows: &Partial,
    depth: u32,
) -> Result<Level, AllocError>
    requires presentation { IsPresentation schema.now presentation.now }
    requires rows { IsSaturated schema.now presentation.now depth rows.now }
    ensures { IfOk result (λ level. IsLevel schema.now presentation.now rows.now.tables rows.now.generator_rows depth
        level.members.items level.reached.items) }
{
    schema.is_well_sorted();
    let mut level = begin(
        alloc,
        presentation,
        &rows.tables,
        rows.generator_rows.as_slice(),
    )?;
    for _depth in 0..depth {
        level = next_level(alloc, &rows.tables, level)?;
    }
    Ok(level)
}

/// A term that is new at a depth: it equals no shorter one within that depth, and some key leads on from it. It is the
/// first in the order in which rows are reached: by generators, and then key by key. There is none exactly where all
/// cells of the rows up to the depth are filled.
pub fn first_new(
    alloc: Global,
    schema: &Schema,
    presentation: &Presentation,
    rows: &Partial,
    depth: u32,
) -> Result<Option<EntTerm>, AllocError>
    requires presentation { IsPresentation schema.now presentation.now }
    requires rows { IsSaturated schema.now presentation.now depth rows.now }
    ensures { IfOk result (λ found. MatchOption found (AllFilled rows.now.tables)
        (IsNew schema.now presentation.now depth)) }
{
    let level = level_at(alloc, schema, presentation, rows, depth)?;
    let Some(member) = open_member(&rows.tables, &level.members) else {
        return Ok(None);
    };
    let name = copy_entity_term(alloc, &member.name)?;
    Ok(Some(name))
}
