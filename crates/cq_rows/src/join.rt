//! One equation at a time: two rows that it joins are merged.
ghost use Rattle.std.specs.Prelude.{◌≡◌, ◌<◌, length, IfOk, IfSome, IfNone, IsSome, true};
ghost use Rattle.cq_tables.specs.Content.{keys_of, made_of, live_of, entity_of, end_of};
ghost use Rattle.cq_rows.specs.Origin.{theory_at, IsReady};
ghost use Rattle.cq_rows.specs.Entries.{rows_of};
ghost use Rattle.cq_rows.specs.Rows.{IsApart, Agree, Passes, RuleHolds, GivenHolds};

use crate::entries::Entries;
use crate::merge::merge;
use crate::origin::Origin;
use crate::waiting::{RuleAt, Stopped, Waiting};
use cq_tables::Tables;
use cq_theory::{Equation, PathEq, Schema};
use std::alloc::{AllocError, Global};

// Where two paths lead, if it is to two rows that differ.
fn apart(tables: &Tables, row: u64, left: &[u32], other: u64, right: &[u32]) -> Option<(u64, u64)>
    requires row { live_of tables.now row ≡ true }
    requires other { live_of tables.now other ≡ true }
    requires left { IsSome (end_of (keys_of tables.now) (entity_of tables.now row) left.now) }
    requires right { end_of (keys_of tables.now) (entity_of tables.now other) right.now ≡ end_of (keys_of tables.now)
        (entity_of tables.now row) left.now }
    ensures apart { IfSome result (λ p. IsApart tables.now row left.now other right.now p.0 p.1) }
    ensures agree { IfNone result (Agree tables.now row left.now other right.now) }
{
    let a = tables.trace(row, left)?;
    let b = tables.trace(other, right)?;
    if a == b { None } else { Some((a, b)) }
}

// The row at which a path stops, since the next cell is empty.
fn stop(tables: &Tables, row: u64, path: &[u32]) -> Option<u64>
    requires live { live_of tables.now row ≡ true }
    requires path { IsSome (end_of (keys_of tables.now) (entity_of tables.now row) path.now) }
{
    let mut at = row;
    for key in path {
        match tables.cell(at, *key) {
            Some(next) => at = next,
            None => return Some(at),
        }
    }
    None
}

// The row at which the first of two paths stops that does.
fn stop_of_either(tables: &Tables, row: u64, left: &[u32], other: u64, right: &[u32]) -> Option<u64>
    requires row { live_of tables.now row ≡ true }
    requires other { live_of tables.now other ≡ true }
    requires left { IsSome (end_of (keys_of tables.now) (entity_of tables.now row) left.now) }
    requires right { end_of (keys_of tables.now) (entity_of tables.now other) right.now ≡ end_of (keys_of tables.now)
        (entity_of tables.now row) left.now }
{
    if let Some(at) = stop(tables, row, left) {
        return Some(at);
    }
    stop(tables, other, right)
}

// The path equations of a schema.
pub fn path_equations(schema: &Schema) -> &[PathEq]
    ensures { result.now ≡ schema.now.path_eqs }
{
    schema.path_eqs.as_slice()
}

// Merges what a path equation joins at a row, and says whether it did.
pub fn join_rule(
    alloc: Global,
    origin: &Origin,
    tables: &mut Tables,
    rows: &mut Entries,
    waits: &mut Waiting,
    at: RuleAt,
) -> Result<bool, AllocError>
    requires ready { IsReady origin.now tables.old rows.old }
    requires row { at.row < made_of tables.old }
    requires place { at.place < length origin.now.schema.now.path_eqs }
    ensures { IfOk result (λ merged. Passes (theory_at origin.now) tables.old tables.new rows.old
        rows.new merged (RuleHolds (theory_at origin.now) tables.old at.row at.place)) }
{
    let RuleAt { row, place } = at;
    let rule = &path_equations(origin.schema)[place as usize];
    if !tables.live(row) {
        return Ok(false);
    }
    if rule.entity != tables.entity(row) {
        return Ok(false);
    }
    let left = rule.left.as_slice();
    let right = rule.right.as_slice();
    let Some((a, b)) = apart(tables, row, left, row, right) else {
        if waits.is_open() {
            let stop = stop_of_either(tables, row, left, row, right);
            waits.list(stop, Stopped::Rule(at))?;
        }
        return Ok(false);
    };
    merge(alloc, tables, rows, waits, a, b)?;
    Ok(true)
}

// Merges what an equation of the presentation joins, and says whether it did.
pub fn join_given(
    alloc: Global,
    origin: &Origin,
    tables: &mut Tables,
    rows: &mut Entries,
    waits: &mut Waiting,
    place: usize,
) -> Result<bool, AllocError>
    requires ready { IsReady origin.now tables.old rows.old }
    requires place { place < length origin.now.presentation.now.equations }
    ensures { IfOk result (λ merged. Passes (theory_at origin.now) tables.old tables.new rows.old
        rows.new merged (GivenHolds (theory_at origin.now) tables.old (rows_of rows.old) place)) }
{
    let Equation::Ent(left, right) = &origin.presentation.equations.as_slice()[place] else {
        return Ok(false);
    };
    let row = rows.row(left.generator);
    let other = rows.row(right.generator);
    let ahead = left.path.as_slice();
    let behind = right.path.as_slice();
    let Some((a, b)) = apart(tables, row, ahead, other, behind) else {
        if waits.is_open() {
            let stop = stop_of_either(tables, row, ahead, other, behind);
            waits.list(stop, Stopped::Given(place))?;
        }
        return Ok(false);
    };
    merge(alloc, tables, rows, waits, a, b)?;
    Ok(true)
}
