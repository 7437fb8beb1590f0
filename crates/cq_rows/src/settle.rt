//! Merging, as long as some equation joins two rows.
ghost use Rattle.std.specs.Prelude.{◌≡◌, ℕ, ◌<◌, ◌≤◌, length, IfOk, OnOk};
ghost use Rattle.cq_tables.specs.Content.{keys_of, entities_of, made_of, IsWhole};
ghost use Rattle.cq_rows.specs.Theory.{Term, IsTheory};
ghost use Rattle.cq_rows.specs.Origin.{theory_at, AreListed, IsReady};
ghost use Rattle.cq_rows.specs.Entries.{rows_of, IsCurrent, IsBehind};
ghost use Rattle.cq_rows.specs.Rows.{no_row, IsSound, IsImage, IsSame, RulesHold, GivenHold, HaveRows, IsSettling};
ghost use Rattle.cq_rows.specs.Rows.{Passes, Continues, HoldIfLive};

use crate::entries::Entries;
use crate::join::{join_given, join_rule, path_equations};
use crate::origin::Origin;
use crate::outline::Outline;
use crate::waiting::{RuleAt, Stopped, Waiting};
use cq_tables::Tables;
use std::alloc::{AllocError, Global};

// Looks again at an equation of the presentation.
fn retry_given(
    alloc: Global,
    origin: &Origin,
    tables: &mut Tables,
    rows: &mut Entries,
    waits: &mut Waiting,
    place: usize,
) -> Result<(), AllocError>
    requires ready { IsReady origin.now tables.old rows.old }
    ensures { OnOk result (Continues (theory_at origin.now) tables.old tables.new rows.old rows.new) }
{
    if place >= origin.presentation.equations.len() {
        return Ok(());
    }
    join_given(alloc, origin, tables, rows, waits, place)?;
    Ok(())
}

// Looks again at a path equation, at the row to which a row was renamed.
fn retry_rule(
    alloc: Global,
    origin: &Origin,
    tables: &mut Tables,
    rows: &mut Entries,
    waits: &mut Waiting,
    at: RuleAt,
) -> Result<(), AllocError>
    requires ready { IsReady origin.now tables.old rows.old }
    ensures { OnOk result (Continues (theory_at origin.now) tables.old tables.new rows.old rows.new) }
{
    let RuleAt { row, place } = at;
    let row = rows.get(row);
    if row >= tables.made() {
        return Ok(());
    }
    if place as usize >= path_equations(origin.schema).len() {
        return Ok(());
    }
    join_rule(alloc, origin, tables, rows, waits, RuleAt { row, place })?;
    Ok(())
}

// Looks again at an equation.
fn retry(
    alloc: Global,
    origin: &Origin,
    tables: &mut Tables,
    rows: &mut Entries,
    waits: &mut Waiting,
    stopped: Stopped,
) -> Result<(), AllocError>
    requires ready { IsReady origin.now tables.old rows.old }
    ensures { OnOk result (Continues (theory_at origin.now) tables.old tables.new rows.old rows.new) }
{
    match stopped {
        Stopped::Given(place) => retry_given(alloc, origin, tables, rows, waits, place),
        Stopped::Rule(at) => retry_rule(alloc, origin, tables, rows, waits, at),
    }
}

// Looks again at the equations that may go on.
fn go_on(
    alloc: Global,
    origin: &Origin,
    tables: &mut Tables,
    rows: &mut Entries,
    waits: &mut Waiting,
) -> Result<(), AllocError>
    requires ready { IsReady origin.now tables.old rows.old }
    ensures { OnOk result (Continues (theory_at origin.now) tables.old tables.new rows.old rows.new) }
{
    for _turn in 0..u64::MAX {
        let Some(stopped) = waits.take() else {
            return Ok(());
        };
        retry(alloc, origin, tables, rows, waits, stopped)?;
    }
    Ok(())
}

// Merges what the path equations of its entity join at a row, and says whether they did. A dead row has none, and one
// that dies on the way is passed over by each equation.
fn pass_row(
    alloc: Global,
    origin: &Origin,
    tables: &mut Tables,
    rows: &mut Entries,
    waits: &mut Waiting,
    row: u64,
) -> Result<bool, AllocError>
    requires ready { IsReady origin.now tables.old rows.old }
    requires row { row < made_of tables.old }
    ensures { IfOk result (λ merged. Passes (theory_at origin.now) tables.old tables.new rows.old
        rows.new merged (HoldIfLive (theory_at origin.now) tables.old row)) }
{
    if !tables.live(row) {
        return Ok(false);
    }
    let outline: &Outline = origin.outline;
    let mut merged = false;
    for place in outline.path_equations.of(tables.entity(row)) {
        let one = join_rule(
            alloc,
            origin,
            tables,
            rows,
            waits,
            RuleAt { row, place: *place },
        )?;
        if !one {
            continue;
        }
        merged = true;
    }
    Ok(merged)
}

// Merges what the path equations join, and says whether they did.
fn pass_rules(
    alloc: Global,
    origin: &Origin,
    tables: &mut Tables,
    rows: &mut Entries,
    waits: &mut Waiting,
) -> Result<bool, AllocError>
    requires ready { IsReady origin.now tables.old rows.old }
    ensures { IfOk result (λ merged. Passes (theory_at origin.now) tables.old tables.new rows.old
        rows.new merged (RulesHold (theory_at origin.now) tables.old)) }
{
    let mut merged = false;
    for row in 0..tables.made() {
        let one = pass_row(alloc, origin, tables, rows, waits, row)?;
        if !one {
            continue;
        }
        go_on(alloc, origin, tables, rows, waits)?;
        merged = true;
    }
    Ok(merged)
}

// Merges what the equations of the presentation join, and says whether they did.
fn pass_given(
    alloc: Global,
    origin: &Origin,
    tables: &mut Tables,
    rows: &mut Entries,
    waits: &mut Waiting,
) -> Result<bool, AllocError>
    requires ready { IsReady origin.now tables.old rows.old }
    ensures { IfOk result (λ merged. Passes (theory_at origin.now) tables.old tables.new rows.old
        rows.new merged (GivenHold (theory_at origin.now) tables.old (rows_of rows.old))) }
{
    let mut merged = false;
    for place in 0..origin.presentation.equations.len() {
        let one = join_given(alloc, origin, tables, rows, waits, place)?;
        if !one {
            continue;
        }
        go_on(alloc, origin, tables, rows, waits)?;
        merged = true;
    }
    Ok(merged)
}

// Passes over the path equations and then over the equations of the presentation, and says whether some joined rows.
fn pass(
    alloc: Global,
    origin: &Origin,
    tables: &mut Tables,
    rows: &mut Entries,
    waits: &mut Waiting,
) -> Result<bool, AllocError>
    requires ready { IsReady origin.now tables.old rows.old }
    ensures { IfOk result (λ merged. Passes (theory_at origin.now) tables.old tables.new rows.old rows.new merged
        (RulesHold (theory_at origin.now) tables.old × GivenHold (theory_at origin.now) tables.old
        (rows_of rows.old))) }
{
    let before = pass_rules(alloc, origin, tables, rows, waits)?;
    let now = pass_given(alloc, origin, tables, rows, waits)?;
    if now {
        return Ok(true);
    }
    Ok(before)
}

// Passes over all equations until none joins two rows. The first pass lists those that stop at an empty cell, and
// each merge looks again at those that may go on, so that the later passes find little. A pass that merges nothing is
// the last one, also where it is the first.
fn merge_all(
    alloc: Global,
    origin: &Origin,
    tables: &mut Tables,
    rows: &mut Entries,
    waits: &mut Waiting,
) -> Result<(), AllocError>
    requires ready { IsReady origin.now tables.old rows.old }
    ensures settling { OnOk result (IsSettling (theory_at origin.now) tables.old tables.new
        rows.old rows.new) }
    ensures rules { OnOk result (RulesHold (theory_at origin.now) tables.new) }
    ensures given { OnOk result (GivenHold (theory_at origin.now) tables.new (rows_of rows.new)) }
{
    loop {
        let merged = pass(alloc, origin, tables, rows, waits)?;
        if !merged {
            return Ok(());
        }
        waits.close();
    }
}

// Merges rows as long as some equation joins two.
pub fn settle(
    alloc: Global,
    origin: &Origin,
    tables: &mut Tables,
    rows: &mut Entries,
) -> Result<(), AllocError>
    requires theory { IsTheory (theory_at origin.now) }
    requires keys { keys_of tables.old ≡ (theory_at origin.now).keys }
    requires groups { AreListed origin.now tables.old }
    requires entities { entities_of tables.old ≡ length origin.now.schema.now.entities }
    requires whole { IsWhole tables.old }
    requires behind { IsBehind tables.old rows.old }
    requires rows { HaveRows (theory_at origin.now) tables.old (rows_of rows.old) }
    requires count { length (rows_of rows.old) ≡ length (theory_at origin.now).generators }
    ensures made { OnOk result (made_of tables.old ≤ no_row) }
    ensures whole { OnOk result (IsWhole tables.new) }
    ensures current { OnOk result (IsCurrent tables.new rows.new) }
    ensures image { OnOk result ((rep : ℕ → ℕ) × IsImage tables.old tables.new (rows_of rows.old)
        (rows_of rows.new) rep IsSame) }
    ensures sound { OnOk result ((terms : ℕ → Term)
        → IsSound (theory_at origin.now) tables.old (rows_of rows.old) terms
        → IsSound (theory_at origin.now) tables.new (rows_of rows.new) terms) }
    ensures rules { OnOk result (RulesHold (theory_at origin.now) tables.new) }
    ensures given { OnOk result (GivenHold (theory_at origin.now) tables.new (rows_of rows.new)) }
{
    let filled = rows.len();
    let made = tables.made();
    rows.cover(made)?;
    let mut waits = Waiting::new(alloc, filled, made)?;
    merge_all(alloc, origin, tables, rows, &mut waits)?;
    Ok(())
}
