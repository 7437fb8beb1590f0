//! New rows in empty cells, and what is filled.
ghost use Rattle.std.specs.Prelude.{◌≡◌, ◌<◌, ◌^◌, length, Some, None, OnOk, MatchBool, true, All};
ghost use Rattle.cq_tables.specs.Content.{keys_of, entities_of, live_of, entity_of, cell_of, step_of, IsWhole};
ghost use Rattle.cq_rows.specs.Rows.{AllFilled, RowFilled, FillsCell, FillsRow, FillsAll, live_count};

use cq_tables::Tables;
use std::alloc::AllocError;

// Fills an empty cell with a new row.
fn fill_cell(tables: &mut Tables, row: u64, key: u32, to: u32) -> Result<(), AllocError>
    requires whole { IsWhole tables.old }
    requires row { live_of tables.old row ≡ true }
    requires key { step_of (keys_of tables.old) (entity_of tables.old row) key ≡ Some to }
    requires to { to < entities_of tables.old }
    requires empty { cell_of tables.old row key ≡ None }
    ensures whole { OnOk result (IsWhole tables.new) }
    ensures ok { OnOk result (FillsCell tables.old tables.new row key to) }
{
    let new = tables.add_row(to)?;
    tables.set_cell(row, key, new)?;
    Ok(())
}

// Fills the empty cells of a row with new rows.
fn fill_row(keys: &[(u32, u32)], tables: &mut Tables, row: u64) -> Result<(), AllocError>
    requires few { length keys.now < 2 ^ 32 }
    requires range { All (λ k. (k.0 < entities_of tables.old) × (k.1 < entities_of tables.old)) keys.now }
    requires keys { keys_of tables.old ≡ keys.now }
    requires whole { IsWhole tables.old }
    requires row { live_of tables.old row ≡ true }
    ensures whole { OnOk result (IsWhole tables.new) }
    ensures ok { OnOk result (FillsRow tables.old tables.new row) }
{
    let entity = tables.entity(row);
    for place in 0..tables.keys_from(entity).len() {
        let key = tables.keys_from(entity)[place];
        if tables.cell(row, key).is_some() {
            continue;
        }
        fill_cell(tables, row, key, keys[key as usize].1)?;
    }
    Ok(())
}

// Fills the empty cells of all rows with new rows.
pub fn fill(keys: &[(u32, u32)], tables: &mut Tables) -> Result<(), AllocError>
    requires few { length keys.now < 2 ^ 32 }
    requires range { All (λ k. (k.0 < entities_of tables.old) × (k.1 < entities_of tables.old)) keys.now }
    requires keys { keys_of tables.old ≡ keys.now }
    requires whole { IsWhole tables.old }
    ensures whole { OnOk result (IsWhole tables.new) }
    ensures ok { OnOk result (FillsAll tables.old tables.new) }
{
    let made = tables.made();
    for row in 0..made {
        if !tables.live(row) {
            continue;
        }
        fill_row(keys, tables, row)?;
    }
    Ok(())
}

// Whether the cells of a row are filled.
fn row_filled(tables: &Tables, row: u64) -> bool
    requires whole { IsWhole tables.now }
    requires row { live_of tables.now row ≡ true }
    ensures { MatchBool result (RowFilled tables.now row) (RowFilled tables.now row → ⊥) }
{
    let entity = tables.entity(row);
    for key in tables.keys_from(entity) {
        if tables.cell(row, *key).is_none() {
            return false;
        }
    }
    true
}

// Whether the cells of all rows are filled.
pub fn all_filled(tables: &Tables) -> bool
    requires whole { IsWhole tables.now }
    ensures { MatchBool result (AllFilled tables.now) (AllFilled tables.now → ⊥) }
{
    for row in 0..tables.made() {
        if !tables.live(row) {
            continue;
        }
        if !row_filled(tables, row) {
            return false;
        }
    }
    true
}

// How many rows are live.
pub fn count_live(tables: &Tables) -> u64
    ensures { result ≡ live_count tables.now }
{
    let mut count = 0u64;
    for row in 0..tables.made() {
        if tables.live(row) {
            count += 1;
        }
    }
    count
}
