//! The rows of the generators, through all renamings.
ghost use Rattle.std.specs.Prelude.{◌≡◌, ◌≢◌, ℕ, ◌<◌, ◌≤◌, length, map, OnOk, slice_index, [], true};
ghost use Rattle.cq_tables.specs.Changes.{moved};
ghost use Rattle.cq_rows.specs.Entries.{row_now, rows_of};

use crate::renamings::Renamings;
use std::alloc::{AllocError, Global};

/// The row of each generator as it was made, or `u64::MAX` where it has none, and the row to which each row was
/// renamed since.
pub struct Entries {
    first: Vec<u64>,
    renamings: Renamings,
}

impl Drop for Entries {
    fn drop(self) {
        let Self {
            first: _,
            renamings: _,
        } = self;
    }
}

impl Entries {
    /// Where no row was renamed yet.
    pub fn new(alloc: Global, first: Vec<u64>) -> Entries
        ensures rows { rows_of result ≡ first.items }
        ensures count { result.renamings ≡ [] }
    {
        Entries {
            first,
            renamings: Renamings::new(alloc),
        }
    }

    /// The row of a generator.
    pub fn row(&mut self, generator: u32) -> u64
        requires { generator < length (rows_of self.old) }
        ensures value { result ≡ slice_index (rows_of self.old) generator }
        ensures same { self.new ≡ self.old }
    {
        self.renamings.get(self.first[generator as usize])
    }

    /// The row to which a row was renamed.
    pub fn get(&mut self, row: u64) -> u64
        ensures value { result ≡ row_now self.old.renamings row }
        ensures same { self.new ≡ self.old }
    {
        self.renamings.get(row)
    }

    /// Renames a row that stands for itself to another such row.
    pub fn rename(&mut self, from: u64, to: u64)
        requires from { from < length self.old.renamings }
        requires to { to < length self.old.renamings }
        requires from_itself { row_now self.old.renamings from ≡ from }
        requires to_itself { row_now self.old.renamings to ≡ to }
        requires differ { from ≢ to }
        ensures renamings { self.new.renamings ≡ map (moved from to) self.old.renamings }
        ensures first { self.new.first ≡ self.old.first }
    {
        self.renamings.rename(from, to);
    }

    /// How many rows are listed.
    pub fn len(&self) -> u64
        ensures { result ≡ length self.now.renamings }
    {
        self.renamings.len()
    }

    /// Lists each of the rows that were made.
    pub fn cover(&mut self, made: u64) -> Result<(), AllocError>
        requires { length self.old.renamings ≤ made }
        ensures count { OnOk result (length self.new.renamings ≡ made) }
        ensures same { OnOk result ((r : ℕ) → row_now self.new.renamings r ≡ row_now self.old.renamings r) }
        ensures rows { OnOk result (rows_of self.new ≡ rows_of self.old) }
    {
        for _row in self.renamings.len()..made {
            self.renamings.push()?;
        }
        Ok(())
    }

    /// The row of each generator.
    pub fn into_rows(mut self) -> Vec<u64>
        ensures { result.items ≡ rows_of self }
    {
        look_up(&mut self.renamings, &mut self.first);
        let Self {
            first,
            renamings: _,
        } = self;
        first
    }
}

// Puts the row to which each row was renamed in its place.
fn look_up(renamings: &mut Renamings, rows: &mut [u64])
    ensures { rows.new ≡ map (row_now renamings.old) rows.old }
{
    for row in rows.iter_mut() {
        *row = renamings.get(*row);
    }
}
