//! Cells by place, and for each row the places that hold it.

ghost use Rattle.std.specs.Prelude.{◌≡◌, ◌≢◌, ℕ, ◌+◌, ◌-◌, ◌<◌, ◌≤◌, ◌^◌, [], ◌∷◌, ◌++◌, length, IfOk, OnOk, OnErr};
ghost use Rattle.std.specs.Prelude.{IfSome, IfNone, Some, None, replicate, slice_index_or, slice_index, slice_set};
ghost use Rattle.std.specs.Prelude.{vec_len, vec_capacity};
ghost use Rattle.cq_tables.specs.Inverse.{CountsPlaces};

use std::alloc::{AllocError, Global};
use std::marker::Model;

pub struct Cells {
    cells: Vec<Option<u64>>,
    spots: Vec<u64>,
    mentions: Vec<Vec<u64>>,
    alloc: Global,
}

impl Model for Cells {
    ghost use Rattle.cq_tables.specs.View.{View};

    ghost Value = { View };

    ghost use Rattle.cq_tables.specs.CellsView.{view_of, IsKept};

    ghost view = { view_of };

    ghost invariant = { IsKept };
}

impl Drop for Cells {
    fn drop(self) {
        let Self {
            cells: _,
            spots: _,
            mentions: _,
            alloc: _,
        } = self;
    }
}

impl Cells {
    pub fn new(alloc: Global) -> Cells
        ensures cells { result.cells ≡ [] }
        ensures counts { result.counts ≡ [] }
        ensures room { result.room ≡ [] }
    {
        Cells {
            cells: Vec::new(alloc),
            spots: Vec::new(alloc),
            mentions: Vec::new(alloc),
            alloc,
        }
    }

    pub fn len(&self) -> usize
        ensures { result ≡ length self.now.cells }
    {
        self.cells.len()
    }

    pub fn get(&self, place: usize) -> Option<u64>
        requires { place < length self.now.cells }
        ensures value { result ≡ slice_index_or self.now.cells place None }
        ensures made { IfSome result (λ row. row < length self.now.counts) }
    {
        self.cells[place]
    }

    /// Makes one more row, and empty cells.
    pub fn add(&mut self, count: usize) -> Result<(), AllocError>
        ensures cells { OnOk result (self.new.cells ≡ self.old.cells ++ replicate count None) }
        ensures counts { OnOk result (self.new.counts ≡ self.old.counts ++ 0 ∷ []) }
        ensures fits { length self.new.cells < 2 ^ 64 }
        ensures err { OnErr result (self.new.cells ≡ self.old.cells) }
        ensures err_counts { OnErr result (self.new.counts ≡ self.old.counts) }
    {
        self.cells.reserve(count)?;
        self.spots.reserve(count)?;
        self.mentions.reserve(1)?;
        push_empty(&mut self.cells, count);
        push_zero(&mut self.spots, count);
        self.mentions.push(Vec::new(self.alloc)).unwrap();
        Ok(())
    }

    /// How many cells hold a row.
    pub fn count(&self, row: u64) -> u64
        requires { row < length self.now.counts }
        ensures value { result ≡ slice_index self.now.counts row }
        ensures places { CountsPlaces self.now.cells row result }
    {
        let list = &self.mentions[row as usize];
        list.len() as u64
    }

    /// A place that holds a row.
    pub fn mention(&self, row: u64) -> Option<u64>
        requires { row < length self.now.counts }
        ensures some { IfSome result (λ i. slice_index_or self.now.cells i None ≡ Some row) }
        ensures counted { IfSome result (λ _. 0 < slice_index self.now.counts row) }
        ensures none { IfNone result ((i : ℕ) → slice_index_or self.now.cells i None ≡ Some row → ⊥) }
    {
        let list = &self.mentions[row as usize];
        if list.len() == 0 {
            return None;
        }
        Some(list[list.len() - 1])
    }

    /// Makes room for places that are to hold a row.
    pub fn reserve(&mut self, row: u64, places: u64) -> Result<(), AllocError>
        requires { row < length self.old.counts }
        ensures cells { self.new.cells ≡ self.old.cells }
        ensures counts { self.new.counts ≡ self.old.counts }
        ensures ok { OnOk result (places ≤ slice_index self.new.room row) }
    {
        let list = &mut self.mentions[row as usize];
        list.reserve(places as usize)?;
        Ok(())
    }

    /// Fills an empty cell.
    pub fn point(&mut self, place: u64, row: u64)
        requires place { place < length self.old.cells }
        requires empty { slice_index_or self.old.cells place None ≡ None }
        requires row { row < length self.old.counts }
        requires room { 0 < slice_index self.old.room row }
        ensures cells { self.new.cells ≡ slice_set self.old.cells place (Some row) }
        ensures counts { self.new.counts ≡ slice_set self.old.counts row (slice_index self.old.counts row + 1) }
        ensures room { slice_index self.old.room row ≤ slice_index self.new.room row + 1 }
        ensures others { (r : ℕ) → r ≢ row → slice_index self.new.room r ≡ slice_index self.old.room r }
    {
        let list = &mut self.mentions[row as usize];
        let spot = list.len() as u64;
        list.push(place).unwrap();
        self.spots[place as usize] = spot;
        self.cells[place as usize] = Some(row);
    }

    /// Empties a cell that holds a row.
    pub fn unpoint(&mut self, place: u64, row: u64)
        requires { slice_index_or self.old.cells place None ≡ Some row }
        ensures cells { self.new.cells ≡ slice_set self.old.cells place None }
        ensures counts { self.new.counts ≡ slice_set self.old.counts row (slice_index self.old.counts row - 1) }
        ensures room { slice_index self.new.room row ≡ slice_index self.old.room row + 1 }
        ensures others { (r : ℕ) → r ≢ row → slice_index self.new.room r ≡ slice_index self.old.room r }
    {
        let spot = self.spots[place as usize];
        let list = &mut self.mentions[row as usize];
        let last = list[list.len() - 1];
        list.swap_remove(spot as usize);
        self.spots[last as usize] = spot;
        self.cells[place as usize] = None;
    }
}

// Appends empty cells, for which there is room.
fn push_empty(cells: &mut Vec<Option<u64>>, count: usize)
    requires { vec_len cells.old + count ≤ vec_capacity cells.old }
    ensures { cells.new.items ≡ cells.old.items ++ replicate count None }
{
    for _i in 0..count {
        cells.push(None).unwrap();
    }
}

// Appends spots, for which there is room.
fn push_zero(spots: &mut Vec<u64>, count: usize)
    requires { vec_len spots.old + count ≤ vec_capacity spots.old }
    ensures { spots.new.items ≡ spots.old.items ++ replicate count 0 }
{
    for _i in 0..count {
        spots.push(0).unwrap();
    }
}
