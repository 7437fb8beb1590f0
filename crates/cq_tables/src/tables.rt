//! Rows, their entities and their cells.
ghost use Rattle.std.specs.Prelude.{◌≡◌, ◌≢◌, ℕ, ◌+◌, ◌^◌, ◌<◌, ◌≤◌, ◌⊎◌, true, All, length, IfOk, OnOk, OnErr, IsSome};
ghost use Rattle.std.specs.Prelude.{IfSome, Some, None, ◌++◌, vec_len, vec_capacity, slice_index_or, slice_index};
ghost use Rattle.cq_tables.specs.Content.{entities_of, keys_of, made_of, live_of, entity_of, cell_of, step_of, end_of};
ghost use Rattle.cq_tables.specs.Content.{trace_of, IsHeld, IsEnd, IsWhole};
ghost use Rattle.cq_tables.specs.Changes.{AddsRow, SetsCell, Renames, given_pairs, moved_cell, first_of, pair_of};
ghost use Rattle.cq_tables.specs.Mentions.{CountsMentions};
ghost use Rattle.cq_tables.specs.Places.{start_of, place_of, pairs_at, keys_from};

use crate::cells::Cells;
use crate::plan::Plan;
use std::alloc::{AllocError, Global};
use std::marker::Model;
use std::rc::Rc;

/// Numbered rows, each of one entity, each live or renamed. A live row has a cell for each foreign key of its entity:
/// empty, or a live row of the entity to which the key goes. For each row the cells that hold it are kept, so that a
/// renaming walks over these alone.
pub struct Tables {
    plan: Rc<Plan>,
    kinds: Vec<u32>,
    alive: Vec<bool>,
    starts: Vec<u64>,
    cells: Cells,
    alloc: Global,
}

impl Model for Tables {
    ghost use Rattle.cq_tables.specs.Content.{Content};

    ghost Value = { Content };

    ghost use Rattle.cq_tables.specs.Tables.{content_of, IsKept};

    ghost view = { content_of };

    ghost invariant = { IsKept };
}

impl Drop for Tables {
    fn drop(self) {
        let Self {
            plan: _,
            kinds: _,
            alive: _,
            starts: _,
            cells: _,
            alloc: _,
        } = self;
    }
}

impl Tables {
    /// No rows, over entities that are numbered from 0. Each of at most 2^32 keys is given by the entity from which and
    /// the entity to which it goes.
    pub fn new(alloc: Global, entities: u32, keys: &[(u32, u32)]) -> Result<Tables, AllocError>
        requires few { length keys.now ≤ 2 ^ 32 }
        requires range { All (λ k. (k.0 < entities) × (k.1 < entities)) keys.now }
        ensures entities { IfOk result (λ t. entities_of t ≡ entities) }
        ensures keys { IfOk result (λ t. keys_of t ≡ keys.now) }
        ensures empty { IfOk result (λ t. made_of t ≡ 0) }
        ensures whole { IfOk result IsWhole }
    {
        let plan = Plan::new(alloc, entities, keys)?;
        Ok(Tables::over(alloc, Rc::new(alloc, plan)?))
    }

    /// No rows, over the same entities and keys. This costs nothing for these, however many there are.
    pub fn blank(&self) -> Result<Tables, AllocError>
        ensures entities { IfOk result (λ t. entities_of t ≡ entities_of self.now) }
        ensures keys { IfOk result (λ t. keys_of t ≡ keys_of self.now) }
        ensures empty { IfOk result (λ t. made_of t ≡ 0) }
        ensures whole { IfOk result IsWhole }
    {
        Ok(Tables::over(self.alloc, self.plan.clone()?))
    }

    // No rows, over the entities and keys of a plan.
    fn over(alloc: Global, plan: Rc<Plan>) -> Tables
        ensures entities { entities_of result ≡ plan.value.entities }
        ensures keys { keys_of result ≡ plan.value.keys }
        ensures empty { made_of result ≡ 0 }
        ensures whole { IsWhole result }
    {
        Tables {
            plan,
            kinds: Vec::new(alloc),
            alive: Vec::new(alloc),
            starts: Vec::new(alloc),
            cells: Cells::new(alloc),
            alloc,
        }
    }

    /// How many rows were made. They are numbered from 0.
    pub fn made(&self) -> u64
        ensures { result ≡ made_of self.now }
    {
        self.kinds.len() as u64
    }

    /// Whether a row is live, that is, not renamed.
    pub fn live(&self, row: u64) -> bool
        requires { row < made_of self.now }
        ensures { result ≡ live_of self.now row }
    {
        self.alive[row as usize]
    }

    /// The entity of a row, also of one that was renamed.
    pub fn entity(&self, row: u64) -> u32
        requires { row < made_of self.now }
        ensures { result ≡ entity_of self.now row }
    {
        self.kinds[row as usize]
    }

    /// The numbers of the keys that go from an entity, in order.
    pub fn keys_from(&self, entity: u32) -> &[u32]
        requires { entity < entities_of self.now }
        ensures { result.now ≡ keys_from (keys_of self.now) entity }
    {
        self.plan.keys_from(entity)
    }

    /// How many cells hold a row.
    pub fn mentions(&self, row: u64) -> u64
        requires { row < made_of self.now }
        ensures { CountsMentions self.now row result }
    {
        self.cells.count(row)
    }

    /// What the cell of a live row at a key of its entity holds; None where it is empty.
    pub fn cell(&self, row: u64, key: u32) -> Option<u64>
        requires live { live_of self.now row ≡ true }
        requires key { IsSome (step_of (keys_of self.now) (entity_of self.now row) key) }
        ensures value { result ≡ cell_of self.now row key }
        ensures held { IfSome result (λ to. IsHeld self.now row key to) }
    {
        self.cells.get(self.place(row, key))
    }

    /// The row to which a path leads from a live row; None exactly where a cell on the way is empty.
    pub fn trace(&self, row: u64, path: &[u32]) -> Option<u64>
        requires live { live_of self.now row ≡ true }
        requires path { IsSome (end_of (keys_of self.now) (entity_of self.now row) path.now) }
        ensures value { result ≡ trace_of self.now row path.now }
        ensures held { IfSome result (λ to. IsEnd self.now row path.now to) }
    {
        let mut at = row;
        for key in path {
            match self.cell(at, *key) {
                Some(next) => at = next,
                None => return None,
            }
        }
        Some(at)
    }

    /// Makes a row, live and with empty cells, and answers its number, the next one.
    pub fn add_row(&mut self, entity: u32) -> Result<u64, AllocError>
        requires { entity < entities_of self.old }
        ensures ok { IfOk result (λ row. AddsRow self.old self.new entity row) }
        ensures err { OnErr result (self.new ≡ self.old) }
        ensures whole { IsWhole self.new }
    {
        let row = self.kinds.len() as u64;
        let start = self.cells.len() as u64;
        let width = self.plan.width(entity);
        self.kinds.reserve(1)?;
        self.alive.reserve(1)?;
        self.starts.reserve(1)?;
        self.cells.add(width)?;
        self.kinds.push(entity).unwrap();
        self.alive.push(true).unwrap();
        self.starts.push(start).unwrap();
        Ok(row)
    }

    /// Fills an empty cell of a live row with a live row.
    pub fn set_cell(&mut self, row: u64, key: u32, to: u64) -> Result<(), AllocError>
        requires row { live_of self.old row ≡ true }
        requires to { live_of self.old to ≡ true }
        requires key { step_of (keys_of self.old) (entity_of self.old row) key ≡ Some (entity_of self.old to) }
        requires empty { cell_of self.old row key ≡ None }
        ensures ok { OnOk result (SetsCell self.old self.new row key to) }
        ensures err { OnErr result (self.new ≡ self.old) }
        ensures whole { IsWhole self.new }
    {
        let place = self.place(row, key);
        self.cells.reserve(to, 1)?;
        self.cells.point(place as u64, to);
        Ok(())
    }

    /// Renames a live row to another one of its entity: every cell that held `from` holds `to`, and the cells of
    /// `from` fill the empty cells of `to`. The answer lists, by key, the pairs where both had a cell, as they stand
    /// after the renaming, without pairs of one row with itself.
    pub fn rename(&mut self, from: u64, to: u64) -> Result<Vec<(u64, u64)>, AllocError>
        requires from { live_of self.old from ≡ true }
        requires to { live_of self.old to ≡ true }
        requires differ { from ≢ to }
        requires entity { entity_of self.old from ≡ entity_of self.old to }
        ensures ok { OnOk result (Renames self.old self.new from to) }
        ensures given { IfOk result (λ given. given.items ≡ given_pairs self.old from to (length (keys_of self.old))) }
        ensures err { OnErr result (self.new ≡ self.old) }
        ensures whole { IsWhole self.new }
    {
        let width = self.plan.width(self.kinds[to as usize]);
        let into = self.starts[to as usize] as usize;
        let out = self.starts[from as usize] as usize;
        let mut given = Vec::with_capacity(self.alloc, width)?;
        let count = self.cells.count(from);
        self.cells.reserve(to, count)?;
        rename_cells(&mut self.cells, from, to);
        join_cells(&mut self.cells, into, out, width, &mut given);
        self.alive[from as usize] = false;
        Ok(given)
    }

    // Where the cell of a row at a key stands.
    fn place(&self, row: u64, key: u32) -> usize
        requires row { row < made_of self.now }
        requires key { IsSome (step_of (keys_of self.now) (entity_of self.now row) key) }
        ensures { result ≡ place_of self.now.keys self.now.kinds row key }
    {
        self.starts[row as usize] as usize + self.plan.slot(key)
    }
}

// Every cell that held `from` holds `to`.
fn rename_cells(cells: &mut Cells, from: u64, to: u64)
    requires differ { from ≢ to }
    requires from { from < length cells.old.counts }
    requires to { to < length cells.old.counts }
    requires room { slice_index cells.old.counts from ≤ slice_index cells.old.room to }
    ensures cells { (i : ℕ) → slice_index_or cells.new.cells i None ≡ moved_cell from to
        (slice_index_or cells.old.cells i None) }
    ensures len { length cells.new.cells ≡ length cells.old.cells }
    ensures counts { length cells.new.counts ≡ length cells.old.counts }
{
    while let Some(place) = cells.mention(from) {
        cells.unpoint(place, from);
        cells.point(place, to);
    }
}

// The cells from `out` on fill the empty ones from `into` on, and are emptied. The pairs of filled ones are added to
// `given`.
fn join_cells(cells: &mut Cells, into: usize, out: usize, width: usize, given: &mut Vec<(u64, u64)>)
    requires into { into + width ≤ length cells.old.cells }
    requires out { out + width ≤ length cells.old.cells }
    requires fits { length cells.old.cells < 2 ^ 64 }
    requires apart { (into + width ≤ out) ⊎ (out + width ≤ into) }
    requires room { vec_len given.old + width ≤ vec_capacity given.old }
    ensures joined { (k : ℕ) → k < width → slice_index_or cells.new.cells (into + k) None
        ≡ first_of (slice_index_or cells.old.cells (into + k) None) (slice_index_or cells.old.cells (out + k) None) }
    ensures others { (i : ℕ) → (i < into) ⊎ (into + width ≤ i) → (i < out) ⊎ (out + width ≤ i)
        → slice_index_or cells.new.cells i None ≡ slice_index_or cells.old.cells i None }
    ensures emptied { (k : ℕ) → k < width → slice_index_or cells.new.cells (out + k) None ≡ None }
    ensures given { given.new.items ≡ given.old.items ++ pairs_at cells.old.cells into out width }
    ensures len { length cells.new.cells ≡ length cells.old.cells }
    ensures counts { length cells.new.counts ≡ length cells.old.counts }
{
    for k in 0..width {
        let there = cells.get(into + k);
        let here = cells.get(out + k);
        push_pair(given, there, here);
        move_cell(cells, into + k, out + k);
    }
}

// The cell at `out` fills the one at `into`, if that is empty, and is emptied.
fn move_cell(cells: &mut Cells, into: usize, out: usize)
    requires into { into < length cells.old.cells }
    requires out { out < length cells.old.cells }
    requires apart { into ≢ out }
    ensures joined { slice_index_or cells.new.cells into None
        ≡ first_of (slice_index_or cells.old.cells into None) (slice_index_or cells.old.cells out None) }
    ensures emptied { slice_index_or cells.new.cells out None ≡ None }
    ensures others { (i : ℕ) → i ≢ into → i ≢ out → slice_index_or cells.new.cells i None
        ≡ slice_index_or cells.old.cells i None }
    ensures len { length cells.new.cells ≡ length cells.old.cells }
    ensures counts { length cells.new.counts ≡ length cells.old.counts }
{
    let Some(row) = cells.get(out) else {
        return;
    };
    let there = cells.get(into);
    cells.unpoint(out as u64, row);
    if there.is_some() {
        return;
    }
    cells.point(into as u64, row);
}

// Adds the pair of two filled cells that differ, for which there is room.
fn push_pair(given: &mut Vec<(u64, u64)>, there: Option<u64>, here: Option<u64>)
    requires { vec_len given.old < vec_capacity given.old }
    ensures items { given.new.items ≡ given.old.items ++ pair_of there here }
    ensures len { vec_len given.new ≤ vec_len given.old + 1 }
    ensures capacity { vec_capacity given.old ≤ vec_capacity given.new }
{
    if let Some(a) = there {
        if let Some(b) = here {
            if a != b {
                given.push((a, b)).unwrap();
            }
        }
    }
}
