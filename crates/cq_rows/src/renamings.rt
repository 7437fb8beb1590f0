//! To which row each row was renamed.
ghost use Rattle.std.specs.Prelude.{◌≡◌, ◌≢◌, ℕ, ◌<◌, ◌⊎◌, [], ◌∷◌, ◌++◌, length, map, OnOk, OnErr, slice_index};
ghost use Rattle.cq_tables.specs.Changes.{moved};
ghost use Rattle.cq_rows.specs.Forest.{root_of, IsForest, joined_root};
ghost use Rattle.cq_rows.specs.Entries.{row_now};

use std::alloc::{AllocError, Global};
use std::marker::Model;

/// Seen as the list of the row to which each row was renamed. Rows that were renamed to one row are a class, a tree
/// of rows under the lowest of them, which knows the row to which all were renamed.
pub struct Renamings {
    parent: Vec<u64>,
    at: Vec<u64>,
}

impl Model for Renamings {
    ghost use Rattle.std.specs.Prelude.{List, ℕ};

    ghost Value = { List ℕ };

    ghost use Rattle.cq_rows.specs.RenamingsView.{view_of, IsKept};

    ghost view = { view_of };

    ghost invariant = { IsKept };
}

impl Drop for Renamings {
    fn drop(self) {
        let Self { parent: _, at: _ } = self;
    }
}

impl Renamings {
    pub fn new(alloc: Global) -> Renamings
        ensures { result ≡ [] }
    {
        Renamings {
            parent: Vec::new(alloc),
            at: Vec::new(alloc),
        }
    }

    pub fn len(&self) -> u64
        ensures { result ≡ length self.now }
    {
        self.parent.len() as u64
    }

    /// One more row, which stands for itself.
    pub fn push(&mut self) -> Result<(), AllocError>
        ensures ok { OnOk result (self.new ≡ self.old ++ length self.old ∷ []) }
        ensures err { OnErr result (self.new ≡ self.old) }
    {
        self.parent.reserve(1)?;
        self.at.reserve(1)?;
        let row = self.parent.len() as u64;
        self.parent.push(row).unwrap();
        self.at.push(row).unwrap();
        Ok(())
    }

    /// The row to which a row was renamed; the row itself where it isn't listed.
    pub fn get(&mut self, row: u64) -> u64
        ensures value { result ≡ row_now self.old row }
        ensures same { self.new ≡ self.old }
    {
        if row >= self.len() {
            return row;
        }
        self.find(row)
    }

    /// Renames a row that stands for itself to another such row.
    pub fn rename(&mut self, from: u64, to: u64)
        requires from { from < length self.old }
        requires to { to < length self.old }
        requires from_itself { slice_index self.old from ≡ from }
        requires to_itself { slice_index self.old to ≡ to }
        requires differ { from ≢ to }
        ensures { self.new ≡ map (moved from to) self.old }
    {
        let low = union(&mut self.parent, from, to);
        self.at[low as usize] = to;
    }

    // The row to which a listed row was renamed.
    fn find(&mut self, row: u64) -> u64
        requires { row < length self.old }
        ensures value { result ≡ slice_index self.old row }
        ensures same { self.new ≡ self.old }
    {
        let root = root(&mut self.parent, row);
        self.at[root as usize]
    }
}

// Joins two classes, and gives their lowest row.
fn union(parent: &mut [u64], from: u64, to: u64) -> u64
    requires forest { IsForest parent.old }
    requires from { from < length parent.old }
    requires to { to < length parent.old }
    requires differ { root_of parent.old from ≢ root_of parent.old to }
    ensures forest { IsForest parent.new }
    ensures below { result < length parent.old }
    ensures low { (result ≡ root_of parent.old from) ⊎ (result ≡ root_of parent.old to) }
    ensures roots { (r : ℕ) → r < length parent.old → root_of parent.new r ≡ joined_root parent.old from to result r }
{
    let a = root(parent, from);
    let b = root(parent, to);
    if a < b {
        parent[b as usize] = a;
        return a;
    }
    parent[a as usize] = b;
    b
}

// The lowest row of a class; the path to it is halved on the way.
fn root(parent: &mut [u64], row: u64) -> u64
    requires forest { IsForest parent.old }
    requires row { row < length parent.old }
    ensures root { result ≡ root_of parent.old row }
    ensures is_root { slice_index parent.new result ≡ result }
    ensures below { result < length parent.old }
    ensures forest { IsForest parent.new }
    ensures roots { (r : ℕ) → r < length parent.old → root_of parent.new r ≡ root_of parent.old r }
{
    let mut at = row;
    while parent[at as usize] != at {
        let above = parent[at as usize];
        let top = parent[above as usize];
        parent[at as usize] = top;
        at = top;
    }
    at
}
