//! Rows by the rows to which foreign keys lead from them.
ghost use Rattle.std.specs.Prelude.{ℕ, ◌≡◌, ◌<◌, [], All, IfOk, length, map, slice_index_or};
ghost use Rattle.cq_theory.specs.Canonical.{below};
ghost use Rattle.cq_theory.specs.Tables.{row_from};
ghost use Rattle.cq_theory.specs.Groups.{positions};
ghost use Rattle.cq_instance.specs.Terms.{IsOnWay};

use crate::groups::grouped;
use crate::instance::Instance;
use cq_base::{Seq, number_at};
use std::alloc::{AllocError, Global};
use std::marker::Model;

/// For each row the rows from which a foreign key, or a path of them, leads to it. Contracts see the lists of these.
#[derive(Drop)]
pub struct KeyIndex {
    lists: Seq<Seq<u32>>,
}

impl Model for KeyIndex {
    ghost use Rattle.std.specs.Prelude.{ℕ, List};

    ghost Value = { List (List ℕ) };

    ghost view = { λ index. index.lists };
}

/// For each row of the target, of which there are `count`, the places at which it stands in a column of `rows` rows.
fn lists_of(
    alloc: Global,
    column: &[u32],
    rows: u32,
    count: usize,
) -> Result<Seq<Seq<u32>>, AllocError>
    requires rows { length column.now ≡ rows }
    requires within { All (λ row. row < count) column.now }
    ensures { IfOk result (λ lists. (row : ℕ) → slice_index_or lists row [] ≡ positions column.now row) }
{
    grouped(alloc, count, column)
}

/// The rows to which a path leads from the first rows.
fn ends(
    alloc: Global,
    instance: &Instance,
    path: &[u32],
    count: u32,
) -> Result<Vec<u32>, AllocError>
    requires { (row : ℕ) → row < count → (target : ℕ)
        × IsOnWay instance.now.schema instance.now.tables path.now row target }
    ensures { IfOk result (λ ends. ends.items ≡ map (λ row. row_from instance.now.tables row path.now)
        (below count)) }
{
    let mut ends = Vec::with_capacity(alloc, count as usize)?;
    for row in 0..count {
        ends.push(instance.row_along(path, row))?;
    }
    Ok(ends)
}

/// A number above those of a list.
fn above(numbers: &[u32]) -> usize
    ensures { All (λ number. number < result) numbers.now }
{
    match numbers.iter().copied().max() {
        Some(greatest) => greatest as usize + 1,
        None => 0,
    }
}

impl KeyIndex {
    /// The index of a foreign key.
    pub fn new(alloc: Global, instance: &Instance, key: u32) -> Result<KeyIndex, AllocError>
        requires { key < length instance.now.schema.keys }
        ensures { IfOk result (λ index. (row : ℕ) → slice_index_or index row []
            ≡ positions (slice_index_or instance.now.tables.sheet.keys key []) row) }
    {
        let edge = &instance.schema().keys.as_slice()[key as usize];
        let sheet = instance.sheet();
        let rows = number_at(sheet.counts.as_slice(), edge.from as usize);
        let count = number_at(sheet.counts.as_slice(), edge.to as usize);
        let column = sheet.keys.as_slice()[key as usize].as_slice();
        Ok(KeyIndex {
            lists: lists_of(alloc, column, rows, count as usize)?,
        })
    }

    /// The index of a path of foreign keys over the first `count` rows of the entity from which it leads. The empty
    /// path leads from each row to itself.
    pub fn along(
        alloc: Global,
        instance: &Instance,
        path: &[u32],
        count: u32,
    ) -> Result<KeyIndex, AllocError>
        requires { (row : ℕ) → row < count → (target : ℕ)
            × IsOnWay instance.now.schema instance.now.tables path.now row target }
        ensures { IfOk result (λ index. (row : ℕ) → slice_index_or index row []
            ≡ positions (map (λ start. row_from instance.now.tables start path.now) (below count)) row) }
    {
        let ends = ends(alloc, instance, path, count)?;
        let column = ends.as_slice();
        Ok(KeyIndex {
            lists: lists_of(alloc, column, count, above(column))?,
        })
    }

    /// The rows from which the key, or the path, leads to this row, ascending, and none where it leads there from none.
    pub fn rows(&self, row: u32) -> &[u32]
        ensures { result.now ≡ slice_index_or self.now row [] }
    {
        match self.lists.as_slice().get(row as usize) {
            Some(rows) => rows.as_slice(),
            None => &[],
        }
    }
}
