//! The rows of an attribute's entity by the values of their cells.
ghost use Rattle.std.specs.Prelude.{◌≡◌, ◌<◌, ◌∷◌, ◌++◌, [], All, IfOk, IfSome, OnOk, None, false, true};
ghost use Rattle.std.specs.Prelude.{if◌then◌else◌, length, map, slice_index_or, take};
ghost use Rattle.cq_theory.specs.declared.value.Value.{Value};
ghost use Rattle.cq_instance.specs.SameValue.{same_value};
ghost use Rattle.cq_instance.specs.CellRows.{rows_with, group_rows, indexed_rows};

use crate::digests::{add_values, digest};
use crate::instance::Instance;
use crate::values::{copied, equals};
use cq_base::{Hashing, Keys, number_at};
use cq_theory::{Value, empty_groups};
use smallvec::SmallVec;
use std::alloc::{AllocError, Global};
use std::marker::Model;

/// The rows, ascending, whose cells are a value. Up to four take no memory of their own.
#[derive(Drop)]
pub struct ValueRows {
    pub value: Value,
    pub rows: SmallVec<u32, 4>,
}

/// For each value of an attribute's cells its rows. Contracts see how values are hashed, and the groups of rows by the
/// numbers of their values.
#[derive(Drop)]
pub struct CellIndex {
    hashing: Hashing,
    lists: Vec<Vec<ValueRows>>,
}

impl Model for CellIndex {
    ghost use Rattle.std.specs.Coded.{codes};
    ghost use Rattle.std.specs.Prelude.{List, map};
    ghost use Rattle.cq_base.specs.declared.hashing.Hashing.{Hashing};
    ghost use Rattle.cq_theory.specs.contracts.value.Value as value;
    ghost use Rattle.cq_instance.specs.declared.cell_index.ValueRows.{ValueRows};

    ghost Value = { Hashing × List (List ValueRows) };

    ghost coded = { Prim.hlevel (codes, value.the_row.coded) };

    ghost view = { λ index. (index.hashing, map (λ list. list.items) index.lists.items) };
}

impl ValueRows {
    /// Puts a row behind the others.
    fn add(&mut self, row: u32) -> Result<(), AllocError>
        ensures value { OnOk result (self.new.value ≡ self.old.value) }
        ensures rows { OnOk result (self.new.rows.items ≡ self.old.rows.items ++ row ∷ []) }
    {
        self.rows.push(row)?;
        Ok(())
    }

    /// One row of a value.
    fn of(alloc: Global, value: &Value, row: u32) -> Result<ValueRows, AllocError>
        ensures value { IfOk result (λ made. made.value ≡ value.now) }
        ensures rows { IfOk result (λ made. made.rows.items ≡ row ∷ []) }
    {
        let mut rows = SmallVec::new(alloc);
        rows.push(row)?;
        Ok(ValueRows {
            value: copied(alloc, value)?,
            rows,
        })
    }
}

/// The place of the group of a value.
fn place_of(groups: &[ValueRows], value: &Value) -> Option<usize>
    ensures within { IfSome result (λ place. place < length groups.now) }
    ensures same { IfSome result (λ place. (group : _) → same_value (slice_index_or groups.now place group).value
        value.now ≡ true) }
    ensures first { IfSome result (λ place. All (λ group. same_value group.value value.now ≡ false)
        (take place groups.now)) }
    ensures absent { result ≡ None → All (λ group. same_value group.value value.now ≡ false) groups.now }
{
    for (place, group) in groups.iter().enumerate() {
        if equals(&group.value, value) {
            return Some(place);
        }
    }
    None
}

/// Adds a row to the group of a value.
fn add_to(
    alloc: Global,
    groups: &mut Vec<ValueRows>,
    value: &Value,
    row: u32,
) -> Result<(), AllocError>
    ensures { OnOk result ((other : Value) → group_rows groups.new.items other ≡ group_rows groups.old.items other
        ++ (if same_value value.now other then row ∷ [] else [])) }
{
    match place_of(groups.as_slice(), value) {
        Some(place) => groups[place].add(row),
        None => push_group(groups, ValueRows::of(alloc, value, row)?),
    }
}

/// Puts a group behind others. Nearly all lists have one or two, and ask for room for no more.
fn push_group(groups: &mut Vec<ValueRows>, group: ValueRows) -> Result<(), AllocError>
    ensures { OnOk result (groups.new.items ≡ groups.old.items ++ group ∷ []) }
{
    if groups.len() < 2 {
        groups.reserve_exact(1)?;
    }
    groups.push(group)?;
    Ok(())
}

/// Adds a row to those of a value, among the groups with its number.
fn add_row(
    alloc: Global,
    hashing: Hashing,
    lists: &mut Vec<Vec<ValueRows>>,
    value: &Value,
    row: u32,
) -> Result<(), AllocError>
    requires { 0 < length lists.old.items }
    ensures length { OnOk result (length lists.new.items ≡ length lists.old.items) }
    ensures rows { OnOk result ((other : Value) → indexed_rows (hashing, map (λ list. list.items) lists.new.items) other
        ≡ indexed_rows (hashing, map (λ list. list.items) lists.old.items) other
        ++ (if same_value value.now other then row ∷ [] else [])) }
{
    let place = (digest(hashing, value) % lists.len() as u64) as usize;
    add_to(alloc, &mut lists[place], value, row)
}

/// The rows of each value of a column.
fn lists_of(
    alloc: Global,
    hashing: Hashing,
    column: &[Value],
    count: u32,
) -> Result<Vec<Vec<ValueRows>>, AllocError>
    requires { length column.now ≡ count }
    ensures { IfOk result (λ lists. (value : Value) → indexed_rows (hashing, map (λ list. list.items) lists.items) value
        ≡ rows_with column.now value) }
{
    let mut lists = empty_groups(alloc, count as usize)?;
    for (row, cell) in column.iter().enumerate() {
        add_row(alloc, hashing, &mut lists, cell, row as u32)?;
    }
    Ok(lists)
}

/// How the cells of a column are hashed: by a key of them all.
fn hashing_of(column: &[Value]) -> Hashing {
    let mut keys = Keys::new();
    add_values(column, &mut keys);
    keys.hashing()
}

impl CellIndex {
    /// The index of an attribute's cells.
    pub fn new(alloc: Global, instance: &Instance, attribute: u32) -> Result<CellIndex, AllocError>
        requires { attribute < length instance.now.schema.attributes }
        ensures { IfOk result (λ index. (value : Value) → indexed_rows index value
            ≡ rows_with (slice_index_or instance.now.tables.sheet.cells attribute []) value) }
    {
        let edge = &instance.schema().attributes.as_slice()[attribute as usize];
        let sheet = instance.sheet();
        let count = number_at(sheet.counts.as_slice(), edge.from as usize);
        let column = sheet.cells.as_slice()[attribute as usize].as_slice();
        let hashing = hashing_of(column);
        Ok(CellIndex {
            hashing,
            lists: lists_of(alloc, hashing, column, count)?,
        })
    }

    /// The rows whose cells are this value, ascending, and none where no cell is.
    pub fn rows(&self, value: &Value) -> &[u32]
        ensures { result.now ≡ indexed_rows self.now value.now }
    {
        if self.lists.len() == 0 {
            return &[];
        }
        let place = (digest(self.hashing, value) % self.lists.len() as u64) as usize;
        rows_in(self.lists[place].as_slice(), value)
    }
}

/// The rows of the group of a value, if there is one.
fn rows_in<'a>(groups: &'a [ValueRows], value: &Value) -> &'a [u32]
    ensures { result.now ≡ group_rows groups.now value.now }
{
    for group in groups {
        if equals(&group.value, value) {
            return group.rows.as_slice();
        }
    }
    &[]
}
