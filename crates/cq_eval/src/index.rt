//! The indexes of where equations that join a new variable.
ghost use Rattle.std.specs.Prelude.{ℕ, List, ◌≡◌, ◌==◌, ◌<◌, [], false, IfOk, OnOk, IfSome, Some, length};
ghost use Rattle.std.specs.Prelude.{slice_get, slice_index, slice_index_or};
ghost use Rattle.std.specs.List.{list_any};
ghost use Rattle.cq_theory.specs.declared.presentation.Equation.{Equation};
ghost use Rattle.cq_instance.specs.Terms.{IsOnWay};
ghost use Rattle.cq_query.specs.Answers.{IsTuple};
ghost use Rattle.cq_eval.specs.Index.{IsCellIndex, IsPathIndex, IsIndex, AreIndexes, sides, entity_sides};
ghost use Rattle.cq_eval.specs.Index.{IsAttributeSide, rows_of_value, rows_of_row};
ghost use Rattle.cq_eval.specs.Kept.{AreKept};
ghost use Rattle.cq_eval.specs.Testing.{IsTestAt};

use crate::kept::Kept;
use crate::reaches::{reach_of, reach_of_entity};
use cq_base::Seq;
use cq_instance::{CellIndex, Instance, KeyIndex};
use cq_theory::{EntTerm, Equation, TypeTerm, Value};
use std::alloc::{AllocError, Global};
use std::rc::Rc;

/// Rows by the values of an attribute's cells, or by the rows to which a path leads from them.
#[derive(Drop)]
pub(crate) enum Lists {
    Cells(Rc<CellIndex>),
    Keys(Rc<KeyIndex>),
}

impl Lists {
    /// The rows that are listed for a value, where rows are listed by values.
    pub(crate) fn for_value(&self, value: &Value) -> Option<&[u32]>
        ensures { IfSome result (λ rows. rows.now ≡ rows_of_value self.now value.now) }
    {
        match self {
            Lists::Cells(cells) => Some(cells.rows(value)),
            Lists::Keys(_) => None,
        }
    }

    /// The rows that are listed for a row, where rows are listed by rows.
    pub(crate) fn for_row(&self, row: u32) -> Option<&[u32]>
        ensures { IfSome result (λ rows. rows.now ≡ rows_of_row self.now row) }
    {
        match self {
            Lists::Cells(_) => None,
            Lists::Keys(keys) => Some(keys.rows(row)),
        }
    }
}

/// The rows for a variable that a where equation joins by one attribute, or by a path, to a term over variables before
/// it. The equation's sides may be turned round.
#[derive(Drop)]
pub(crate) struct TestIndex {
    pub(crate) variable: usize,
    pub(crate) turned: bool,
    pub(crate) lists: Lists,
}

/// How many cells an attribute has, if there is one with this number.
fn cell_count(instance: &Instance, attribute: u32) -> Option<usize>
    ensures within { IfSome result (λ _. attribute < length instance.now.schema.attributes) }
    ensures count { IfSome result (λ count. length (slice_index_or instance.now.tables.sheet.cells attribute [])
        ≡ count) }
{
    if attribute as usize >= instance.schema().attributes.len() {
        return None;
    }
    match instance.sheet().cells.as_slice().get(attribute as usize) {
        Some(column) => Some(column.len()),
        None => None,
    }
}

/// The sides of a where equation: the one that an index is for, the other one, and whether they are turned round.
#[derive(Drop)]
struct Sides<'a, T> {
    side: &'a T,
    other: &'a T,
    turned: bool,
}

/// The variable and the attribute of a side that is an attribute of a variable, if the other side needs only variables
/// before it and there is a cell for each row of the variable.
fn attribute_of(
    instance: &Instance,
    counts: &[u32],
    side: &TypeTerm,
    other: &TypeTerm,
) -> Option<(usize, u32)>
    ensures side { IfSome result (IsAttributeSide instance.now.tables counts.now side.now other.now) }
    ensures attribute { IfSome result (λ found. found.1 < length instance.now.schema.attributes) }
{
    let TypeTerm::Att(attribute, term) = side else {
        return None;
    };
    let variable = term.generator as usize;
    if variable >= counts.len() || term.path.len() > 0 || reach_of(other) > variable {
        return None;
    }
    if cell_count(instance, *attribute)? != counts[variable] as usize {
        return None;
    }
    Some((variable, *attribute))
}

/// The index for sides of a where equation, if the first is an attribute of a variable and the other one needs only
/// variables before it.
fn index_of(
    alloc: Global,
    instance: &Instance,
    kept: &mut Kept,
    counts: &[u32],
    given: Sides<'_, TypeTerm>,
) -> Result<Option<TestIndex>, AllocError>
    requires kept { AreKept instance.now.tables kept.old }
    ensures kept { OnOk result (AreKept instance.now.tables kept.new) }
    ensures index { IfOk result (λ made. IfSome made (IsCellIndex instance.now.tables counts.now
        (sides given.entry.turned given.entry.side.now given.entry.other.now))) }
{
    let Some((variable, attribute)) = attribute_of(instance, counts, given.side, given.other) else {
        return Ok(None);
    };
    let index = kept.of_cells(alloc, instance, attribute)?;
    Ok(Some(TestIndex {
        variable,
        turned: given.turned,
        lists: Lists::Cells(index),
    }))
}

/// The index for sides of a where equation, if the first is a path from a variable and the other one needs only
/// variables before it.
fn path_index_of(
    alloc: Global,
    instance: &Instance,
    kept: &mut Kept,
    counts: &[u32],
    given: Sides<'_, EntTerm>,
) -> Result<Option<TestIndex>, AllocError>
    requires way { given.side.now.generator < length counts.now
        → (row : ℕ) → row < slice_index counts.now given.side.now.generator
        → (target : ℕ) × IsOnWay instance.now.schema instance.now.tables given.side.now.path row target }
    requires kept { AreKept instance.now.tables kept.old }
    ensures kept { OnOk result (AreKept instance.now.tables kept.new) }
    ensures index { IfOk result (λ made. IfSome made (IsPathIndex instance.now.tables counts.now
        (entity_sides given.entry.turned given.entry.side.now given.entry.other.now))) }
{
    let variable = given.side.generator as usize;
    if variable >= counts.len() || reach_of_entity(given.other) > variable {
        return Ok(None);
    }
    let index = kept.along(
        alloc,
        instance,
        given.side.path.as_slice(),
        counts[variable],
    )?;
    Ok(Some(TestIndex {
        variable,
        turned: given.turned,
        lists: Lists::Keys(index),
    }))
}

/// The index for a where equation, if there is one.
fn index_for(
    alloc: Global,
    instance: &Instance,
    kept: &mut Kept,
    counts: &[u32],
    test: &Equation,
) -> Result<Option<TestIndex>, AllocError>
    requires kept { AreKept instance.now.tables kept.old }
    requires typed { (rows : List ℕ) → IsTuple rows counts.now
        → IsTestAt instance.now.schema instance.now.tables rows test.now }
    requires some { list_any (λ count. count == 0) counts.now ≡ false }
    ensures kept { OnOk result (AreKept instance.now.tables kept.new) }
    ensures index { IfOk result (λ made. IfSome made (IsIndex instance.now.tables counts.now test.now)) }
{
    match test {
        Equation::Ent(left, right) => {
            let given = Sides {
                side: left,
                other: right,
                turned: false,
            };
            match path_index_of(alloc, instance, kept, counts, given)? {
                Some(index) => Ok(Some(index)),
                None => {
                    let given = Sides {
                        side: right,
                        other: left,
                        turned: true,
                    };
                    path_index_of(alloc, instance, kept, counts, given)
                }
            }
        }
        Equation::Typ(left, right) => {
            let given = Sides {
                side: left,
                other: right,
                turned: false,
            };
            match index_of(alloc, instance, kept, counts, given)? {
                Some(index) => Ok(Some(index)),
                None => {
                    let given = Sides {
                        side: right,
                        other: left,
                        turned: true,
                    };
                    index_of(alloc, instance, kept, counts, given)
                }
            }
        }
    }
}

/// The index for each where equation that has one.
pub(crate) fn indexes(
    alloc: Global,
    instance: &Instance,
    kept: &mut Kept,
    counts: &[u32],
    tests: &[Equation],
) -> Result<Seq<Option<TestIndex>>, AllocError>
    requires kept { AreKept instance.now.tables kept.old }
    requires typed { (rows : List ℕ) → IsTuple rows counts.now → (n : ℕ) (e : Equation) → slice_get tests.now n ≡ Some e
        → IsTestAt instance.now.schema instance.now.tables rows e }
    requires some { list_any (λ count. count == 0) counts.now ≡ false }
    ensures kept { OnOk result (AreKept instance.now.tables kept.new) }
    ensures length { IfOk result (λ made. length made ≡ length tests.now) }
    ensures indexes { IfOk result (λ made. AreIndexes instance.now.tables counts.now tests.now made) }
{
    let mut made = Vec::with_capacity(alloc, tests.len())?;
    for test in tests {
        made.push(index_for(alloc, instance, kept, counts, test)?)?;
    }
    Ok(Seq::from_vec(made))
}
