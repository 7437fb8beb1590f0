//! The equations of the rows in the coeval presentation.
ghost use Rattle.std.specs.Prelude.{ℕ, ◌≡◌, ◌+◌, ◌*◌, ◌++◌, ◌∷◌, ◌<◌, ◌≤◌, ◌^◌, [], IfOk, OnOk, Some, length, map};
ghost use Rattle.std.specs.Prelude.{slice_get, slice_index, slice_index_or};
ghost use Rattle.std.specs.List.{flat_map};
ghost use Rattle.cq_theory.specs.declared.constant.Con.TheVariants.{Named};
ghost use Rattle.cq_theory.specs.declared.value.Value.TheVariants as value_of;
ghost use Rattle.cq_theory.specs.Canonical.{below};
ghost use Rattle.cq_theory.specs.Groups.{positions};
ghost use Rattle.cq_query.specs.Puts.{generators_from, put, put_equation, put_type};
ghost use Rattle.cq_query.specs.Translation.{key_sources, attribute_sources, tests_at, assigned, attribute_term};
ghost use Rattle.cq_query.specs.Duties.{equal_terms};
ghost use Rattle.cq_query.specs.Coeval.{size_of, row_terms as terms_of_row};
ghost use Rattle.cq_query.specs.Coeval.{terms_from, key_equations, cell_equation, row_equations, entity_equations};
ghost use Rattle.cq_terms.specs.ValueTerms.{value_term};
ghost use Rattle.cq_query.specs.Layout.{IsLayout, IsRow};

use crate::duties::push_equal_terms;
use crate::puts::{generators, push_equations};
use crate::query::Query;
use crate::translation::{put_assigned, put_attribute};
use cq_base::number_at;
use cq_terms::cell_term;
use cq_theory::{EntTerm, Equation, Sheet, Value};
use std::alloc::{AllocError, Global};

/// Where the generators of coeval stand: the first of each entity's rows, and the first of the nulls, with how many
/// nulls there are.
#[derive(Clone, Copy)]
pub(crate) struct Layout<'a> {
    pub query: &'a Query,
    pub sheet: &'a Sheet,
    pub starts: &'a [u32],
    pub first: u32,
    pub nulls: u32,
}

/// A row of an entity, with its generators.
#[derive(Clone, Copy)]
struct Row<'a> {
    entity: u32,
    number: u32,
    terms: &'a [EntTerm],
}

/// The generators of a row, of rows with `width` generators from `start` on.
fn generators_at(
    alloc: Global,
    start: u32,
    row: u32,
    width: u32,
) -> Result<Vec<EntTerm>, AllocError>
    requires { start + row * width + width ≤ 16000000 }
    ensures { IfOk result (λ made. made.items ≡ generators_from (start + row * width) width) }
{
    generators(alloc, start + row * width, width)
}

/// The generators of a row, where those of its entity begin at `start`.
fn row_terms_from(
    alloc: Global,
    layout: &Layout,
    start: u32,
    entity: u32,
    row: u32,
) -> Result<Vec<EntTerm>, AllocError>
    requires { start + size_of layout.now.query.now layout.now.sheet.now.counts entity ≤ 16000000 }
    ensures { IfOk result (λ made. made.items
        ≡ terms_from layout.now.query.now layout.now.sheet.now.counts entity row (Some start)) }
{
    let width = layout.query.variable_count(entity);
    if row < number_at(layout.sheet.counts.as_slice(), entity as usize) {
        generators_at(alloc, start, row, width)
    } else {
        Ok(Vec::new(alloc))
    }
}

fn start_at(starts: &[u32], entity: u32) -> Option<u32>
    ensures { result ≡ slice_get starts.now entity }
{
    starts.get(entity as usize).copied()
}

/// The generators of a row, one for each variable.
fn row_terms(
    alloc: Global,
    layout: &Layout,
    entity: u32,
    row: u32,
) -> Result<Vec<EntTerm>, AllocError>
    requires layout { IsLayout layout.now }
    ensures { IfOk result (λ made. made.items
        ≡ terms_of_row layout.now.query.now layout.now.sheet.now.counts entity row) }
{
    match start_at(layout.starts, entity) {
        Some(start) => row_terms_from(alloc, layout, start, entity, row),
        None => Ok(Vec::new(alloc)),
    }
}

/// The row to which a foreign key leads.
fn key_row(sheet: &Sheet, key: u32, row: u32) -> u32
    ensures { result ≡ slice_index (slice_index_or sheet.now.keys key []) row }
{
    match sheet.keys.as_slice().get(key as usize) {
        Some(column) => number_at(column.as_slice(), row as usize),
        None => number_at(&[], row as usize),
    }
}

/// Appends the equalities of the generators of the row to which a foreign key leads, a row of entity `to`, and the
/// terms that the key assigns.
fn push_key_terms(
    alloc: Global,
    layout: &Layout,
    row: &Row,
    key: u32,
    to: u32,
    made: &mut Vec<Equation>,
) -> Result<(), AllocError>
    requires layout { IsLayout layout.now }
    ensures { OnOk result (made.new.items ≡ made.old.items
        ++ equal_terms (terms_of_row layout.now.query.now layout.now.sheet.now.counts to
        (slice_index (slice_index_or layout.now.sheet.now.keys key []) row.now.number))
        (map (put row.now.terms.now) (assigned layout.now.query.now key))) }
{
    let there = key_row(layout.sheet, key, row.number);
    let left = row_terms(alloc, layout, to, there)?;
    let right = put_assigned(alloc, layout.query, row.terms, key)?;
    push_equal_terms(alloc, left.as_slice(), right.as_slice(), made)
}

/// Appends the equations of a foreign key at a row.
fn push_key_equations(
    alloc: Global,
    layout: &Layout,
    row: &Row,
    key: u32,
    made: &mut Vec<Equation>,
) -> Result<(), AllocError>
    requires layout { IsLayout layout.now }
    requires row { IsRow layout.now row.now }
    ensures { OnOk result (made.new.items ≡ made.old.items
        ++ key_equations layout.now.query.now layout.now.sheet.now row.now.entity row.now.number key) }
{
    match layout.query.key(key) {
        Some(edge) => push_key_terms(alloc, layout, row, key, edge.to, made),
        None => Ok(()),
    }
}

/// Appends the equations of the foreign keys at a row.
fn push_row_keys(
    alloc: Global,
    layout: &Layout,
    row: &Row,
    made: &mut Vec<Equation>,
) -> Result<(), AllocError>
    requires layout { IsLayout layout.now }
    requires row { IsRow layout.now row.now }
    ensures { OnOk result (made.new.items ≡ made.old.items
        ++ flat_map (key_equations layout.now.query.now layout.now.sheet.now row.now.entity row.now.number)
        (positions (key_sources layout.now.query.now) row.now.entity)) }
{
    for key in layout.query.keys_from(row.entity) {
        push_key_equations(alloc, layout, row, *key, made)?;
    }
    Ok(())
}

/// Appends the equation of a cell in a column.
fn push_cell_equation(
    alloc: Global,
    layout: &Layout,
    row: &Row,
    column: &[Value],
    attribute: u32,
    made: &mut Vec<Equation>,
) -> Result<(), AllocError>
    requires layout { IsLayout layout.now }
    ensures { OnOk result (made.new.items ≡ made.old.items
        ++ Equation.Typ (put_type row.now.terms.now (attribute_term layout.now.query.now attribute))
        (value_term layout.now.first layout.now.nulls
        (slice_index_or column.now row.now.number (value_of.Const (Named 0)))) ∷ []) }
{
    let left = put_attribute(alloc, layout.query, row.terms, attribute)?;
    let right = cell_term(alloc, layout.first, layout.nulls, column, row.number)?;
    made.push(Equation::Typ(left, right))?;
    Ok(())
}

/// Appends the equation of an attribute at a row.
fn push_cell(
    alloc: Global,
    layout: &Layout,
    row: &Row,
    attribute: u32,
    made: &mut Vec<Equation>,
) -> Result<(), AllocError>
    requires layout { IsLayout layout.now }
    requires row { IsRow layout.now row.now }
    ensures { OnOk result (made.new.items ≡ made.old.items
        ++ cell_equation layout.now.query.now layout.now.sheet.now layout.now.nulls row.now.entity row.now.number
        attribute ∷ []) }
{
    match layout.sheet.cells.as_slice().get(attribute as usize) {
        Some(column) => {
            push_cell_equation(alloc, layout, row, column.as_slice(), attribute, made)
        }
        None => push_cell_equation(alloc, layout, row, &[], attribute, made),
    }
}

/// Appends the equations of the attributes at a row.
fn push_row_cells(
    alloc: Global,
    layout: &Layout,
    row: &Row,
    made: &mut Vec<Equation>,
) -> Result<(), AllocError>
    requires layout { IsLayout layout.now }
    requires row { IsRow layout.now row.now }
    ensures { OnOk result (made.new.items ≡ made.old.items
        ++ map (cell_equation layout.now.query.now layout.now.sheet.now layout.now.nulls row.now.entity row.now.number)
        (positions (attribute_sources layout.now.query.now) row.now.entity)) }
{
    for attribute in layout.query.attributes_from(row.entity) {
        push_cell(alloc, layout, row, *attribute, made)?;
    }
    Ok(())
}

/// Appends the where equations of an entity's block, over these terms.
fn push_row_tests(
    alloc: Global,
    query: &Query,
    terms: &[EntTerm],
    entity: u32,
    made: &mut Vec<Equation>,
) -> Result<(), AllocError>
    ensures { OnOk result (made.new.items ≡ made.old.items
        ++ map (put_equation terms.now) (tests_at query.now entity)) }
{
    match query.block(entity) {
        Some(block) => push_equations(alloc, terms, block.tests.as_slice(), made),
        None => Ok(()),
    }
}

/// Appends the equations of a row.
fn push_row(
    alloc: Global,
    layout: &Layout,
    entity: u32,
    row: u32,
    made: &mut Vec<Equation>,
) -> Result<(), AllocError>
    requires layout { IsLayout layout.now }
    requires entity { entity < length layout.now.query.now.target.entities }
    ensures { OnOk result (made.new.items ≡ made.old.items
        ++ row_equations layout.now.query.now layout.now.sheet.now layout.now.nulls entity row) }
{
    let terms = row_terms(alloc, layout, entity, row)?;
    let terms = terms.as_slice();
    let row = Row {
        entity,
        number: row,
        terms,
    };
    push_row_tests(alloc, layout.query, terms, entity, made)?;
    push_row_keys(alloc, layout, &row, made)?;
    push_row_cells(alloc, layout, &row, made)
}

/// Appends the equations of an entity's rows.
fn push_entity_rows(
    alloc: Global,
    layout: &Layout,
    entity: u32,
    made: &mut Vec<Equation>,
) -> Result<(), AllocError>
    requires layout { IsLayout layout.now }
    requires entity { entity < length layout.now.query.now.target.entities }
    ensures { OnOk result (made.new.items ≡ made.old.items
        ++ entity_equations layout.now.query.now layout.now.sheet.now layout.now.nulls entity) }
{
    let count = number_at(layout.sheet.counts.as_slice(), entity as usize);
    for row in 0..count {
        push_row(alloc, layout, entity, row, made)?;
    }
    Ok(())
}

/// Appends the equations of all rows.
pub(crate) fn push_rows(
    alloc: Global,
    layout: &Layout,
    made: &mut Vec<Equation>,
) -> Result<(), AllocError>
    requires layout { IsLayout layout.now }
    ensures { OnOk result (made.new.items ≡ made.old.items
        ++ flat_map (entity_equations layout.now.query.now layout.now.sheet.now layout.now.nulls)
        (below (length layout.now.query.now.target.entities))) }
{
    let query = layout.query;
    for entity in 0..query.entity_count() {
        push_entity_rows(alloc, layout, entity, made)?;
    }
    Ok(())
}
