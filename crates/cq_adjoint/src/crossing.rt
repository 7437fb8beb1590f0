//! The images of a transform into eval, made of one out of coeval.
ghost use Rattle.std.specs.Prelude.{ℕ, ◌≡◌, ◌+◌, ◌*◌, ◌<◌, ◌≤◌, ◌^◌, [], IfOk, Some, length, map, slice_get};
ghost use Rattle.std.specs.Prelude.{slice_index, slice_index_or};
ghost use Rattle.std.specs.List.{enumerate_from};
ghost use Rattle.cq_base.specs.declared.name.Name.{Name as AnyName};
ghost use Rattle.cq_theory.specs.declared.presentation.Sort.{Sort as AnySort};
ghost use Rattle.cq_theory.specs.declared.term.Term.TheVariants.{Ent, Typ};
ghost use Rattle.cq_theory.specs.declared.term.TypeTerm.TheVariants.{Gen};
ghost use Rattle.cq_theory.specs.EntTerm.{alone as generator_alone};
ghost use Rattle.cq_theory.specs.Sorts.{IsGround, type_of};
ghost use Rattle.cq_theory.specs.Canonical.{row_term, value_term as spelling};
ghost use Rattle.cq_theory.specs.Tables.{AtRow, count_of, value_in, value_type};
ghost use Rattle.cq_query.specs.Translation.{variables_at};
ghost use Rattle.cq_query.specs.Coeval.{start_of};
ghost use Rattle.cq_adjoint.specs.Copies.{answers_at, place_of};
ghost use Rattle.cq_terms.specs.ValueTerms.{value_term as value_term_over};
ghost use Rattle.cq_instance.specs.Given.{given};
ghost use Rattle.cq_adjoint.specs.QueryMoves.{row_sent, value_sent, to_eval_row, to_eval_value, to_eval_image};
ghost use Rattle.cq_adjoint.specs.QueryMoves.{to_eval_images};
ghost use Rattle.cq_adjoint.specs.Crossing.{IsCrossing};

use crate::layout::copy_at;
use crate::places::{Places, places_at};
use cq_base::{Name, Seq, number_at};
use cq_instance::{Image, Instance, Transform};
use cq_query::Query;
use cq_terms::copy_entity_term;
use cq_terms::values::value_term;
use cq_theory::{EntTerm, Sort, TypeTerm, Value, alone};
use cq_transform::value_then;
use std::alloc::{AllocError, Global};

/// The transform `moved` from `copies`, which is coeval of `source`, to `target`, of which `evaluated` is eval, with
/// the answers at their places, and with the first generator of each entity's copies and the first of the nulls.
#[derive(Clone, Copy)]
pub(crate) struct Crossing<'a> {
    pub query: &'a Query,
    pub moved: &'a Transform,
    pub source: &'a Instance,
    pub copies: &'a Instance,
    pub target: &'a Instance,
    pub evaluated: &'a Instance,
    pub places: &'a [Places<'a>],
    pub starts: &'a [u32],
    pub first_null: u32,
}

/// The row to which a row of an entity goes.
pub(crate) fn row_at(rows: &[Seq<u32>], entity: u32, row: u32) -> u32
    ensures { result ≡ slice_index (slice_index_or rows.now entity []) row }
{
    match rows.get(entity as usize) {
        Some(images) => number_at(images.as_slice(), row as usize),
        None => number_at(&[], row as usize),
    }
}

/// The row to which the transform sends the row for which a generator of coeval stands.
fn sent_row(alloc: Global, crossing: &Crossing, entity: u32, generator: u32) -> u32
    requires { IsGround crossing.now.copies.now.schema crossing.now.copies.now.presentation
        (Ent (generator_alone generator)) }
    ensures { result ≡ row_sent crossing.now.moved.now crossing.now.copies.now crossing.now.target.now entity
        (generator_alone generator) }
{
    let copies = crossing.copies;
    let moved = crossing.moved;
    let row = copies.row_of(&alone(alloc, generator));
    row_at(moved.rows.as_slice(), entity, row)
}

/// The variables of an entity's block.
pub(crate) fn variables(query: &Query, entity: u32) -> &[(Name, u32)]
    ensures { result.now ≡ variables_at query.now entity }
{
    match query.block(entity) {
        Some(block) => block.vars.as_slice(),
        None => &[],
    }
}

/// The rows to which the transform sends the copies of a row, whose generators are those from `first` on.
fn sent_rows(
    alloc: Global,
    crossing: &Crossing,
    entity: u32,
    first: u32,
) -> Result<Vec<u32>, AllocError>
    requires few { first + length (variables_at crossing.now.query.now entity) < 2 ^ 32 }
    requires ground { (n : ℕ) (v : AnyName × ℕ) → slice_get (variables_at crossing.now.query.now entity) n ≡ Some v
        → IsGround crossing.now.copies.now.schema crossing.now.copies.now.presentation
        (Ent (generator_alone (first + n))) }
    ensures { IfOk result (λ made. made.items ≡ map (λ v. row_sent crossing.now.moved.now crossing.now.copies.now
        crossing.now.target.now v.1.1 (generator_alone (first + v.0)))
        (enumerate_from 0 (variables_at crossing.now.query.now entity))) }
{
    let variables = variables(crossing.query, entity);
    let mut made = Vec::with_capacity(alloc, variables.len())?;
    for (number, variable) in variables.iter().enumerate() {
        made.push(sent_row(alloc, crossing, variable.1, first + number as u32))?;
    }
    Ok(made)
}

/// The first of the generators of coeval for a row.
fn first_copy(crossing: &Crossing, entity: u32, row: u32) -> u32
    requires crossing { IsCrossing crossing.now }
    requires row { row < count_of crossing.now.source.now.tables entity }
    ensures first { result ≡ start_of crossing.now.query.now crossing.now.source.now.tables.sheet.counts entity
        + row * length (variables_at crossing.now.query.now entity) }
    ensures few { result + length (variables_at crossing.now.query.now entity) ≤ 16000000 }
{
    let query = crossing.query;
    let source = crossing.source;
    let copies = crossing.copies;
    query.is_well_sorted();
    source.is_instance();
    copies.is_instance();
    copy_at(query, crossing.starts, entity, row)
}

/// The generator of the answer that has these rows, in an instance of the answers at these places, of which `near` is
/// tried first.
pub(crate) fn answer_term(
    alloc: Global,
    evaluated: &Instance,
    places: &[Places<'_>],
    entity: u32,
    rows: Vec<u32>,
    near: u32,
) -> Result<EntTerm, AllocError>
    requires entity { entity < length places.now }
    requires few { length (answers_at places.now entity) < 2 ^ 32 }
    requires place { place_of (answers_at places.now entity) rows.items < count_of evaluated.now.tables entity }
    requires given { evaluated.now ≡ given evaluated.now.schema evaluated.now.tables }
    ensures { IfOk result (λ made. made ≡ row_term evaluated.now.schema evaluated.now.tables entity
        (place_of (answers_at places.now entity) rows.items)) }
{
    evaluated.is_instance();
    let answers = places_at(places, entity);
    let place = answers.place_of(&rows, near);
    copy_entity_term(alloc, evaluated.name_of(entity, place))
}

/// The image of a generator that stands for a row.
fn row_image(alloc: Global, crossing: &Crossing, entity: u32, row: u32) -> Result<Image, AllocError>
    requires crossing { IsCrossing crossing.now }
    requires row { row < count_of crossing.now.source.now.tables entity }
    ensures { IfOk result (λ made. made ≡ to_eval_row crossing.now.query.now crossing.now.moved.now
        crossing.now.source.now crossing.now.copies.now crossing.now.target.now crossing.now.evaluated.now
        crossing.now.places.now entity row) }
{
    let query = crossing.query;
    let source = crossing.source;
    let target = crossing.target;
    let evaluated = crossing.evaluated;
    query.is_well_sorted();
    source.is_instance();
    target.is_instance();
    evaluated.is_instance();
    let first = first_copy(crossing, entity, row);
    let rows = sent_rows(alloc, crossing, entity, first)?;
    let name = answer_term(alloc, evaluated, crossing.places, entity, rows, row)?;
    Ok(Image::Row(name))
}

/// A value of the source as a term over the generators of coeval.
fn copied_value(alloc: Global, crossing: &Crossing, value: &Value) -> Result<TypeTerm, AllocError>
    requires { crossing.now.first_null + length crossing.now.source.now.tables.algebra.nulls < 2 ^ 32 }
    ensures { IfOk result (λ made. made ≡ value_term_over crossing.now.first_null
        (length crossing.now.source.now.tables.algebra.nulls) value.now) }
{
    let source = crossing.source;
    let algebra = source.algebra();
    let nulls = algebra.nulls.len() as u32;
    value_term(alloc, crossing.first_null, nulls, value)
}

/// The value to which the transform sends what a term over coeval means.
fn sent_value(alloc: Global, crossing: &Crossing, term: &TypeTerm) -> Result<Value, AllocError>
    requires { IsGround crossing.now.copies.now.schema crossing.now.copies.now.presentation (Typ term.now) }
    ensures { IfOk result (λ made. made ≡ value_sent crossing.now.moved.now crossing.now.copies.now
        crossing.now.target.now term.now) }
{
    let copies = crossing.copies;
    let value = copies.value_of(alloc, term)?;
    value_then(alloc, crossing.target, crossing.moved, &value)
}

/// A value as a term over the generators of an instance of tables.
pub(crate) fn spelled(
    alloc: Global,
    evaluated: &Instance,
    value: &Value,
) -> Result<TypeTerm, AllocError>
    requires given { evaluated.now ≡ given evaluated.now.schema evaluated.now.tables }
    requires typed { (type : ℕ)
        × (value_type evaluated.now.schema evaluated.now.tables.algebra.nulls value.now ≡ Some type) }
    ensures { IfOk result (λ made. made ≡ spelling evaluated.now.schema evaluated.now.tables value.now) }
{
    let nulls = evaluated.algebra().nulls.len() as u32;
    let generators = evaluated.presentation().generators.len() as u32;
    value_term(alloc, generators - nulls, nulls, value)
}

/// The image of a generator that stands for a value.
fn value_image(alloc: Global, crossing: &Crossing, generator: u32) -> Result<Image, AllocError>
    requires crossing { IsCrossing crossing.now }
    requires typed { (type : ℕ) × (type_of crossing.now.source.now.schema
        crossing.now.source.now.presentation.generators (Gen generator) ≡ Some type) }
    ensures { IfOk result (λ made. made ≡ to_eval_value crossing.now.query.now crossing.now.moved.now
        crossing.now.source.now crossing.now.copies.now crossing.now.target.now crossing.now.evaluated.now
        crossing.now.places.now (value_in (slice_index_or crossing.now.source.now.assignment generator (AtRow 0)))) }
{
    let query = crossing.query;
    let source = crossing.source;
    let copies = crossing.copies;
    let target = crossing.target;
    query.is_well_sorted();
    source.is_instance();
    copies.is_instance();
    target.is_instance();
    let value = source.value_of(alloc, &TypeTerm::Gen(generator))?;
    let copied = copied_value(alloc, crossing, &value)?;
    let sent = sent_value(alloc, crossing, &copied)?;
    let term = spelled(alloc, crossing.evaluated, &sent)?;
    Ok(Image::Value(term))
}

/// The image of a generator.
fn generator_image(
    alloc: Global,
    crossing: &Crossing,
    generator: u32,
    sort: Sort,
) -> Result<Image, AllocError>
    requires crossing { IsCrossing crossing.now }
    requires generator { (name : AnyName)
        × (slice_get crossing.now.source.now.presentation.generators generator ≡ Some (name, sort)) }
    ensures { (name : AnyName) → IfOk result (λ made. made ≡ to_eval_image crossing.now.query.now
        crossing.now.moved.now crossing.now.source.now crossing.now.copies.now crossing.now.target.now
        crossing.now.evaluated.now crossing.now.places.now (generator, (name, sort))) }
{
    match sort {
        Sort::Plain(_) => value_image(alloc, crossing, generator),
        Sort::Entity(entity) => {
            let source = crossing.source;
            let row = source.row_of(&alone(alloc, generator));
            row_image(alloc, crossing, entity, row)
        }
    }
}

/// The image of each generator.
pub(crate) fn images(alloc: Global, crossing: &Crossing) -> Result<Vec<Image>, AllocError>
    requires { IsCrossing crossing.now }
    ensures { IfOk result (λ made. made.items ≡ to_eval_images crossing.now.query.now crossing.now.moved.now
        crossing.now.source.now crossing.now.copies.now crossing.now.target.now crossing.now.evaluated.now
        crossing.now.places.now) }
{
    let source = crossing.source;
    let generators = source.presentation().generators.as_slice();
    let mut images = Vec::with_capacity(alloc, generators.len())?;
    for (number, generator) in generators.iter().enumerate() {
        images.push(generator_image(alloc, crossing, number as u32, generator.1)?)?;
    }
    Ok(images)
}
