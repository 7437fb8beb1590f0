//! The images of a transform out of coeval, made of one into eval.
ghost use Rattle.std.specs.Prelude.{◌≡◌, ◌++◌, ◌<◌, [], IfOk, OnOk, length, map, slice_index_or};
ghost use Rattle.std.specs.List.{flat_map};
ghost use Rattle.cq_theory.specs.Canonical.{below};
ghost use Rattle.cq_theory.specs.Tables.{count_of};
ghost use Rattle.cq_adjoint.specs.Answering.{IsAnswering, answers_in};
ghost use Rattle.cq_adjoint.specs.AnswerNames.{rows_named, null_named, from_eval_images};
ghost use Rattle.cq_adjoint.specs.Copies.{answers_at};
ghost use Rattle.cq_instance.specs.Spelling.{term_among};

use crate::crossing::{row_at, variables};
use crate::named::{Naming, named_term};
use crate::spelling::name_row;
use cq_base::number_at;
use cq_instance::{Image, Instance, Transform};
use cq_query::Query;
use cq_theory::{TypeTerm, Value};
use cq_transform::value_then;
use std::alloc::{AllocError, Global};

/// The transform `moved` from `source` to `evaluated`, which is eval of `target` with these answers, where `copies` is
/// coeval of the source, and a term for each null of the target.
#[derive(Clone, Copy)]
pub(crate) struct Answering<'a> {
    pub query: &'a Query,
    pub moved: &'a Transform,
    pub source: &'a Instance,
    pub copies: &'a Instance,
    pub target: &'a Instance,
    pub evaluated: &'a Instance,
    pub null_terms: &'a [TypeTerm],
    pub answers: &'a [Vec<Vec<u32>>],
}

/// The answer at a place among those for an entity, and none past the end.
fn answer_at(answers: &[Vec<Vec<u32>>], entity: u32, place: u32) -> &[u32]
    ensures { result.now ≡ slice_index_or (answers_at (map (λ list. map (λ rows. rows.items) list.items) answers.now)
        entity) place [] }
{
    match answers.get(entity as usize) {
        Some(list) => match list.as_slice().get(place as usize) {
            Some(rows) => rows.as_slice(),
            None => &[],
        },
        None => &[],
    }
}

/// Puts the image of each copy of a row behind others.
fn push_names(
    alloc: Global,
    answering: &Answering,
    entity: u32,
    row: u32,
    made: &mut Vec<Image>,
) -> Result<(), AllocError>
    requires answering { IsAnswering answering.now }
    requires row { row < count_of answering.now.source.now.tables entity }
    ensures { OnOk result (made.new.items ≡ made.old.items ++ rows_named answering.now.query.now answering.now.moved.now
        answering.now.source.now answering.now.target.now answering.now.evaluated.now (answers_in answering.now)
        entity row) }
{
    let query = answering.query;
    let source = answering.source;
    let target = answering.target;
    query.is_well_sorted();
    source.is_instance();
    target.is_instance();
    let moved = answering.moved;
    let place = row_at(moved.rows.as_slice(), entity, row);
    let answer = answer_at(answering.answers, entity, place);
    let variables = variables(query, entity);
    for (number, variable) in variables.iter().enumerate() {
        let named = number_at(answer, number);
        made.push(name_row(alloc, target, variable.1, named)?)?;
    }
    Ok(())
}

/// Puts the image of each copy of an entity's rows behind others.
fn push_rows(
    alloc: Global,
    answering: &Answering,
    entity: u32,
    made: &mut Vec<Image>,
) -> Result<(), AllocError>
    requires answering { IsAnswering answering.now }
    requires entity { entity < length answering.now.query.now.target.entities }
    ensures { OnOk result (made.new.items ≡ made.old.items ++ flat_map (rows_named answering.now.query.now
        answering.now.moved.now answering.now.source.now answering.now.target.now answering.now.evaluated.now
        (answers_in answering.now) entity) (below (count_of answering.now.source.now.tables entity))) }
{
    let source = answering.source;
    for row in 0..source.count(entity) {
        push_names(alloc, answering, entity, row, made)?;
    }
    Ok(())
}

/// The image of a null's generator.
fn null_image(alloc: Global, answering: &Answering, label: u32) -> Result<Image, AllocError>
    ensures { IfOk result (λ made. made ≡ null_named answering.now.query.now answering.now.moved.now
        answering.now.source.now answering.now.target.now answering.now.evaluated.now (answers_in answering.now)
        (term_among answering.now.null_terms.now) label) }
{
    let null = Value::Null(label as u64);
    let sent = value_then(alloc, answering.evaluated, answering.moved, &null)?;
    let naming = Naming {
        to: answering.target,
        null_terms: answering.null_terms,
    };
    let term = named_term(alloc, &naming, &sent)?;
    Ok(Image::Value(term))
}

/// Puts the image of each null's generator behind others.
fn push_nulls(alloc: Global, answering: &Answering, made: &mut Vec<Image>) -> Result<(), AllocError>
    requires { IsAnswering answering.now }
    ensures { OnOk result (made.new.items ≡ made.old.items ++ map (null_named answering.now.query.now
        answering.now.moved.now answering.now.source.now answering.now.target.now answering.now.evaluated.now
        (answers_in answering.now) (term_among answering.now.null_terms.now))
        (below (length answering.now.source.now.tables.algebra.nulls))) }
{
    let query = answering.query;
    let source = answering.source;
    let copies = answering.copies;
    query.is_well_sorted();
    source.is_instance();
    copies.is_instance();
    let nulls = source.algebra().nulls.len() as u32;
    for label in 0..nulls {
        made.push(null_image(alloc, answering, label)?)?;
    }
    Ok(())
}

/// The image of each generator.
pub(crate) fn images(alloc: Global, answering: &Answering) -> Result<Vec<Image>, AllocError>
    requires { IsAnswering answering.now }
    ensures { IfOk result (λ made. made.items ≡ from_eval_images answering.now.query.now answering.now.moved.now
        answering.now.source.now answering.now.target.now answering.now.evaluated.now (answers_in answering.now)
        (term_among answering.now.null_terms.now)) }
{
    let query = answering.query;
    let presentation = answering.copies.presentation();
    let mut images = Vec::with_capacity(alloc, presentation.generators.len())?;
    for entity in 0..query.entity_count() {
        push_rows(alloc, answering, entity, &mut images)?;
    }
    push_nulls(alloc, answering, &mut images)?;
    Ok(images)
}
