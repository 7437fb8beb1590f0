//! Transforms between instances of answers, along a query.
ghost use Rattle.std.specs.Prelude.{ℕ, List, ◌≡◌, ◌⊎◌, ◌<◌, true, false, IfOk, IfErr, Some, length, map, slice_get};
ghost use Rattle.std.specs.Prelude.{slice_index, slice_index_or};
ghost use Rattle.std.specs.List.{enumerate_from};
ghost use Rattle.cq_base.specs.declared.name.Name.{Name as AnyName};
ghost use Rattle.cq_theory.specs.declared.term.TypeTerm.TheVariants.{Gen};
ghost use Rattle.cq_theory.specs.Sorts.{type_of};
ghost use Rattle.cq_theory.specs.Tables.{AtRow, count_of, value_in};
ghost use Rattle.cq_transform.specs.Composing.{has_long as have_long};
ghost use Rattle.cq_transform.specs.Transforms.{GoesFrom};
ghost use Rattle.cq_query.specs.Translation.{variables_at};
ghost use Rattle.cq_adjoint.specs.QueryMoves.{AreEvaluated, answer_sent, eval_row as row_of_eval};
ghost use Rattle.cq_adjoint.specs.QueryMoves.{eval_value as value_of_eval, eval_image as image_of_eval, eval_images};
ghost use Rattle.cq_adjoint.specs.Evaluating.{IsEvaluating};

use crate::crossing::{answer_term, row_at, spelled, variables};
use crate::into_eval::has_long;
use crate::places::{Places, all_places, places_at};
use cq_base::number_at;
use cq_instance::{Image, Instance, Transform};
use cq_query::Query;
use cq_theory::{SizeRefusal, Sort, TypeTerm, alone};
use cq_transform::{transform_of_images, value_then};
use std::alloc::{AllocError, Global};

/// The transform `moved` from `source` to `target`, and the instances of the query's answers there: `from` has the
/// answers in the source, of which `evaluated` is the instance, and `places` those in the target, of which `there` is.
#[derive(Clone, Copy)]
pub(crate) struct Evaluating<'a> {
    pub query: &'a Query,
    pub moved: &'a Transform,
    pub source: &'a Instance,
    pub target: &'a Instance,
    pub evaluated: &'a Instance,
    pub there: &'a Instance,
    pub from: &'a [Places<'a>],
    pub places: &'a [Places<'a>],
}

/// The transform from `evaluated`, eval of `source`, to `there`, eval of `target`, along `moved` from `source` to
/// `target` (Schultz and Wisnesky, Algebraic Data Integration: eval). An answer goes to the answer with `moved` applied
/// to each row, and a null where `moved` sends it. `from` and `to` have the answers of the query in `source` and in
/// `target` for each entity of the query's target, in order. `TooLarge` is answered exactly where an image has over
/// 1,024 symbols, and `Memory` for want of memory.
pub fn eval_map(
    alloc: Global,
    query: &Query,
    moved: &Transform,
    source: &Instance,
    target: &Instance,
    evaluated: &Instance,
    there: &Instance,
    from: &[Vec<Vec<u32>>],
    to: &[Vec<Vec<u32>>],
) -> Result<Transform, SizeRefusal>
    requires goes { GoesFrom moved.now source.now target.now }
    requires evaluated { AreEvaluated query.now source.now target.now evaluated.now there.now
        (map (λ list. map (λ rows. rows.items) list.items) from.now)
        (map (λ list. map (λ rows. rows.items) list.items) to.now) }
    ensures images { IfOk result (λ made. made.images ≡ eval_images query.now moved.now source.now target.now
        evaluated.now there.now (map (λ list. map (λ rows. rows.items) list.items) from.now)
        (map (λ list. map (λ rows. rows.items) list.items) to.now)) }
    ensures goes { IfOk result (λ made. GoesFrom made evaluated.now there.now) }
    ensures fits { IfOk result (λ made. have_long made.images ≡ false) }
    ensures refused { IfErr result (λ refusal. (refusal ≡ SizeRefusal.Memory)
        ⊎ ((refusal ≡ SizeRefusal.TooLarge) × (have_long (eval_images query.now moved.now source.now target.now
        evaluated.now there.now (map (λ list. map (λ rows. rows.items) list.items) from.now)
        (map (λ list. map (λ rows. rows.items) list.items) to.now)) ≡ true))) }
{
    query.is_well_sorted();
    let before = all_places(alloc, from)?;
    let after = all_places(alloc, to)?;
    let listed = before.as_slice();
    let places = after.as_slice();
    let evaluating = Evaluating {
        query,
        moved,
        source,
        target,
        evaluated,
        there,
        from: listed,
        places,
    };
    mapped(alloc, &evaluating)
}

/// The rows to which the transform sends those of an answer for an entity.
fn sent_answer(
    alloc: Global,
    evaluating: &Evaluating,
    entity: u32,
    rows: &[u32],
) -> Result<Vec<u32>, AllocError>
    ensures { IfOk result (λ made. made.items ≡ answer_sent evaluating.now.query.now evaluating.now.moved.now
        evaluating.now.source.now evaluating.now.target.now entity rows.now) }
{
    let moved = evaluating.moved;
    let variables = variables(evaluating.query, entity);
    let mut made = Vec::with_capacity(alloc, variables.len())?;
    for (number, variable) in variables.iter().enumerate() {
        let row = number_at(rows, number);
        made.push(row_at(moved.rows.as_slice(), variable.1, row))?;
    }
    Ok(made)
}

/// The image of a generator that stands for an answer.
fn answer_image(
    alloc: Global,
    evaluating: &Evaluating,
    entity: u32,
    row: u32,
) -> Result<Image, AllocError>
    requires evaluating { IsEvaluating evaluating.now }
    requires row { row < count_of evaluating.now.evaluated.now.tables entity }
    ensures { IfOk result (λ made. made ≡ row_of_eval evaluating.now.query.now evaluating.now.moved.now
        evaluating.now.source.now evaluating.now.target.now evaluating.now.evaluated.now evaluating.now.there.now
        evaluating.now.from.now evaluating.now.places.now
        entity row) }
{
    let query = evaluating.query;
    let source = evaluating.source;
    let target = evaluating.target;
    let evaluated = evaluating.evaluated;
    let there = evaluating.there;
    query.is_well_sorted();
    source.is_instance();
    target.is_instance();
    evaluated.is_instance();
    there.is_instance();
    let answers = places_at(evaluating.from, entity);
    let rows = sent_answer(alloc, evaluating, entity, answers.at(row))?;
    let name = answer_term(alloc, there, evaluating.places, entity, rows, row)?;
    Ok(Image::Row(name))
}

/// The image of a generator that stands for a value.
fn value_image(alloc: Global, evaluating: &Evaluating, generator: u32) -> Result<Image, AllocError>
    requires evaluating { IsEvaluating evaluating.now }
    requires typed { (type : ℕ) × (type_of evaluating.now.evaluated.now.schema
        evaluating.now.evaluated.now.presentation.generators (Gen generator) ≡ Some type) }
    ensures { IfOk result (λ made. made ≡ value_of_eval evaluating.now.query.now evaluating.now.moved.now
        evaluating.now.source.now evaluating.now.target.now evaluating.now.evaluated.now evaluating.now.there.now
        evaluating.now.from.now evaluating.now.places.now
        (value_in (slice_index_or evaluating.now.evaluated.now.assignment generator (AtRow 0)))) }
{
    let query = evaluating.query;
    let source = evaluating.source;
    let target = evaluating.target;
    let evaluated = evaluating.evaluated;
    query.is_well_sorted();
    source.is_instance();
    target.is_instance();
    evaluated.is_instance();
    let value = evaluated.value_of(alloc, &TypeTerm::Gen(generator))?;
    let sent = value_then(alloc, target, evaluating.moved, &value)?;
    let term = spelled(alloc, evaluating.there, &sent)?;
    Ok(Image::Value(term))
}

/// The image of a generator.
fn generator_image(
    alloc: Global,
    evaluating: &Evaluating,
    generator: u32,
    sort: Sort,
) -> Result<Image, AllocError>
    requires evaluating { IsEvaluating evaluating.now }
    requires generator { (name : AnyName)
        × (slice_get evaluating.now.evaluated.now.presentation.generators generator ≡ Some (name, sort)) }
    ensures { (name : AnyName) → IfOk result (λ made. made ≡ image_of_eval evaluating.now.query.now
        evaluating.now.moved.now evaluating.now.source.now evaluating.now.target.now
        evaluating.now.evaluated.now evaluating.now.there.now
        evaluating.now.from.now evaluating.now.places.now
        (generator, (name, sort))) }
{
    match sort {
        Sort::Plain(_) => value_image(alloc, evaluating, generator),
        Sort::Entity(entity) => {
            let evaluated = evaluating.evaluated;
            let row = evaluated.row_of(&alone(alloc, generator));
            answer_image(alloc, evaluating, entity, row)
        }
    }
}

/// The image of each generator.
fn images(alloc: Global, evaluating: &Evaluating) -> Result<Vec<Image>, AllocError>
    requires { IsEvaluating evaluating.now }
    ensures { IfOk result (λ made. made.items ≡ eval_images evaluating.now.query.now evaluating.now.moved.now
        evaluating.now.source.now evaluating.now.target.now evaluating.now.evaluated.now evaluating.now.there.now
        evaluating.now.from.now evaluating.now.places.now) }
{
    let evaluated = evaluating.evaluated;
    let generators = evaluated.presentation().generators.as_slice();
    let mut images = Vec::with_capacity(alloc, generators.len())?;
    for (number, generator) in generators.iter().enumerate() {
        images.push(generator_image(alloc, evaluating, number as u32, generator.1)?)?;
    }
    Ok(images)
}

/// The transform between the instances of answers.
fn mapped(alloc: Global, evaluating: &Evaluating) -> Result<Transform, SizeRefusal>
    requires { IsEvaluating evaluating.now }
    ensures images { IfOk result (λ made. made.images ≡ eval_images evaluating.now.query.now
        evaluating.now.moved.now evaluating.now.source.now evaluating.now.target.now
        evaluating.now.evaluated.now evaluating.now.there.now
        evaluating.now.from.now evaluating.now.places.now) }
    ensures goes { IfOk result (λ made. GoesFrom made evaluating.now.evaluated.now evaluating.now.there.now) }
    ensures fits { IfOk result (λ made. have_long made.images ≡ false) }
    ensures refused { IfErr result (λ refusal. (refusal ≡ SizeRefusal.Memory)
        ⊎ ((refusal ≡ SizeRefusal.TooLarge) × (have_long (eval_images evaluating.now.query.now
        evaluating.now.moved.now evaluating.now.source.now evaluating.now.target.now
        evaluating.now.evaluated.now evaluating.now.there.now
        evaluating.now.from.now evaluating.now.places.now)
        ≡ true))) }
{
    let query = evaluating.query;
    let source = evaluating.source;
    let target = evaluating.target;
    let evaluated = evaluating.evaluated;
    query.is_well_sorted();
    source.is_instance();
    target.is_instance();
    evaluated.is_instance();
    let images = images(alloc, evaluating)?;
    if has_long(images.as_slice()) {
        return Err(SizeRefusal::TooLarge);
    }
    match transform_of_images(alloc, evaluated, evaluating.there, images) {
        Ok(made) => Ok(made),
        Err(_) => Err(SizeRefusal::Memory),
    }
}
