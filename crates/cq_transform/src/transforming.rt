//! Transforms by the images of generators.
ghost use Rattle.std.specs.Prelude.{◌≡◌, ◌<◌, ◌≤◌, ◌^◌, None, IfOk, IfErr, length, map};
ghost use Rattle.cq_theory.specs.Schema.{IsSchema};
ghost use Rattle.cq_instance.specs.InstanceData.{IsInstance};
ghost use Rattle.cq_instance.specs.Standing.{meaning};
ghost use Rattle.cq_transform.specs.Images.{images_fault, images_made};
ghost use Rattle.cq_transform.specs.Nulls.{IsInitial, AreNulls};
ghost use Rattle.cq_transform.specs.Refusals.{TellsUnequal};
ghost use Rattle.cq_transform.specs.Rows.{rows_made};
ghost use Rattle.cq_transform.specs.Transforms.{meanings_in, GoesFrom};
ghost use Rattle.cq_transform.specs.Transforming.{AreKept, AreRight, AreSorted, Tells};

use crate::equations::check_equations;
use crate::images::images;
use crate::meant::standings;
use crate::nulls::nulls;
use crate::refusal::TransformRefusal;
use crate::rows::rows;
use cq_base::{Name, Raw, Seq};
use cq_instance::{Image, Instance, Standing, Transform};
use cq_theory::{Equation, Schema, Sort};
use std::alloc::{AllocError, Global};

/// The transform that sends each generator of the source to the term that is given with its name. It is answered
/// exactly where the terms break no rule and each equation of the source, with the terms in the place of the
/// generators, holds in the target, if the memory suffices. Out of an initial model with least names it goes to the
/// target: the rows and the nulls are the one homomorphism that agrees with the terms.
///
/// The terms are tried in order, each by the rules in the order of the refusals; then a generator without a term, and
/// then the equations are. Source: Algebraic Data Integration (transforms).
pub fn transform(
    alloc: Global,
    source: &Instance,
    target: &Instance,
    parts: Vec<(Name, Raw)>,
) -> Result<Transform, TransformRefusal>
    requires schema { target.now.schema ≡ source.now.schema }
    requires parts { length parts.items < 2 ^ 32 }
    ensures right { IfOk result (λ _. AreRight source.now target.now parts.items) }
    ensures images { IfOk result (λ made. made.images ≡ images_made source.now target.now parts.items) }
    ensures goes { IfOk result (λ made. IsInitial source.now → GoesFrom made source.now target.now) }
    ensures refused { IfErr result (Tells source.now target.now parts.items) }
{
    match sorted_images(alloc, source, target, parts.as_slice()) {
        Ok(images) => transform_by(alloc, source, target, images),
        Err(refusal) => Err(refusal),
    }
}

/// The transform by images that are of the sorts of the generators and keep the equations. Want of memory is the only
/// error. Out of an initial model with least names it goes to the target, as in `transform`.
pub fn transform_of_images(
    alloc: Global,
    source: &Instance,
    target: &Instance,
    images: Vec<Image>,
) -> Result<Transform, AllocError>
    requires schema { target.now.schema ≡ source.now.schema }
    requires sorted { AreSorted source.now target.now images.items }
    requires kept { AreKept source.now target.now images.items }
    ensures images { IfOk result (λ made. made.images ≡ images.items) }
    ensures goes { IfOk result (λ made. IsInitial source.now → GoesFrom made source.now target.now) }
{
    schema_of(source).is_well_sorted();
    target.is_instance();
    let Ok(standings) = standings(alloc, target, images.as_slice()) else {
        return Err(AllocError);
    };
    match finished(alloc, source, target, images, standings.as_slice()) {
        Ok(made) => Ok(made),
        Err(refusal) => Err(refusal),
    }
}

/// The schema of an instance.
fn schema_of(instance: &Instance) -> &Schema
    ensures { result.now ≡ instance.now.schema }
{
    instance.schema()
}

/// The generators of an instance's presentation.
fn generators_of(instance: &Instance) -> &[(Name, Sort)]
    ensures generators { result.now ≡ instance.now.presentation.generators }
    ensures few { length result.now ≤ 16000000 }
{
    instance.presentation().generators.as_slice()
}

/// The equations of an instance's presentation.
fn equations_of(instance: &Instance) -> &[Equation]
    ensures equations { result.now ≡ instance.now.presentation.equations }
    ensures schema { IsSchema instance.now.schema }
    ensures instance { IsInstance instance.now }
{
    let schema = instance.schema();
    schema.is_well_sorted();
    instance.presentation().equations.as_slice()
}

/// The image of each generator of the source, which is of the sort of the generator.
fn sorted_images(
    alloc: Global,
    source: &Instance,
    target: &Instance,
    parts: &[(Name, Raw)],
) -> Result<Vec<Image>, TransformRefusal>
    requires schema { target.now.schema ≡ source.now.schema }
    requires parts { length parts.now < 2 ^ 32 }
    ensures accepted { IfOk result (λ _. images_fault source.now target.now parts.now ≡ None) }
    ensures made { IfOk result (λ made. made.items ≡ images_made source.now target.now parts.now) }
    ensures sorted { IfOk result (λ made. AreSorted source.now target.now made.items) }
    ensures refused { IfErr result (Tells source.now target.now parts.now) }
{
    let schema = schema_of(source);
    let generators = generators_of(source);
    let others = generators_of(target);
    match images(alloc, schema, generators, others, parts) {
        Ok(images) => Ok(images),
        Err(refusal) => Err(refusal),
    }
}

/// The transform by these images, which are of the sorts of the generators.
fn transform_by(
    alloc: Global,
    source: &Instance,
    target: &Instance,
    images: Vec<Image>,
) -> Result<Transform, TransformRefusal>
    requires schema { target.now.schema ≡ source.now.schema }
    requires sorted { AreSorted source.now target.now images.items }
    ensures kept { IfOk result (λ _. AreKept source.now target.now images.items) }
    ensures images { IfOk result (λ made. made.images ≡ images.items) }
    ensures goes { IfOk result (λ made. IsInitial source.now → GoesFrom made source.now target.now) }
    ensures refused { IfErr result (TellsUnequal target.now.tables (meanings_in target.now images.items)
        source.now.presentation.equations) }
{
    target.is_instance();
    match standings(alloc, target, images.as_slice()) {
        Ok(standings) => checked_transform(alloc, source, target, images, standings.as_slice()),
        Err(_) => Err(TransformRefusal::Memory),
    }
}

/// The transform by these images, which mean these rows and values.
fn checked_transform(
    alloc: Global,
    source: &Instance,
    target: &Instance,
    images: Vec<Image>,
    standings: &[Standing],
) -> Result<Transform, TransformRefusal>
    requires schema { target.now.schema ≡ source.now.schema }
    requires sorted { AreSorted source.now target.now images.items }
    requires meant { map meaning standings.now ≡ meanings_in target.now images.items }
    ensures kept { IfOk result (λ _. AreKept source.now target.now images.items) }
    ensures images { IfOk result (λ made. made.images ≡ images.items) }
    ensures goes { IfOk result (λ made. IsInitial source.now → GoesFrom made source.now target.now) }
    ensures refused { IfErr result (TellsUnequal target.now.tables (meanings_in target.now images.items)
        source.now.presentation.equations) }
{
    target.is_instance();
    let equations = equations_of(source);
    if let Err(refusal) = check_equations(alloc, target, standings, equations) {
        return Err(refusal);
    }
    match finished(alloc, source, target, images, standings) {
        Ok(made) => Ok(made),
        Err(_) => Err(TransformRefusal::Memory),
    }
}

/// The images, and where they send rows and nulls.
fn finished(
    alloc: Global,
    source: &Instance,
    target: &Instance,
    images: Vec<Image>,
    standings: &[Standing],
) -> Result<Transform, AllocError>
    ensures images { IfOk result (λ made. made.images ≡ images.items) }
    ensures rows { IfOk result (λ made. made.rows ≡ rows_made source.now target.now (map meaning standings.now)) }
    ensures nulls { IfOk result (λ made. IsInitial source.now
        → AreNulls source.now target.now (map meaning standings.now) made.nulls) }
{
    let rows = rows(alloc, source, target, standings)?;
    let nulls = nulls(alloc, source, target, standings, rows.as_slice())?;
    Ok(Transform {
        images: Seq::from_vec(images),
        rows: Seq::from_vec(rows),
        nulls: Seq::from_vec(nulls),
    })
}
