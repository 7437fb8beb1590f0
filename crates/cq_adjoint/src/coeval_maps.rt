//! Transforms between instances that coeval makes, along a query.
ghost use Rattle.std.specs.Prelude.{◌≡◌, ◌⊎◌, ◌++◌, ◌<◌, true, false, IfOk, IfErr, OnOk, length, map};
ghost use Rattle.std.specs.List.{flat_map};
ghost use Rattle.cq_theory.specs.Canonical.{below};
ghost use Rattle.cq_theory.specs.Tables.{count_of};
ghost use Rattle.cq_transform.specs.Composing.{has_long as have_long};
ghost use Rattle.cq_transform.specs.Transforms.{GoesFrom};
ghost use Rattle.cq_adjoint.specs.Copying.{IsCopying};
ghost use Rattle.cq_adjoint.specs.QueryMoves.{IsCoeval, copies_of_row, null_sent, coeval_images};

use crate::crossing::row_at;
use crate::into_eval::has_long;
use crate::layout::{copy_at, find_layout, width};
use cq_instance::{Image, Instance, Transform};
use cq_query::Query;
use cq_terms::values::value_term;
use cq_theory::{SizeRefusal, Value, alone};
use cq_transform::{transform_of_images, value_then};
use std::alloc::{AllocError, Global};

/// The transform `moved` from `source` to `target`, and the instances that coeval makes of them: `copies` of the
/// source and `there` of the target, with the first generator there of each entity's copies and the first of the nulls.
#[derive(Clone, Copy)]
pub(crate) struct Copying<'a> {
    pub query: &'a Query,
    pub moved: &'a Transform,
    pub source: &'a Instance,
    pub target: &'a Instance,
    pub copies: &'a Instance,
    pub there: &'a Instance,
    pub starts: &'a [u32],
    pub first_null: u32,
}

/// The transform from `copies`, coeval of `source`, to `there`, coeval of `target`, along `moved` from `source` to
/// `target` (Schultz and Wisnesky, Algebraic Data Integration: coeval). The copy of a row for a variable goes to the
/// copy, for the same variable, of the row to which `moved` sends the row, and a null's generator to the spelling of
/// the value to which `moved` sends the null. `TooLarge` is answered exactly where an image has over 1,024 symbols, and
/// `Memory` for want of memory.
pub fn coeval_map(
    alloc: Global,
    query: &Query,
    moved: &Transform,
    source: &Instance,
    target: &Instance,
    copies: &Instance,
    there: &Instance,
) -> Result<Transform, SizeRefusal>
    requires goes { GoesFrom moved.now source.now target.now }
    requires copied { IsCoeval query.now source.now copies.now }
    requires copied_there { IsCoeval query.now target.now there.now }
    ensures images { IfOk result (λ made. made.images ≡ coeval_images query.now moved.now source.now target.now) }
    ensures goes { IfOk result (λ made. GoesFrom made copies.now there.now) }
    ensures fits { IfOk result (λ made. have_long made.images ≡ false) }
    ensures refused { IfErr result (λ refusal. (refusal ≡ SizeRefusal.Memory)
        ⊎ ((refusal ≡ SizeRefusal.TooLarge)
        × (have_long (coeval_images query.now moved.now source.now target.now) ≡ true))) }
{
    query.is_well_sorted();
    there.is_instance();
    let sheet = target.sheet();
    let layout = find_layout(alloc, query, sheet.counts.as_slice())?;
    let starts = layout.starts.as_slice();
    let copying = Copying {
        query,
        moved,
        source,
        target,
        copies,
        there,
        starts,
        first_null: layout.first_null,
    };
    mapped(alloc, &copying)
}

/// Puts the image of each copy of a row behind others.
fn push_copies(
    alloc: Global,
    copying: &Copying,
    entity: u32,
    row: u32,
    made: &mut Vec<Image>,
) -> Result<(), AllocError>
    requires copying { IsCopying copying.now }
    requires row { row < count_of copying.now.source.now.tables entity }
    ensures { OnOk result (made.new.items ≡ made.old.items ++ copies_of_row copying.now.query.now copying.now.moved.now
        copying.now.source.now copying.now.target.now entity row) }
{
    let query = copying.query;
    let source = copying.source;
    let target = copying.target;
    let there = copying.there;
    query.is_well_sorted();
    source.is_instance();
    target.is_instance();
    there.is_instance();
    let moved = copying.moved;
    let row_there = row_at(moved.rows.as_slice(), entity, row);
    let first = copy_at(query, copying.starts, entity, row_there);
    for variable in 0..width(query, entity) {
        made.push(Image::Row(alone(alloc, first + variable)))?;
    }
    Ok(())
}

/// Puts the image of each copy of an entity's rows behind others.
fn push_rows(
    alloc: Global,
    copying: &Copying,
    entity: u32,
    made: &mut Vec<Image>,
) -> Result<(), AllocError>
    requires copying { IsCopying copying.now }
    requires entity { entity < length copying.now.query.now.target.entities }
    ensures { OnOk result (made.new.items ≡ made.old.items ++ flat_map (copies_of_row copying.now.query.now
        copying.now.moved.now copying.now.source.now copying.now.target.now entity)
        (below (count_of copying.now.source.now.tables entity))) }
{
    let source = copying.source;
    for row in 0..source.count(entity) {
        push_copies(alloc, copying, entity, row, made)?;
    }
    Ok(())
}

/// The image of a null's generator.
fn null_image(alloc: Global, copying: &Copying, label: u32) -> Result<Image, AllocError>
    requires { IsCopying copying.now }
    ensures { IfOk result (λ made. made ≡ null_sent copying.now.query.now copying.now.moved.now copying.now.source.now
        copying.now.target.now label) }
{
    let query = copying.query;
    let target = copying.target;
    let there = copying.there;
    query.is_well_sorted();
    target.is_instance();
    there.is_instance();
    let sent = value_then(alloc, target, copying.moved, &Value::Null(label as u64))?;
    let nulls = target.algebra().nulls.len() as u32;
    let term = value_term(alloc, copying.first_null, nulls, &sent)?;
    Ok(Image::Value(term))
}

/// Puts the image of each null's generator behind others.
fn push_nulls(alloc: Global, copying: &Copying, made: &mut Vec<Image>) -> Result<(), AllocError>
    requires { IsCopying copying.now }
    ensures { OnOk result (made.new.items ≡ made.old.items ++ map (null_sent copying.now.query.now
        copying.now.moved.now copying.now.source.now copying.now.target.now)
        (below (length copying.now.source.now.tables.algebra.nulls))) }
{
    let query = copying.query;
    let source = copying.source;
    let copies = copying.copies;
    query.is_well_sorted();
    source.is_instance();
    copies.is_instance();
    let nulls = source.algebra().nulls.len() as u32;
    for label in 0..nulls {
        made.push(null_image(alloc, copying, label)?)?;
    }
    Ok(())
}

/// The image of each generator.
fn images(alloc: Global, copying: &Copying) -> Result<Vec<Image>, AllocError>
    requires { IsCopying copying.now }
    ensures { IfOk result (λ made. made.items ≡ coeval_images copying.now.query.now copying.now.moved.now
        copying.now.source.now copying.now.target.now) }
{
    let query = copying.query;
    let presentation = copying.copies.presentation();
    let mut images = Vec::with_capacity(alloc, presentation.generators.len())?;
    for entity in 0..query.entity_count() {
        push_rows(alloc, copying, entity, &mut images)?;
    }
    push_nulls(alloc, copying, &mut images)?;
    Ok(images)
}

/// The transform between the instances that coeval makes.
fn mapped(alloc: Global, copying: &Copying) -> Result<Transform, SizeRefusal>
    requires { IsCopying copying.now }
    ensures images { IfOk result (λ made. made.images ≡ coeval_images copying.now.query.now copying.now.moved.now
        copying.now.source.now copying.now.target.now) }
    ensures goes { IfOk result (λ made. GoesFrom made copying.now.copies.now copying.now.there.now) }
    ensures fits { IfOk result (λ made. have_long made.images ≡ false) }
    ensures refused { IfErr result (λ refusal. (refusal ≡ SizeRefusal.Memory)
        ⊎ ((refusal ≡ SizeRefusal.TooLarge) × (have_long (coeval_images copying.now.query.now copying.now.moved.now
        copying.now.source.now copying.now.target.now) ≡ true))) }
{
    let query = copying.query;
    let source = copying.source;
    let target = copying.target;
    let there = copying.there;
    query.is_well_sorted();
    source.is_instance();
    target.is_instance();
    there.is_instance();
    let images = images(alloc, copying)?;
    if has_long(images.as_slice()) {
        return Err(SizeRefusal::TooLarge);
    }
    match transform_of_images(alloc, copying.copies, there, images) {
        Ok(made) => Ok(made),
        Err(_) => Err(SizeRefusal::Memory),
    }
}
