//! One transform after another.
ghost use Rattle.std.specs.Prelude.{◌≡◌, ◌⊎◌, true, false, IfOk, IfErr, OnOk, ◌++◌, ◌∷◌, [], map, slice_index};
ghost use Rattle.std.specs.Prelude.{slice_index_or};
ghost use Rattle.std.specs.List.{enumerate_from};
ghost use Rattle.cq_theory.specs.declared.constant.Con.TheVariants as con;
ghost use Rattle.cq_theory.specs.declared.value.Value.TheVariants as any_value;
ghost use Rattle.cq_instance.specs.InstanceData.{InstanceData, IsInstance};
ghost use Rattle.cq_transform.specs.Composing.{put_image as image_put, is_long as is_over, has_long};
ghost use Rattle.cq_transform.specs.Composing.{composed_images as images_then, composed};
ghost use Rattle.cq_transform.specs.Sent.{value_sent};
ghost use Rattle.cq_transform.specs.Transforms.{GoesFrom};

use crate::putting::put_image;
use crate::sizes::is_long;
use cq_base::{Seq, number_at};
use cq_instance::{Image, Instance, Transform, copied};
use cq_theory::{Con, SizeRefusal, Value};
use std::alloc::{AllocError, Global};

/// The transform that goes first by `first`, which ends in `middle`, and then by `second`, which goes from there to
/// `last`. Its images are those of `first` with those of `second` in place of their generators, and its rows and nulls
/// the composite of the two homomorphisms. `TooLarge` is answered exactly where an image would have over 1,024
/// symbols, and `Memory` for want of memory.
pub fn compose(
    alloc: Global,
    first: &Transform,
    second: &Transform,
    middle: &Instance,
    last: &Instance,
) -> Result<Transform, SizeRefusal>
    ensures accepted { IfOk result (λ _. has_long (images_then first.now.images second.now.images) ≡ false) }
    ensures made { IfOk result (λ made. made ≡ composed middle.now last.now first.now second.now) }
    ensures goes { IfOk result (λ made. (start : InstanceData) → IsInstance start
        → GoesFrom first.now start middle.now → GoesFrom second.now middle.now last.now
        → GoesFrom made start last.now) }
    ensures refused { IfErr result (λ refusal. (refusal ≡ SizeRefusal.Memory)
        ⊎ ((refusal ≡ SizeRefusal.TooLarge)
        × (has_long (images_then first.now.images second.now.images) ≡ true))) }
{
    middle.is_instance();
    last.is_instance();
    let images = images_of(alloc, first, second)?;
    let made = finished(alloc, first, second, last, images)?;
    Ok(made)
}

/// Puts an image behind others, with the second images in place of its generators.
fn push_image(
    alloc: Global,
    second: &[Image],
    image: &Image,
    made: &mut Vec<Image>,
) -> Result<(), SizeRefusal>
    ensures made { OnOk result (made.new.items ≡ made.old.items ++ image_put second.now image.now ∷ []) }
    ensures fits { OnOk result (is_over (image_put second.now image.now) ≡ false) }
    ensures refused { IfErr result (λ refusal. (refusal ≡ SizeRefusal.Memory)
        ⊎ ((refusal ≡ SizeRefusal.TooLarge) × (is_over (image_put second.now image.now) ≡ true))) }
{
    let put = put_image(alloc, second, image)?;
    if is_long(&put) {
        return Err(SizeRefusal::TooLarge);
    }
    made.push(put)?;
    Ok(())
}

/// The images of the first transform, with those of the second one in place of their generators.
fn composed_images(
    alloc: Global,
    first: &[Image],
    second: &[Image],
) -> Result<Vec<Image>, SizeRefusal>
    ensures accepted { IfOk result (λ _. has_long (images_then first.now second.now) ≡ false) }
    ensures made { IfOk result (λ made. made.items ≡ images_then first.now second.now) }
    ensures refused { IfErr result (λ refusal. (refusal ≡ SizeRefusal.Memory)
        ⊎ ((refusal ≡ SizeRefusal.TooLarge) × (has_long (images_then first.now second.now) ≡ true))) }
{
    let mut made = Vec::with_capacity(alloc, first.len())?;
    for image in first {
        if let Err(refusal) = push_image(alloc, second, image, &mut made) {
            return Err(refusal);
        }
    }
    Ok(made)
}

/// The images of the composite.
fn images_of(
    alloc: Global,
    first: &Transform,
    second: &Transform,
) -> Result<Vec<Image>, SizeRefusal>
    ensures accepted { IfOk result (λ _. has_long (images_then first.now.images second.now.images) ≡ false) }
    ensures made { IfOk result (λ made. made.items ≡ images_then first.now.images second.now.images) }
    ensures refused { IfErr result (λ refusal. (refusal ≡ SizeRefusal.Memory)
        ⊎ ((refusal ≡ SizeRefusal.TooLarge)
        × (has_long (images_then first.now.images second.now.images) ≡ true))) }
{
    match composed_images(alloc, first.images.as_slice(), second.images.as_slice()) {
        Ok(images) => Ok(images),
        Err(refusal) => Err(refusal),
    }
}

/// The rows at a place, and none past the end.
pub fn rows_at(rows: &[Seq<u32>], place: usize) -> &[u32]
    ensures { result.now ≡ slice_index_or rows.now place [] }
{
    match rows.get(place) {
        Some(images) => images.as_slice(),
        None => &[],
    }
}

/// Where the rows in a list go.
fn rows_then(alloc: Global, rows: &[u32], then: &[u32]) -> Result<Seq<u32>, AllocError>
    ensures { IfOk result (λ made. made ≡ map (slice_index then.now) rows.now) }
{
    let mut made = Vec::with_capacity(alloc, rows.len())?;
    for row in rows {
        made.push(number_at(then, *row as usize))?;
    }
    Ok(Seq::from_vec(made))
}

/// Where the rows of each entity go.
fn composed_rows(
    alloc: Global,
    first: &[Seq<u32>],
    second: &[Seq<u32>],
) -> Result<Vec<Seq<u32>>, AllocError>
    ensures { IfOk result (λ made. made.items
        ≡ map (λ e. map (slice_index (slice_index_or second.now e.0 [])) e.1) (enumerate_from 0 first.now)) }
{
    let mut made = Vec::with_capacity(alloc, first.len())?;
    for (entity, rows) in first.iter().enumerate() {
        made.push(rows_then(alloc, rows.as_slice(), rows_at(second, entity))?)?;
    }
    Ok(made)
}

/// The value to which a null goes, and a constant where there is none.
fn null_then(alloc: Global, nulls: &[Value], label: u64) -> Result<Value, AllocError>
    ensures { IfOk result (λ made. made ≡ slice_index_or nulls.now label (any_value.Const (con.Named 0))) }
{
    match nulls.get(label as usize) {
        Some(value) => copied(alloc, value),
        None => Ok(Value::Const(Con::Named(0))),
    }
}

/// Where a value goes by the second transform, which ends in the last instance.
pub fn value_then(
    alloc: Global,
    last: &Instance,
    second: &Transform,
    value: &Value,
) -> Result<Value, AllocError>
    ensures { IfOk result (λ made. made ≡ value_sent last.now.tables.algebra.entries second.now.nulls value.now) }
{
    match value {
        Value::Const(constant) => Ok(Value::Const(constant.clone()?)),
        Value::Null(label) => null_then(alloc, second.nulls.as_slice(), *label),
        Value::Fun(function, args) => {
            let mut made = Vec::new(alloc);
            for arg in args.as_slice() {
                made.push(value_then(alloc, last, second, arg)?)?;
            }
            last.applied(alloc, *function, made)
        }
    }
}

/// Where each value goes.
fn composed_nulls(
    alloc: Global,
    last: &Instance,
    second: &Transform,
    values: &[Value],
) -> Result<Vec<Value>, AllocError>
    ensures { IfOk result (λ made. made.items
        ≡ map (value_sent last.now.tables.algebra.entries second.now.nulls) values.now) }
{
    let mut made = Vec::with_capacity(alloc, values.len())?;
    for value in values {
        made.push(value_then(alloc, last, second, value)?)?;
    }
    Ok(made)
}

/// The images, and where rows and nulls go.
fn finished(
    alloc: Global,
    first: &Transform,
    second: &Transform,
    last: &Instance,
    images: Vec<Image>,
) -> Result<Transform, AllocError>
    ensures { (j : InstanceData) → images.items ≡ images_then first.now.images second.now.images
        → IfOk result (λ made. made ≡ composed j last.now first.now second.now) }
{
    let rows = composed_rows(alloc, first.rows.as_slice(), second.rows.as_slice())?;
    let nulls = composed_nulls(alloc, last, second, first.nulls.as_slice())?;
    Ok(Transform {
        images: Seq::from_vec(images),
        rows: Seq::from_vec(rows),
        nulls: Seq::from_vec(nulls),
    })
}
