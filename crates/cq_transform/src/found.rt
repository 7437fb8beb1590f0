//! The values that have been found for nulls.
ghost use Rattle.std.specs.Prelude.{◌≡◌, IfOk, IfSome, IfNone, Some, ◌<◌, length, map, option_copied, slice_set};
ghost use Rattle.std.specs.List.{list_any};
ghost use Rattle.cq_transform.specs.Nulls.{value_at as found_at, value_or_first as value_or_constant};
ghost use Rattle.cq_transform.specs.Nulls.{is_open as has_none, plain_image as image_in, IsOpenAt, IsClosed};

use cq_instance::copied;
use cq_theory::{Con, Value};
use std::alloc::{AllocError, Global};

/// The value of a null, if it has been found.
fn value_at(found: &[Option<Value>], label: u64) -> Option<&Value>
    ensures { option_copied result ≡ found_at found.now label }
{
    match found.get(label as usize) {
        Some(Some(value)) => Some(value),
        Some(None) => None,
        None => None,
    }
}

/// The label of a null for which no value has been found.
pub(crate) fn open_label(found: &[Option<Value>], value: &Value) -> Option<usize>
    ensures open { IfSome result (λ label. IsOpenAt found.now value.now label) }
    ensures closed { IfNone result (IsClosed found.now value.now) }
{
    match value {
        Value::Const(_) => None,
        Value::Null(label) => match found.get(*label as usize) {
            Some(Some(_)) => None,
            Some(None) => Some(*label as usize),
            None => None,
        },
        Value::Fun(_, _) => None,
    }
}

/// Puts the value of a null in its place.
pub(crate) fn put(found: &mut Vec<Option<Value>>, label: usize, value: Value)
    requires { label < length found.old.items }
    ensures { found.new.items ≡ slice_set found.old.items label (Some value) }
{
    found[label] = Some(value);
}

/// Whether the image of a value isn't known yet.
fn is_open(found: &[Option<Value>], value: &Value) -> bool
    ensures { result ≡ has_none found.now value.now }
{
    match value {
        Value::Const(_) => false,
        Value::Null(label) => value_at(found, *label).is_none(),
        Value::Fun(_, _) => true,
    }
}

/// Whether the image of one of the values isn't known yet.
pub(crate) fn has_open(found: &[Option<Value>], values: &[Value]) -> bool
    ensures { result ≡ list_any (has_none found.now) values.now }
{
    for value in values {
        if is_open(found, value) {
            return true;
        }
    }
    false
}

/// A value that was found, and a constant where there is none.
fn value_or_first(alloc: Global, value: Option<&Value>) -> Result<Value, AllocError>
    ensures { IfOk result (λ made. made ≡ value_or_constant (option_copied value.entry)) }
{
    match value {
        Some(value) => copied(alloc, value),
        None => Ok(Value::Const(Con::Named(0))),
    }
}

/// The image of a constant or a null.
fn plain_image(alloc: Global, found: &[Option<Value>], value: &Value) -> Result<Value, AllocError>
    ensures { IfOk result (λ made. made ≡ image_in found.now value.now) }
{
    match value {
        Value::Const(constant) => Ok(Value::Const(constant.clone()?)),
        Value::Null(label) => value_or_first(alloc, value_at(found, *label)),
        Value::Fun(_, _) => Ok(Value::Const(Con::Named(0))),
    }
}

/// The images of constants and nulls.
pub(crate) fn plain_images(
    alloc: Global,
    found: &[Option<Value>],
    values: &[Value],
) -> Result<Vec<Value>, AllocError>
    ensures { IfOk result (λ made. made.items ≡ map (image_in found.now) values.now) }
{
    let mut images = Vec::with_capacity(alloc, values.len())?;
    for value in values {
        images.push(plain_image(alloc, found, value)?)?;
    }
    Ok(images)
}

/// The values that were found, with a constant for each null without one.
pub(crate) fn values_of(alloc: Global, found: &[Option<Value>]) -> Result<Vec<Value>, AllocError>
    ensures { IfOk result (λ made. made.items ≡ map value_or_constant found.now) }
{
    let mut values = Vec::with_capacity(alloc, found.len())?;
    for value in found {
        values.push(value_or_first(alloc, value.as_ref())?)?;
    }
    Ok(values)
}
