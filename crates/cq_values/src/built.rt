//! Built values by their texts.
ghost use Rattle.std.specs.Prelude.{◌≡◌, IfOk};
ghost use Rattle.cq_values.specs.Built as built;

use crate::reading::read_value;
use crate::words::{name_of, word_len};
use cq_base::Name;
use cq_theory::{Typeside, Value};
use std::alloc::{AllocError, Global};

/// The type that the function of this name gives.
fn named_result(typeside: &Typeside, name: &Name) -> Option<u32>
    ensures { result ≡ built.named_result typeside.now name.now }
{
    let number = typeside.find_function(name)?;
    let function = typeside.functions.as_slice().get(number as usize)?;
    Some(function.result)
}

/// The type that the function gives whose name is the word at the front.
fn built_type(alloc: Global, typeside: &Typeside, text: &[u8]) -> Result<Option<u32>, AllocError>
    ensures { IfOk result (λ found. found ≡ built.built_type typeside.now text.now) }
{
    let (word, _rest) = text.split_at(word_len(text));
    match name_of(alloc, word)? {
        Some(name) => Ok(named_result(typeside, &name)),
        None => Ok(None),
    }
}

/// Whether the value is a function at its arguments.
fn is_built(value: &Value) -> bool
    ensures { result ≡ built.is_built value.now }
{
    match value {
        Value::Const(_) => false,
        Value::Null(_) => false,
        Value::Fun(_, _) => true,
    }
}

/// The built value whose text this is, with its type, which its function gives: a built value is readable as
/// `read_value` says. None says that no readable built value has this text.
pub fn read_built(
    alloc: Global,
    typeside: &Typeside,
    text: &[u8],
) -> Result<Option<(u32, Value)>, AllocError>
    ensures { IfOk result (λ found. found ≡ built.built_in typeside.now text.now) }
{
    let Some(sort) = built_type(alloc, typeside, text)? else {
        return Ok(None);
    };
    let Some(value) = read_value(alloc, typeside, sort, text)? else {
        return Ok(None);
    };
    if is_built(&value) {
        Ok(Some((sort, value)))
    } else {
        Ok(None)
    }
}
