//! Constants by their words and quoted texts.
ghost use Rattle.std.specs.Prelude.{◌≡◌, IfOk};
ghost use Rattle.cq_theory.specs.Sorts.{is_type};
ghost use Rattle.cq_theory.specs.Typeside.{constant_type};
ghost use Rattle.cq_values.specs.Reading as reading;

use crate::words::{is_word, name_of};
use cq_theory::{Con, Typeside, Value};
use std::alloc::{AllocError, Global};

fn has_type(typeside: &Typeside, constant: &Con, sort: u32) -> bool
    ensures { result ≡ is_type (constant_type typeside.now constant.now) sort }
{
    match typeside.type_of_constant(constant) {
        Some(found) => found == sort,
        None => false,
    }
}

/// The constant as a value of this type.
fn typed(typeside: &Typeside, sort: u32, constant: Con) -> Option<Value>
    ensures { result ≡ reading.typed typeside.now sort constant }
{
    if has_type(typeside, &constant, sort) {
        Some(Value::Const(constant))
    } else {
        None
    }
}

/// The declared constant of this type whose name is this word.
pub(crate) fn word_value(
    alloc: Global,
    typeside: &Typeside,
    sort: u32,
    word: &[u8],
) -> Result<Option<Value>, AllocError>
    ensures { IfOk result (λ found. found ≡ reading.word_value typeside.now sort word.now) }
{
    let Some(name) = name_of(alloc, word)? else {
        return Ok(None);
    };
    match typeside.find_constant(&name) {
        Some(number) => Ok(typed(typeside, sort, Con::Named(number))),
        None => Ok(None),
    }
}

/// The constant of this type whose content stands in quotes: a declared one whose name is no word, or an open one.
pub(crate) fn quoted_value(
    alloc: Global,
    typeside: &Typeside,
    sort: u32,
    content: &[u8],
) -> Result<Option<Value>, AllocError>
    ensures { IfOk result (λ found. found ≡ reading.quoted_value typeside.now sort content.now) }
{
    let Some(name) = name_of(alloc, content)? else {
        return Ok(None);
    };
    match typeside.find_constant(&name) {
        Some(number) => {
            if is_word(content) {
                Ok(None)
            } else {
                Ok(typed(typeside, sort, Con::Named(number)))
            }
        }
        None => Ok(typed(typeside, sort, Con::Open(name))),
    }
}
