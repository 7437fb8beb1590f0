//! Values by their texts.
ghost use Rattle.std.specs.Prelude.{◌≡◌, IfOk, nat_le, option_map};
ghost use Rattle.cq_theory.specs.Value.{symbols_of};
ghost use Rattle.cq_values.specs.Readable.{IsRead};
ghost use Rattle.cq_values.specs.Reading as reading;
ghost use Rattle.cq_values.specs.Reading.{value_at, value_in};

use crate::constants::word_value;
use crate::labels::null;
use crate::quotes::quoted;
use crate::words::{function_for, is_word_byte, name_of, word_len};
use cq_base::Seq;
use cq_theory::{Typeside, Value, is_long_value};
use std::alloc::{AllocError, Global};

/// The most levels of a readable value.
const MOST_LEVELS: u32 = 64;

/// The bytes behind a comma and a space.
fn behind_comma(bytes: &[u8]) -> Option<&[u8]>
    ensures { option_map (λ rest. rest.now) result ≡ reading.behind_comma bytes.now }
{
    match bytes {
        [b',', after @ ..] => match after {
            [b' ', rest @ ..] => Some(rest),
            _ => None,
        },
        _ => None,
    }
}

/// Reads values of these types, each behind a comma and a space, and appends them. The bytes behind them are answered.
#[cycle(values)]
fn others<'a>(
    alloc: Global,
    typeside: &Typeside,
    levels: u32,
    sorts: &[u32],
    args: &mut Vec<Value>,
    bytes: &'a [u8],
) -> Result<Option<&'a [u8]>, AllocError>
    ensures { IfOk result (λ found. option_map (λ rest. (args.new.items, rest.now)) found
        ≡ reading.behind args.old.items (reading.others (value_at typeside.now levels) sorts.now bytes.now)) }
{
    let mut rest = bytes;
    for sort in sorts {
        let Some(after) = behind_comma(rest) else {
            return Ok(None);
        };
        let Some((arg, behind)) = value(alloc, typeside, levels, *sort, after)? else {
            return Ok(None);
        };
        args.push(arg)?;
        rest = behind;
    }
    Ok(Some(rest))
}

/// The values of these types at the front, with a comma and a space between them, and the bytes behind them.
#[cycle(values)]
fn arguments<'a>(
    alloc: Global,
    typeside: &Typeside,
    levels: u32,
    sorts: &[u32],
    bytes: &'a [u8],
) -> Result<Option<(Vec<Value>, &'a [u8])>, AllocError>
    ensures { IfOk result (λ found. option_map (λ x. (x.0.items, x.1.now)) found
        ≡ reading.arguments (value_at typeside.now levels) sorts.now bytes.now) }
{
    let mut args = Vec::new(alloc);
    let Some((first, more)) = sorts.split_first() else {
        return Ok(Some((args, bytes)));
    };
    let Some((arg, behind)) = value(alloc, typeside, levels, *first, bytes)? else {
        return Ok(None);
    };
    args.push(arg)?;
    match others(alloc, typeside, levels, more, &mut args, behind)? {
        Some(rest) => Ok(Some((args, rest))),
        None => Ok(None),
    }
}

/// The function of this type whose name is this word, at the arguments that stand behind an opening bracket.
#[cycle(values)]
fn application<'a>(
    alloc: Global,
    typeside: &Typeside,
    levels: u32,
    sort: u32,
    word: &[u8],
    bytes: &'a [u8],
) -> Result<Option<(Value, &'a [u8])>, AllocError>
    ensures { IfOk result (λ found. option_map (λ x. (x.0, x.1.now)) found
        ≡ reading.application (value_at typeside.now levels) typeside.now sort word.now bytes.now) }
{
    let Some(name) = name_of(alloc, word)? else {
        return Ok(None);
    };
    let Some((function, sorts)) = function_for(typeside, sort, &name) else {
        return Ok(None);
    };
    let Some((args, behind)) = arguments(alloc, typeside, levels, sorts, bytes)? else {
        return Ok(None);
    };
    match behind {
        [b')', rest @ ..] => Ok(Some((Value::Fun(function, Seq::from_vec(args)), rest))),
        _ => Ok(None),
    }
}

/// The constant or application of this type at whose front a word stands, and the bytes behind it.
#[cycle(values)]
fn word<'a>(
    alloc: Global,
    typeside: &Typeside,
    levels: u32,
    sort: u32,
    bytes: &'a [u8],
) -> Result<Option<(Value, &'a [u8])>, AllocError>
    ensures { IfOk result (λ found. option_map (λ x. (x.0, x.1.now)) found
        ≡ reading.word_front (value_at typeside.now levels) typeside.now sort bytes.now) }
{
    let (name, rest) = bytes.split_at(word_len(bytes));
    match rest {
        [b'(', after @ ..] => application(alloc, typeside, levels, sort, name, after),
        _ => match word_value(alloc, typeside, sort, name)? {
            Some(value) => Ok(Some((value, rest))),
            None => Ok(None),
        },
    }
}

/// The value of this type and of at most so many levels at the front, and the bytes behind it.
#[cycle(values)]
#[tactic(auto, unfolding(crate::specs::Reading::value_at))]
fn value<'a>(
    alloc: Global,
    typeside: &Typeside,
    levels: u32,
    sort: u32,
    bytes: &'a [u8],
) -> Result<Option<(Value, &'a [u8])>, AllocError>
    ensures { IfOk result (λ found. option_map (λ x. (x.0, x.1.now)) found
        ≡ value_at typeside.now levels sort bytes.now) }
{
    if levels == 0 {
        return Ok(None);
    }
    let Some((first, after)) = bytes.split_first() else {
        return Ok(None);
    };
    let first = *first;
    if first == b'"' {
        quoted(alloc, typeside, sort, after)
    } else if first == b'?' {
        Ok(null(after))
    } else if is_word_byte(first) {
        word(alloc, typeside, levels - 1, sort, bytes)
    } else {
        Ok(None)
    }
}

/// Whether the value has at most 1,024 symbols.
fn is_small(value: &Value) -> bool
    ensures { result ≡ nat_le (symbols_of value.now) 1024 }
{
    !is_long_value(value)
}

/// The value of this type, of at most 64 levels and 1,024 symbols, that is read of the whole text.
#[tactic(auto, unfolding(crate::specs::Reading::value_in))]
fn whole_value(
    alloc: Global,
    typeside: &Typeside,
    sort: u32,
    text: &[u8],
) -> Result<Option<Value>, AllocError>
    ensures { IfOk result (λ found. found ≡ value_in typeside.now sort text.now) }
{
    let Some((value, rest)) = value(alloc, typeside, MOST_LEVELS, sort, text)? else {
        return Ok(None);
    };
    if !rest.is_empty() {
        return Ok(None);
    }
    if is_small(&value) {
        Ok(Some(value))
    } else {
        Ok(None)
    }
}

/// The value of this type whose text this is: a value is readable if it has the type at each level, where a null may
/// have any and its label is below 10^9, if the functions in it have words as their names, and if it has at most 64
/// levels and 1,024 symbols. None says that no readable value has this text.
pub fn read_value(
    alloc: Global,
    typeside: &Typeside,
    sort: u32,
    text: &[u8],
) -> Result<Option<Value>, AllocError>
    ensures told { IfOk result (λ found. found ≡ value_in typeside.now sort text.now) }
    ensures exact { IfOk result (λ found. IsRead typeside.now sort text.now found) }
{
    typeside.is_well_sorted();
    whole_value(alloc, typeside, sort, text)
}
