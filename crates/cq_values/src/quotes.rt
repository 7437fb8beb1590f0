//! Quoted texts.
ghost use Rattle.std.specs.Prelude.{◌≡◌, false, IfOk, option_map};
ghost use Rattle.cq_values.specs.Reading as reading;

use crate::constants::quoted_value;
use cq_base::unescape;
use cq_theory::{Typeside, Value};
use std::alloc::{AllocError, Global};

/// Whether the byte stands in quotes without a backslash.
fn stands_alone(byte: u8) -> bool
    ensures { result ≡ reading.stands_alone byte }
{
    !matches!(byte, b'"' | b'\\' | b'\n' | b'\t' | b'\r')
}

/// The content of a quoted text, whose opening quote stands before the bytes, and the bytes behind the closing one.
fn unquoted(alloc: Global, bytes: &[u8]) -> Result<Option<(Vec<u8>, &[u8])>, AllocError>
    ensures { IfOk result (λ found. option_map (λ x. (x.0.items, x.1.now)) found ≡ reading.unquoted false bytes.now) }
{
    let mut content = Vec::new(alloc);
    let mut rest = bytes;
    'bytes: while let Some((first, after)) = rest.split_first() {
        if *first == b'"' {
            return Ok(Some((content, after)));
        }
        if *first != b'\\' {
            if !stands_alone(*first) {
                return Ok(None);
            }
            content.push(*first)?;
            rest = after;
            continue;
        }
        let Some((second, behind)) = after.split_first() else {
            return Ok(None);
        };
        let Some(byte) = unescape(*second) else {
            return Ok(None);
        };
        content.push(byte)?;
        rest = behind;
    }
    Ok(None)
}

/// The constant of this type in quotes, of which the opening one stands before the bytes, and the bytes behind it.
pub(crate) fn quoted<'a>(
    alloc: Global,
    typeside: &Typeside,
    sort: u32,
    bytes: &'a [u8],
) -> Result<Option<(Value, &'a [u8])>, AllocError>
    ensures { IfOk result (λ found. option_map (λ x. (x.0, x.1.now)) found
        ≡ reading.at_content typeside.now sort (reading.unquoted false bytes.now)) }
{
    let Some((content, rest)) = unquoted(alloc, bytes)? else {
        return Ok(None);
    };
    match quoted_value(alloc, typeside, sort, content.as_slice())? {
        Some(value) => Ok(Some((value, rest))),
        None => Ok(None),
    }
}
