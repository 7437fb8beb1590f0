//! Words, names and functions.
ghost use Rattle.std.specs.Prelude.{◌≡◌, ◌≤◌, IfOk, length, option_map};
ghost use Rattle.std.specs.List.{list_all, prefix_len};
ghost use Rattle.cq_theory.specs.ValueText.{is_word as is_word_text, is_word_byte as is_word_byte_of};
ghost use Rattle.cq_values.specs.Reading.{as_name, function_for};

use cq_base::{Name, NameRefusal, Source};
use cq_theory::Typeside;
use std::alloc::{AllocError, Global};

pub(crate) fn is_word_byte(byte: u8) -> bool
    ensures { result ≡ is_word_byte_of byte }
{
    matches!(byte, b'0'..=b'9' | b'A'..=b'Z' | b'a'..=b'z' | b'_' | b'$')
}

/// How many bytes the word at the front has.
pub(crate) fn word_len(bytes: &[u8]) -> usize
    ensures len { result ≡ prefix_len is_word_byte_of bytes.now }
    ensures within { result ≤ length bytes.now }
{
    bytes.iter().take_while(|byte| is_word_byte(**byte)).count()
}

fn are_word_bytes(bytes: &[u8]) -> bool
    ensures { result ≡ list_all is_word_byte_of bytes.now }
{
    bytes.iter().all(|byte| is_word_byte(*byte))
}

pub(crate) fn is_word(bytes: &[u8]) -> bool
    ensures { result ≡ is_word_text bytes.now }
{
    if bytes.is_empty() {
        false
    } else {
        are_word_bytes(bytes)
    }
}

/// The name with these bytes, if they are at most 255 bytes of UTF-8. It stands in memory of its own, with a key of its
/// own, since who writes a value chooses its texts.
pub fn name_of(alloc: Global, bytes: &[u8]) -> Result<Option<Name>, AllocError>
    ensures { IfOk result (λ found. found ≡ as_name bytes.now) }
{
    let Ok(text) = str::from_utf8(bytes) else {
        return Ok(None);
    };
    let mut source = Source::new(alloc, bytes)?;
    match source.name(bytes.len(), text) {
        Ok(name) => Ok(Some(name)),
        Err(NameRefusal::Long) => Ok(None),
        Err(NameRefusal::Memory) => Err(AllocError),
    }
}

/// The function of this name that gives this type, and the types of its arguments.
pub(crate) fn function_for<'t>(
    typeside: &'t Typeside,
    sort: u32,
    name: &Name,
) -> Option<(u32, &'t [u32])>
    ensures { option_map (λ found. (found.0, found.1.now)) result ≡ function_for typeside.now sort name.now }
{
    let number = typeside.find_function(name)?;
    let function = typeside.functions.as_slice().get(number as usize)?;
    if function.result == sort {
        Some((number, function.args.as_slice()))
    } else {
        None
    }
}
