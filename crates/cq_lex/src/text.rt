//! Quoted texts, and the names of tokens.
ghost use Rattle.std.specs.Prelude.{◌≡◌, false};
ghost use Rattle.cq_lex.specs.Front as found;
ghost use Rattle.cq_lex.specs.Front.{Gives, Names, Reads};

use crate::bytes::plain_len;
use crate::fault::Fault;
use crate::fronts::Front;
use crate::token::Kind;
use cq_base::{Name, NameRefusal, Source, unescape};
use std::alloc::Global;

/// The name whose bytes are `content`, for a token that begins at `token`. Where the content is written as it is, it
/// stands `at` the place behind the token's mark.
pub(crate) fn name_of<'a>(
    source: &mut Source,
    token: &'a [u8],
    at: &[u8],
    content: &[u8],
) -> Result<Name, Fault<'a>>
    ensures { Names result content.now token.now }
{
    let Ok(text) = str::from_utf8(content) else {
        return Err(Fault::BadByte(token));
    };
    match source.name(at.len(), text) {
        Ok(name) => Ok(name),
        Err(NameRefusal::Long) => Err(Fault::LongName(token)),
        Err(NameRefusal::Memory) => Err(Fault::Memory),
    }
}

/// The content of the text that begins at `token`, where `bytes` stand behind its opening quote; and
/// the bytes behind the closing one.
fn content<'a>(
    alloc: Global,
    token: &'a [u8],
    bytes: &'a [u8],
) -> Result<(Vec<u8>, &'a [u8]), Fault<'a>>
    ensures { Reads (λ x. x.0.items) (λ x. x.1.now) result (found.content false bytes.now) token.now }
{
    let mut content = Vec::new(alloc);
    let mut rest = bytes;
    'bytes: while let Some((first, after)) = rest.split_first() {
        if *first == b'"' {
            return Ok((content, after));
        }
        if *first != b'\\' {
            content.push(*first)?;
            rest = after;
            continue;
        }
        let Some((second, behind)) = after.split_first() else {
            return Err(Fault::OpenText(token));
        };
        let Some(byte) = unescape(*second) else {
            return Err(Fault::BadByte(after));
        };
        content.push(byte)?;
        rest = behind;
    }
    Err(Fault::OpenText(token))
}

/// The text that begins at `token`, where `bytes` stand behind its opening quote.
///
/// A text without a backslash is its own content, so it is copied into its name alone.
pub(crate) fn text<'a>(
    alloc: Global,
    source: &mut Source,
    token: &'a [u8],
    bytes: &'a [u8],
) -> Result<Front<'a>, Fault<'a>>
    ensures { Gives result (found.at_text (found.content false bytes.now) token.now) }
{
    let (plain, behind) = bytes.split_at(plain_len(bytes));
    if let Some((b'"', rest)) = behind.split_first() {
        let name = name_of(source, token, bytes, plain)?;
        return Ok(Front::Token(Kind::Text(name), rest));
    }
    let (content, rest) = content(alloc, token, bytes)?;
    let name = name_of(source, token, bytes, content.as_slice())?;
    Ok(Front::Token(Kind::Text(name), rest))
}
