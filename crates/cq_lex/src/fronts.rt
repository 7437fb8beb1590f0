//! What stands at the front of bytes.
ghost use Rattle.std.specs.Prelude.{◌≡◌};
ghost use Rattle.std.specs.List.{prefix_len};
ghost use Rattle.cq_lex.specs.Bytes as rules;
ghost use Rattle.cq_lex.specs.Front as found;
ghost use Rattle.cq_lex.specs.Front.{Gives};

use crate::bytes::{is_blank, is_word_byte, mark_of, word_len};
use crate::comment::{behind_block, behind_line};
use crate::fault::Fault;
use crate::text::{name_of, text};
use crate::token::{Kind, Mark};
use cq_base::Source;
use std::alloc::Global;

/// What stands at the front, with the bytes behind it.
#[derive(Drop)]
pub(crate) enum Front<'a> {
    End,
    /// A blank or a comment.
    Gap(&'a [u8]),
    Token(Kind, &'a [u8]),
}

fn word<'a>(source: &mut Source, bytes: &'a [u8]) -> Result<Front<'a>, Fault<'a>>
    ensures { Gives result (found.at_word (prefix_len rules.is_word_byte bytes.now) bytes.now) }
{
    let (front, rest) = bytes.split_at(word_len(bytes));
    let name = name_of(source, bytes, bytes, front)?;
    Ok(Front::Token(Kind::Word(name), rest))
}

fn slash<'a>(bytes: &'a [u8], after: &'a [u8]) -> Result<Front<'a>, Fault<'a>>
    ensures { Gives result (found.at_slash after.now bytes.now) }
{
    match after {
        [b'/', rest @ ..] => Ok(Front::Gap(behind_line(rest))),
        [b'*', rest @ ..] => match behind_block(rest) {
            Some(behind) => Ok(Front::Gap(behind)),
            None => Err(Fault::OpenComment(bytes)),
        },
        _ => Err(Fault::BadByte(bytes)),
    }
}

fn mark<'a>(bytes: &'a [u8], first: u8, after: &'a [u8]) -> Result<Front<'a>, Fault<'a>>
    ensures { Gives result (found.at_mark (found.mark_of first) first after.now bytes.now) }
{
    if let Some(mark) = mark_of(first) {
        return Ok(Front::Token(Kind::Mark(mark), after));
    }
    match (first, after) {
        (b'-', [b'>', rest @ ..]) => Ok(Front::Token(Kind::Mark(Mark::Arrow), rest)),
        _ => Err(Fault::BadByte(bytes)),
    }
}

/// What stands at the front of the bytes, which end the source. Names stand in its memory.
#[tactic(auto, unfolding(crate::specs::Front::front))]
pub(crate) fn front_of<'a>(
    alloc: Global,
    source: &mut Source,
    bytes: &'a [u8],
) -> Result<Front<'a>, Fault<'a>>
    ensures { Gives result (found.front bytes.now) }
{
    let Some((first, after)) = bytes.split_first() else {
        return Ok(Front::End);
    };
    let first = *first;
    if is_blank(first) {
        Ok(Front::Gap(after))
    } else if is_word_byte(first) {
        word(source, bytes)
    } else if first == b'"' {
        text(alloc, source, bytes, after)
    } else if first == b'/' {
        slash(bytes, after)
    } else {
        mark(bytes, first, after)
    }
}
