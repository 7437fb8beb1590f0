//! One token.
ghost use Rattle.std.specs.Prelude.{◌≡◌, IfOk};
ghost use Rattle.cq_rules.specs.Class.{is, is_name};
ghost use Rattle.cq_rules.specs.Outcome.{first_place, leads, name_of, nothing_kept, read_keep, read_or};
ghost use Rattle.cq_rules.specs.Rule.{outs, set};
ghost use Rattle.cq_productions.specs.Gives.{Passes};
ghost use Rattle.cq_productions.specs.Splits.{number_of, tokens_of};

use crate::cursor::{Cursor, Next};
use crate::halt::Halt;
use crate::words::Words;
use cq_base::{Name, Place};
use cq_lex::{Kind, Token};
use cq_rules::{Class, Why};
use std::alloc::{AllocError, Global};

/// The next token and the cursor behind it, if there is one.
pub fn split<'a>(at: Cursor<'a>) -> Option<Next<'a>>
    ensures { at.entry.tokens.now ≡ tokens_of result }
{
    let [token, tokens @ ..] = at.tokens else {
        return None;
    };
    let [class, classes @ ..] = at.classes else {
        return None;
    };
    let rest = Cursor { tokens, classes };
    Some(Next {
        token,
        class: *class,
        rest,
    })
}

/// Whether the next token is of this class.
pub fn is_next(at: Cursor, class: Class) -> bool
    ensures { result ≡ leads (set (is class)) at.entry.tokens.now }
{
    match split(at) {
        Some(next) => next.class.is(class),
        None => false,
    }
}

/// Whether the next token is a name.
pub fn is_name_next(at: Cursor) -> bool
    ensures { result ≡ leads (set is_name) at.entry.tokens.now }
{
    match split(at) {
        Some(next) => next.class.is_name(),
        None => false,
    }
}

/// The place of the next token.
pub fn place_of(at: Cursor) -> Place
    ensures { result ≡ first_place at.entry.tokens.now }
{
    match split(at) {
        Some(next) => next.token.place,
        None => Place { line: 0, col: 0 },
    }
}

/// A token of this class.
pub fn skip<'a>(at: Cursor<'a>, class: Class) -> Result<Cursor<'a>, Halt<'a>>
    ensures { Passes result (read_keep nothing_kept (set (is class)) at.entry.tokens.now) }
{
    match split(at) {
        Some(next) if next.class.is(class) => Ok(next.rest),
        _ => Err(Halt::At(Why::Wanted, at)),
    }
}

/// The number of the next token, if it is one of the words that are left out here, and else 0.
pub fn left_out<W: Words>(at: Cursor) -> u32
    ensures { result ≡ number_of (outs W.words) at.entry.tokens.now }
{
    match split(at) {
        Some(next) => W::number(next.class),
        None => 0,
    }
}

/// A token of this class, where words may be left out.
pub fn ends<'a, W: Words>(at: Cursor<'a>, class: Class) -> Result<Cursor<'a>, Halt<'a>>
    ensures { Passes result (read_or (outs W.words) (read_keep nothing_kept (set (is class))) at.entry.tokens.now) }
{
    let number = left_out::<W>(at);
    if number > 0 {
        return Err(Halt::At(Why::LeftOut(number), at));
    }
    skip(at, class)
}

/// The word or the content of a token.
pub fn name_in(alloc: Global, token: &Token) -> Result<Name, AllocError>
    ensures { IfOk result (λ n. n ≡ name_of token.now) }
{
    match &token.kind {
        Kind::Word(word) => word.clone(),
        Kind::Text(text) => text.clone(),
        _ => Name::empty(alloc),
    }
}
