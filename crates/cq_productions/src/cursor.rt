//! The tokens that are still to be read, with their classes.
ghost use Rattle.std.specs.Prelude.{◌≡◌, IfOk, length, map, take};
ghost use Rattle.cq_rules.specs.Class.{class_of};

use cq_lex::Token;
use cq_rules::{Class, classify};
use std::alloc::{AllocError, Global};

/// The tokens from the next one on. Each was classified once, when the first cursor was made.
#[derive(Clone, Copy)]
pub struct Cursor<'a> {
    pub tokens: &'a [Token],
    pub classes: &'a [Class],
    ghost same: { classes.now ≡ map class_of tokens.now },
}

/// The next token, its class, and the cursor behind it.
#[derive(Clone, Copy)]
pub struct Next<'a> {
    pub token: &'a Token,
    pub class: Class,
    pub rest: Cursor<'a>,
    ghost classified: { class ≡ class_of token.now },
}

/// The classes of the tokens.
pub fn classes_of(alloc: Global, tokens: &[Token]) -> Result<Vec<Class>, AllocError>
    ensures { IfOk result (λ classes. classes.items ≡ map class_of tokens.now) }
{
    let mut classes = Vec::with_capacity(alloc, tokens.len())?;
    for token in tokens {
        classes.push(classify(token))?;
    }
    Ok(classes)
}
