//! The name of a part that isn't declared where it may stand.
ghost use Rattle.std.specs.Prelude.{◌≡◌, IfOk, IfSome};
ghost use Rattle.cq_known.specs.Spelled.{IsSpelledFrom};

use crate::literals::look_at;
use crate::role::{Known, Use};
use crate::spelled::first_spelled;
use cq_base::{Name, Place};
use cq_environment::Environment;
use cq_lex::Token;
use cq_near::nearest;
use cq_syntax::Body;
use std::alloc::{AllocError, Global};

/// A name that isn't declared where it may stand: its place, and the nearest that is.
#[derive(Drop)]
pub struct Unknown {
    pub place: Place,
    pub name: Name,
    pub near: Option<Name>,
}

/// The first name of the part at a place, in the order of the text, that isn't declared where it may stand, at the
/// place that `first_spelled` gives. None: each is declared, or the body is no literal.
pub fn unknown_in_part(
    alloc: Global,
    env: &Environment,
    body: &Body,
    tokens: &[Token],
    place: Place,
) -> Result<Option<Unknown>, AllocError>
    ensures { IfOk result (λ found. IfSome found (λ unknown.
        IsSpelledFrom tokens.now place unknown.place unknown.name)) }
{
    let look = look_at(alloc, env, body, place)?;
    let known = look.known.as_slice();
    let names = unknown_names(alloc, look.uses.as_slice(), known)?;
    let Some((at, number)) = first_spelled(tokens, place, names.as_slice()) else {
        return Ok(None);
    };
    let Some(name) = names.get(number) else {
        return Ok(None);
    };
    let near = near_use(alloc, name, look.uses.as_slice(), known)?;
    Ok(Some(Unknown {
        place: at,
        name: name.clone()?,
        near,
    }))
}

/// The names that are used and aren't known.
fn unknown_names(alloc: Global, uses: &[Use], known: &[Known]) -> Result<Vec<Name>, AllocError> {
    let mut names = Vec::new(alloc);
    for one in uses {
        if !known.iter().any(|name| one.is_of(name)) {
            names.push(one.name.clone()?)?;
        }
    }
    Ok(names)
}

/// The nearest of the known names that may stand where this one is used.
fn near_use(
    alloc: Global,
    name: &Name,
    uses: &[Use],
    known: &[Known],
) -> Result<Option<Name>, AllocError> {
    match uses.iter().find(|one| one.name == *name) {
        Some(found) => near_known(alloc, found, known),
        None => Ok(None),
    }
}

fn near_known(alloc: Global, used: &Use, known: &[Known]) -> Result<Option<Name>, AllocError> {
    let candidates = candidates(alloc, used, known)?;
    near_among(alloc, &used.name, candidates.as_slice())
}

/// The known names that may stand where this one is used.
fn candidates(alloc: Global, used: &Use, known: &[Known]) -> Result<Vec<Name>, AllocError> {
    let mut names = Vec::new(alloc);
    for one in known {
        if used.may_be(one) {
            names.push(one.name.clone()?)?;
        }
    }
    Ok(names)
}

/// The nearest of some names, if one is near.
pub fn near_among(alloc: Global, name: &Name, names: &[Name]) -> Result<Option<Name>, AllocError> {
    match nearest(alloc, name, names)? {
        Some(number) => copy_at(names, number),
        None => Ok(None),
    }
}

fn copy_at(names: &[Name], number: usize) -> Result<Option<Name>, AllocError> {
    match names.get(number) {
        Some(name) => Ok(Some(name.clone()?)),
        None => Ok(None),
    }
}
