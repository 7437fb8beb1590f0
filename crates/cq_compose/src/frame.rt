//! A block of the second query, each variable of which has components: the variables of a block of the first.
ghost use Rattle.std.specs.Prelude.{◌≡◌, ◌++◌, IfOk, OnOk, length, map, option_copied, option_map, slice_get};
ghost use Rattle.std.specs.Prelude.{slice_index_or};
ghost use Rattle.cq_theory.specs.EntTerm.{alone as generator_alone, extended};
ghost use Rattle.cq_query.specs.Translation.{variables_at, assigned};
ghost use Rattle.cq_compose.specs.Composite.{components};
ghost use Rattle.cq_compose.specs.Frame.{IsFrame, terms_of, component_along};

use cq_query::Query;
use cq_query::translation::found_terms;
use cq_theory::{EntTerm, Path};
use std::alloc::{AllocError, Global};

/// A block of the second query, that of an entity, with the first component of each of its variables.
#[derive(Clone, Copy)]
pub(crate) struct Frame<'a> {
    pub first: &'a Query,
    pub second: &'a Query,
    pub entity: u32,
    pub starts: &'a [u32],
}

/// How many variables the block of an entity has.
pub(crate) fn width_at(query: &Query, entity: u32) -> usize
    ensures { result ≡ length (variables_at query.now entity) }
{
    match query.block(entity) {
        Some(block) => block.vars.len(),
        None => 0,
    }
}

/// The entity of a variable of a block.
fn variable_entity(query: &Query, entity: u32, variable: u32) -> Option<u32>
    ensures { result ≡ option_map (λ v. v.1) (slice_get (variables_at query.now entity) variable) }
{
    let block = query.block(entity)?;
    let var = block.vars.as_slice().get(variable as usize)?;
    Some(var.1)
}

/// How many components a variable has.
fn width(frame: &Frame, variable: u32) -> usize
    ensures { result ≡ length (components frame.now.first.now frame.now.second.now frame.now.entity variable) }
{
    match variable_entity(frame.second, frame.entity, variable) {
        Some(entity) => width_at(frame.first, entity),
        None => 0,
    }
}

fn start_at(starts: &[u32], variable: u32) -> Option<u32>
    ensures { result ≡ slice_get starts.now variable }
{
    starts.get(variable as usize).copied()
}

/// The generator of a component of a variable.
fn generator(frame: &Frame, variable: u32, place: usize) -> u32
    requires { IsFrame frame.now }
    ensures { result ≡ (slice_index_or
        (components frame.now.first.now frame.now.second.now frame.now.entity variable) place
        (generator_alone 0)).generator }
{
    let width = width(frame, variable);
    match start_at(frame.starts, variable) {
        Some(start) => {
            if place < width {
                start + place as u32
            } else {
                0
            }
        }
        None => 0,
    }
}

/// The term that a foreign key of the target assigns to a variable of the block to which it leads.
pub(crate) fn assigned_term(query: &Query, key: u32, place: usize) -> Option<&EntTerm>
    ensures { option_copied result ≡ slice_get (assigned query.now key) place }
{
    let terms = found_terms(query, key)?;
    terms.as_slice().get(place)
}

/// How many terms a foreign key of the target assigns.
fn assigned_count(query: &Query, key: u32) -> usize
    ensures { result ≡ length (assigned query.now key) }
{
    match found_terms(query, key) {
        Some(terms) => terms.len(),
        None => 0,
    }
}

/// How many components a term has.
pub(crate) fn component_count(frame: &Frame, term: &EntTerm) -> usize
    ensures { result ≡ length (terms_of frame.now term.now) }
{
    match term.path.as_slice().split_last() {
        Some((key, _)) => assigned_count(frame.first, *key),
        None => width(frame, term.generator),
    }
}

/// Appends the keys of a component of what stands at the end of a path from a variable, and answers its generator. The
/// path is followed from its end, so that no component is made that doesn't stand in the answer.
pub(crate) fn push_component(
    frame: &Frame,
    variable: u32,
    path: &[u32],
    place: usize,
    made: &mut Vec<u32>,
) -> Result<u32, AllocError>
    requires { IsFrame frame.now }
    ensures { IfOk result (λ generator. (generator ≡ (component_along frame.now variable path.now place).generator)
        × (made.new.items ≡ made.old.items ++ (component_along frame.now variable path.now place).path)) }
{
    match path.split_last() {
        None => Ok(generator(frame, variable, place)),
        Some((key, before)) => match assigned_term(frame.first, *key, place) {
            None => Ok(0),
            Some(term) => {
                let from = term.generator as usize;
                let generator = push_component(frame, variable, before, from, made)?;
                made.extend_from_slice(term.path.as_slice())?;
                Ok(generator)
            }
        },
    }
}

/// A component of a term, and then each foreign key of a path.
pub(crate) fn make_component(
    alloc: Global,
    frame: &Frame,
    term: &EntTerm,
    place: usize,
    path: &[u32],
) -> Result<EntTerm, AllocError>
    requires { IsFrame frame.now }
    ensures { IfOk result (λ made. made
        ≡ extended (slice_index_or (terms_of frame.now term.now) place (generator_alone 0)) path.now) }
{
    let mut keys = Vec::new(alloc);
    let generator = push_component(
        frame,
        term.generator,
        term.path.as_slice(),
        place,
        &mut keys,
    )?;
    keys.extend_from_slice(path)?;
    Ok(EntTerm {
        generator,
        path: Path::from_vec(keys)?,
    })
}
