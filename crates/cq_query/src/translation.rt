//! What a query makes of the keys, attributes and terms of its target.
ghost use Rattle.std.specs.Prelude.{◌≡◌, ◌<◌, length, IfOk, option_copied, slice_get, map};
ghost use Rattle.cq_query.specs.Puts.{put, put_type, generators_from};
ghost use Rattle.cq_query.specs.Translation.{variable_terms, found_terms as found_terms_of};
ghost use Rattle.cq_query.specs.Translation.{found_term as found_term_of, assigned, attribute_term, along, translated};

use crate::puts::{generators, put_each, put_into_type};
use crate::query::Query;
use cq_base::Seq;
use cq_theory::{Con, EntTerm, TypeTerm};
use std::alloc::{AllocError, Global};

/// The terms that a foreign key of the target assigns.
pub fn found_terms(query: &Query, key: u32) -> Option<&Seq<EntTerm>>
    ensures { option_copied result ≡ found_terms_of query.now key }
{
    let edge = query.target.keys.as_slice().get(key as usize)?;
    let block = query.block(edge.from)?;
    let place = query.key_place(key)?;
    block.keys.as_slice().get(place as usize)
}

/// The term of an attribute of the target.
pub fn found_term(query: &Query, attribute: u32) -> Option<&TypeTerm>
    ensures { option_copied result ≡ found_term_of query.now attribute }
{
    let edge = query.target.attributes.as_slice().get(attribute as usize)?;
    let block = query.block(edge.from)?;
    let place = query.attribute_place(attribute)?;
    block.attributes.as_slice().get(place as usize)
}

/// The terms that a key assigns, with these terms in place of their generators.
pub(crate) fn put_assigned(
    alloc: Global,
    query: &Query,
    terms: &[EntTerm],
    key: u32,
) -> Result<Vec<EntTerm>, AllocError>
    ensures { IfOk result (λ made. made.items ≡ map (put terms.now) (assigned query.now key)) }
{
    match found_terms(query, key) {
        Some(assigned) => put_each(alloc, terms, assigned.as_slice()),
        None => Ok(Vec::new(alloc)),
    }
}

/// The term of an attribute, with these terms in place of its generators.
pub(crate) fn put_attribute(
    alloc: Global,
    query: &Query,
    terms: &[EntTerm],
    attribute: u32,
) -> Result<TypeTerm, AllocError>
    ensures { IfOk result (λ made. made ≡ put_type terms.now (attribute_term query.now attribute)) }
{
    match found_term(query, attribute) {
        Some(term) => put_into_type(alloc, terms, term),
        None => Ok(TypeTerm::Const(Con::Named(0))),
    }
}

/// The terms that stand for the row at the end of a path from the row of an entity for which its variables stand.
pub(crate) fn terms_along(
    alloc: Global,
    query: &Query,
    entity: u32,
    path: &[u32],
) -> Result<Vec<EntTerm>, AllocError>
    ensures { IfOk result (λ made. made.items ≡ along query.now (variable_terms query.now entity) path.now) }
{
    let mut here = generators(alloc, 0, query.variable_count(entity))?;
    for key in path {
        here = put_assigned(alloc, query, here.as_slice(), *key)?;
    }
    Ok(here)
}

/// A term over one variable of an entity of the target, with the query's terms for keys and attributes.
pub(crate) fn translate(
    alloc: Global,
    query: &Query,
    entity: u32,
    term: &TypeTerm,
) -> Result<TypeTerm, AllocError>
    ensures { IfOk result (λ made. made ≡ translated query.now (variable_terms query.now entity) term.now) }
{
    match term {
        TypeTerm::Gen(n) => Ok(TypeTerm::Gen(*n)),
        TypeTerm::Const(constant) => Ok(TypeTerm::Const(constant.clone()?)),
        TypeTerm::Att(attribute, term) => {
            let terms = terms_along(alloc, query, entity, term.path.as_slice())?;
            put_attribute(alloc, query, terms.as_slice(), *attribute)
        }
        TypeTerm::Fun(function, args) => {
            let mut made = Vec::new(alloc);
            for arg in args.as_slice() {
                made.push(translate(alloc, query, entity, arg)?)?;
            }
            Ok(TypeTerm::Fun(*function, Seq::from_vec(made)))
        }
    }
}
