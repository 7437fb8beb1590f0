//! Terms with their sorts, made in one walk over what is written.
ghost use Rattle.std.specs.Prelude.{◌≡◌, ◌∷◌, [], IfOk, Some, None, map, option_map, option_and_then, slice_get};
ghost use Rattle.std.specs.Prelude.{if◌then◌else◌};
ghost use Rattle.cq_theory.specs.EntTerm.{extended};
ghost use Rattle.cq_theory.specs.declared.constant.Con.TheVariants.{Named};
ghost use Rattle.cq_theory.specs.Sorts.{followed};
ghost use Rattle.cq_theory.specs.Resolve.{constant_of, constant_sort, text_constant, text_sort, word_constant};
ghost use Rattle.cq_theory.specs.Resolve.{word_sort, symbol_of, symbol_sort, raw_sort, are_plain_of, is_plain_of};
ghost use Rattle.cq_theory.specs.Resolve.{entity_in, only};
ghost use Rattle.cq_theory.specs.Resolved.{resolved, type_term_in, entity_term_in, first_entity_term};
ghost use Rattle.cq_theory.specs.Resolved.{constant_term, word_term, symbol_term};

use crate::constant::Con;
use crate::lookup::Symbol;
use crate::lookup::builds::{entity_term, generator, type_term, with_key};
use crate::lookup::passes::{edge_target, entity_of_sort, is_plain_sort};
use crate::presentation::Sort;
use crate::schema::Schema;
use crate::term::{EntTerm, Term, TypeTerm};
use cq_base::{Name, Names, Raw, Seq};
use std::alloc::{AllocError, Global};

/// A declared constant with its type.
fn typed_constant(schema: &Schema, number: u32) -> Option<(Term, Sort)>
    ensures { result ≡ option_map (λ sort. (constant_term (Some (Named number)), sort))
        (constant_sort schema.now (Some number)) }
{
    match schema.typeside.constants.as_slice().get(number as usize) {
        Some(constant) => Some((
            Term::Typ(TypeTerm::Const(Con::Named(number))),
            Sort::Plain(constant.1),
        )),
        None => None,
    }
}

/// A word with its sort: a generator where there is one of that name, and else a constant.
fn typed_word(
    schema: &Schema,
    sorts: &[Sort],
    number: Option<u32>,
    name: &Name,
) -> Option<(Term, Sort)>
    ensures { result ≡ option_map (λ sort. (word_term sorts.now number (word_constant schema.now name.now), sort))
        (word_sort schema.now sorts.now number (constant_of schema.now name.now)) }
{
    match number {
        Some(number) => match sorts.get(number as usize) {
            Some(sort) => Some((generator(number, Some(*sort)), *sort)),
            None => None,
        },
        None => match schema.find_constant(name) {
            Some(constant) => typed_constant(schema, constant),
            None => None,
        },
    }
}

/// A text with its type: the declared constant with this content, and else the open one.
fn typed_text(schema: &Schema, text: &Name) -> Result<Option<(Term, Sort)>, AllocError>
    ensures { IfOk result (λ found. found ≡ option_map
        (λ sort. (constant_term (text_constant schema.now text.now), sort))
        (text_sort schema.now (constant_of schema.now text.now))) }
{
    match schema.find_constant(text) {
        Some(number) => Ok(typed_constant(schema, number)),
        None => match schema.typeside.open_type {
            Some(kind) => Ok(Some((
                Term::Typ(TypeTerm::Const(Con::Open(text.clone()?))),
                Sort::Plain(kind),
            ))),
            None => Ok(None),
        },
    }
}

/// The function of these arguments, with its type.
fn typed_function(number: u32, kind: u32, args: Option<Seq<TypeTerm>>) -> Option<(Term, Sort)>
    ensures { result ≡ option_map (λ made. (Term.Typ (TypeTerm.Fun number made), Sort.Plain kind)) args }
{
    match args {
        Some(args) => Some((Term::Typ(TypeTerm::Fun(number, args)), Sort::Plain(kind))),
        None => None,
    }
}

/// The foreign key of the term of this entity, with the entity that it leads to.
fn typed_key(
    alloc: Global,
    schema: &Schema,
    number: u32,
    made: Option<(EntTerm, u32)>,
) -> Result<Option<(Term, Sort)>, AllocError>
    ensures { IfOk result (λ found. found ≡ option_and_then (λ m. option_map
        (λ target. (Term.Ent (extended m.0 (number ∷ [])), Sort.Entity target))
        (followed (slice_get schema.now.keys number) m.1)) made) }
{
    match made {
        Some((term, entity)) => match edge_target(schema.keys.as_slice(), number, Some(entity)) {
            Some(target) => Ok(Some((
                Term::Ent(with_key(alloc, &term, number)?),
                Sort::Entity(target),
            ))),
            None => Ok(None),
        },
        None => Ok(None),
    }
}

/// The attribute of the term of this entity, with its type.
fn typed_attribute(
    schema: &Schema,
    number: u32,
    made: Option<(EntTerm, u32)>,
) -> Option<(Term, Sort)>
    ensures { result ≡ option_and_then (λ m. option_map
        (λ target. (Term.Typ (TypeTerm.Att number m.0), Sort.Plain target))
        (followed (slice_get schema.now.attributes number) m.1)) made }
{
    match made {
        Some((term, entity)) => {
            match edge_target(schema.attributes.as_slice(), number, Some(entity)) {
                Some(target) => Some((Term::Typ(TypeTerm::Att(number, term)), Sort::Plain(target))),
                None => None,
            }
        }
        None => None,
    }
}

/// The term of an entity, with the entity.
fn of_entity(made: Option<(Term, Sort)>) -> Option<(EntTerm, u32)>
    ensures { result ≡ option_and_then (λ m. option_map (λ entity. (entity_term_in m.0, entity))
        (entity_in (Some m.1))) made }
{
    match made {
        Some((term, sort)) => match entity_of_sort(Some(sort)) {
            Some(entity) => Some((entity_term(term), entity)),
            None => None,
        },
        None => None,
    }
}

/// The term, where it is of this type.
fn of_type(made: Option<(Term, Sort)>, kind: u32) -> Option<TypeTerm>
    ensures { result ≡ option_and_then (λ m. (if is_plain_of (Some m.1) kind then Some (type_term_in m.0)
        else None)) made }
{
    match made {
        Some((term, sort)) => {
            if is_plain_sort(Some(sort), kind) {
                Some(type_term(term))
            } else {
                None
            }
        }
        None => None,
    }
}

/// The term with its sort, where its names, counts and sorts are right.
#[cycle(typed)]
pub(crate) fn typed_term(
    alloc: Global,
    schema: &Schema,
    names: &Names,
    sorts: &[Sort],
    raw: &Raw,
) -> Result<Option<(Term, Sort)>, AllocError>
    ensures { IfOk result (λ found. found ≡ option_map (λ sort. (resolved schema.now names.now sorts.now raw.now, sort))
        (raw_sort schema.now names.now sorts.now raw.now)) }
{
    match raw {
        Raw::Word(name) => Ok(typed_word(schema, sorts, names.find(name), name)),
        Raw::Text(text) => typed_text(schema, text),
        Raw::App(name, args) => {
            typed_application(alloc, schema, names, sorts, name, args.as_slice())
        }
    }
}

#[cycle(typed)]
fn typed_application(
    alloc: Global,
    schema: &Schema,
    names: &Names,
    sorts: &[Sort],
    name: &Name,
    args: &[Raw],
) -> Result<Option<(Term, Sort)>, AllocError>
    ensures { IfOk result (λ found. found ≡ option_map
        (λ sort. (
          symbol_term (symbol_of schema.now name.now) (map (resolved schema.now names.now sorts.now) args.now),
          sort,
        ))
        (symbol_sort schema.now (symbol_of schema.now name.now)
        (map (raw_sort schema.now names.now sorts.now) args.now))) }
{
    match schema.find_symbol(name) {
        Some(Symbol::Function(number)) => {
            let functions = schema.typeside.functions.as_slice();
            match functions.get(number as usize) {
                Some(function) => {
                    let types = function.args.as_slice();
                    let made = typed_args(alloc, schema, names, sorts, args, types)?;
                    Ok(typed_function(number, function.result, made))
                }
                None => Ok(None),
            }
        }
        Some(Symbol::Key(number)) => {
            let made = typed_only(alloc, schema, names, sorts, args)?;
            typed_key(alloc, schema, number, made)
        }
        Some(Symbol::Attribute(number)) => {
            let made = typed_only(alloc, schema, names, sorts, args)?;
            Ok(typed_attribute(schema, number, made))
        }
        None => Ok(None),
    }
}

/// The one argument with its entity.
#[cycle(typed)]
fn typed_only(
    alloc: Global,
    schema: &Schema,
    names: &Names,
    sorts: &[Sort],
    args: &[Raw],
) -> Result<Option<(EntTerm, u32)>, AllocError>
    ensures { IfOk result (λ found. found ≡ option_map
        (λ entity. (first_entity_term (map (resolved schema.now names.now sorts.now) args.now), entity))
        (entity_in (only (map (raw_sort schema.now names.now sorts.now) args.now)))) }
{
    let [arg] = args else { return Ok(None) };
    let made = typed_term(alloc, schema, names, sorts, arg)?;
    Ok(of_entity(made))
}

/// The arguments, where they have these types.
#[cycle(typed)]
fn typed_args(
    alloc: Global,
    schema: &Schema,
    names: &Names,
    sorts: &[Sort],
    args: &[Raw],
    types: &[u32],
) -> Result<Option<Seq<TypeTerm>>, AllocError>
    ensures { IfOk result (λ found. found ≡
        (if are_plain_of (map (raw_sort schema.now names.now sorts.now) args.now) types.now
        then Some (map type_term_in (map (resolved schema.now names.now sorts.now) args.now)) else None)) }
{
    if args.len() != types.len() {
        return Ok(None);
    }
    let mut terms = Vec::with_capacity(alloc, args.len())?;
    for (i, arg) in args.iter().enumerate() {
        let made = typed_term(alloc, schema, names, sorts, arg)?;
        let Some(term) = of_type(made, types[i]) else {
            return Ok(None);
        };
        terms.push(term)?;
    }
    Ok(Some(Seq::from_vec(terms)))
}
