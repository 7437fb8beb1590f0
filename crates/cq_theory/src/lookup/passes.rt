//! The rules of a term, one pass for each.
ghost use Rattle.std.specs.Prelude.{◌≡◌, ◌||◌, is_none, map, length, IfSome, Some, None, option_map};
ghost use Rattle.std.specs.Prelude.{option_and_then, slice_get, if◌then◌else◌};
ghost use Rattle.std.specs.List.{list_any};
ghost use Rattle.cq_theory.specs.declared.presentation.Sort.TheVariants.{Plain, Entity};
ghost use Rattle.cq_theory.specs.Sorts.{followed};
ghost use Rattle.cq_theory.specs.Resolve.{constant_of, text_constant, symbol_of, has_unknown as unknown_in};
ghost use Rattle.cq_theory.specs.Resolve.{has_wrong_count as wrong_count_in, has_reserved as reserved_in};
ghost use Rattle.cq_theory.specs.Resolve.{takes_another_count, IsSymbol, raw_sort as raw_sort_of, constant_sort};
ghost use Rattle.cq_theory.specs.Resolve.{text_sort, word_sort, symbol_sort, is_plain_of, are_plain_of, entity_in};
ghost use Rattle.cq_theory.specs.Resolve.{type_in, only};

use crate::constant::is_reserved;
use crate::lookup::Symbol;
use crate::presentation::Sort;
use crate::schema::{Edge, Schema};
use cq_base::{Name, Names, Raw};

/// Whether a name of the term isn't declared.
#[cycle(unknown)]
pub fn has_unknown(schema: &Schema, names: &Names, raw: &Raw) -> bool
    ensures { result ≡ unknown_in schema.now names.now raw.now }
{
    match raw {
        Raw::Word(name) => names.find(name).is_none() && schema.find_constant(name).is_none(),
        Raw::Text(text) => is_unknown_text(schema, text),
        Raw::App(name, args) => has_unknown_part(schema, names, name, args.as_slice()),
    }
}

/// Whether a text is no constant: none is declared with this content, and there is no open type.
fn is_unknown_text(schema: &Schema, text: &Name) -> bool
    ensures { result ≡ is_none (text_constant schema.now text.now) }
{
    match schema.find_constant(text) {
        Some(_) => false,
        None => schema.typeside.open_type.is_none(),
    }
}

#[cycle(unknown)]
fn has_unknown_part(schema: &Schema, names: &Names, name: &Name, args: &[Raw]) -> bool
    ensures { result ≡ (is_none (symbol_of schema.now name.now)
        || list_any (λ b. b) (map (unknown_in schema.now names.now) args.now)) }
{
    if schema.find_symbol(name).is_none() {
        return true;
    }
    for arg in args {
        if has_unknown(schema, names, arg) {
            return true;
        }
    }
    false
}

/// Whether a symbol of the term is applied to another number of arguments than it has.
#[cycle(count)]
pub fn has_wrong_count(schema: &Schema, raw: &Raw) -> bool
    ensures { result ≡ wrong_count_in schema.now raw.now }
{
    match raw {
        Raw::Word(_) => false,
        Raw::Text(_) => false,
        Raw::App(name, args) => has_wrong_count_part(schema, name, args.as_slice()),
    }
}

#[cycle(count)]
fn has_wrong_count_part(schema: &Schema, name: &Name, args: &[Raw]) -> bool
    ensures { result ≡ (takes_another_count schema.now (symbol_of schema.now name.now)
        (length (map (wrong_count_in schema.now) args.now))
        || list_any (λ b. b) (map (wrong_count_in schema.now) args.now)) }
{
    if takes_other_count(schema, schema.find_symbol(name), args.len()) {
        return true;
    }
    for arg in args {
        if has_wrong_count(schema, arg) {
            return true;
        }
    }
    false
}

fn takes_other_count(schema: &Schema, symbol: Option<Symbol>, count: usize) -> bool
    requires { IfSome symbol (IsSymbol schema.now) }
    ensures { result ≡ takes_another_count schema.now symbol count }
{
    match symbol {
        Some(Symbol::Function(function)) => schema.typeside.functions.as_slice()[function as usize]
            .args
            .len()
            != count,
        Some(_) => count != 1,
        None => false,
    }
}

/// Whether a text of the term is one that no constant can have, under a typeside with an open type.
#[cycle(reserved)]
pub fn has_reserved(schema: &Schema, raw: &Raw) -> bool
    ensures { result ≡ reserved_in schema.now raw.now }
{
    match raw {
        Raw::Word(_) => false,
        Raw::Text(text) => schema.typeside.open_type.is_some() && is_reserved(text),
        Raw::App(_, args) => has_reserved_part(schema, args.as_slice()),
    }
}

#[cycle(reserved)]
fn has_reserved_part(schema: &Schema, args: &[Raw]) -> bool
    ensures { result ≡ list_any (λ b. b) (map (reserved_in schema.now) args.now) }
{
    for arg in args {
        if has_reserved(schema, arg) {
            return true;
        }
    }
    false
}

/// The sort of a declared constant.
fn sort_of_constant(schema: &Schema, constant: Option<u32>) -> Option<Sort>
    ensures { result ≡ constant_sort schema.now constant }
{
    match schema.typeside.constants.as_slice().get(constant? as usize) {
        Some(constant) => Some(Sort::Plain(constant.1)),
        None => None,
    }
}

/// The sort of a text: that of the declared constant, else the open type.
fn sort_of_text(schema: &Schema, constant: Option<u32>) -> Option<Sort>
    ensures { result ≡ text_sort schema.now constant }
{
    match constant {
        Some(_) => sort_of_constant(schema, constant),
        None => match schema.typeside.open_type {
            Some(number) => Some(Sort::Plain(number)),
            None => None,
        },
    }
}

/// The sort of a word: a generator's where one is declared, else a constant's.
fn sort_of_word(
    schema: &Schema,
    sorts: &[Sort],
    generator: Option<u32>,
    name: &Name,
) -> Option<Sort>
    ensures { result ≡ word_sort schema.now sorts.now generator (constant_of schema.now name.now) }
{
    match generator {
        Some(generator) => sorts.get(generator as usize).copied(),
        None => sort_of_constant(schema, schema.find_constant(name)),
    }
}

/// Where an edge leads from an entity.
fn followed_from(edge: &Edge, entity: u32) -> Option<u32>
    ensures { result ≡ followed (Some edge.now) entity }
{
    if edge.from == entity {
        Some(edge.to)
    } else {
        None
    }
}

/// Where the edge with this number leads from an entity.
pub(crate) fn edge_target(edges: &[Edge], number: u32, entity: Option<u32>) -> Option<u32>
    ensures { result ≡ option_and_then (followed (slice_get edges.now number)) entity }
{
    match entity {
        Some(entity) => match edges.get(number as usize) {
            Some(edge) => followed_from(edge, entity),
            None => None,
        },
        None => None,
    }
}

fn entity_sort(number: Option<u32>) -> Option<Sort>
    ensures { result ≡ option_map Entity number }
{
    match number {
        Some(number) => Some(Sort::Entity(number)),
        None => None,
    }
}

fn plain_sort(number: Option<u32>) -> Option<Sort>
    ensures { result ≡ option_map Plain number }
{
    match number {
        Some(number) => Some(Sort::Plain(number)),
        None => None,
    }
}

fn plain_where(is_plain: bool, number: u32) -> Option<Sort>
    ensures { result ≡ (if is_plain then Some (Plain number) else None) }
{
    if is_plain {
        Some(Sort::Plain(number))
    } else {
        None
    }
}

pub(crate) fn is_plain_sort(sort: Option<Sort>, expected: u32) -> bool
    ensures { result ≡ is_plain_of sort expected }
{
    match sort {
        Some(Sort::Plain(found)) => found == expected,
        Some(Sort::Entity(_)) => false,
        None => false,
    }
}

pub fn entity_of_sort(sort: Option<Sort>) -> Option<u32>
    ensures { result ≡ entity_in sort }
{
    match sort {
        Some(Sort::Entity(entity)) => Some(entity),
        Some(Sort::Plain(_)) => None,
        None => None,
    }
}

pub fn type_of_sort(sort: Option<Sort>) -> Option<u32>
    ensures { result ≡ type_in sort }
{
    match sort {
        Some(Sort::Plain(number)) => Some(number),
        Some(Sort::Entity(_)) => None,
        None => None,
    }
}

/// The sort of the term, if its names, counts and sorts are right.
#[cycle(sort)]
pub fn sort_of_raw(schema: &Schema, names: &Names, sorts: &[Sort], raw: &Raw) -> Option<Sort>
    ensures { result ≡ raw_sort_of schema.now names.now sorts.now raw.now }
{
    match raw {
        Raw::Word(name) => sort_of_word(schema, sorts, names.find(name), name),
        Raw::Text(text) => sort_of_text(schema, schema.find_constant(text)),
        Raw::App(name, args) => sort_of_application(schema, names, sorts, name, args.as_slice()),
    }
}

#[cycle(sort)]
fn sort_of_application(
    schema: &Schema,
    names: &Names,
    sorts: &[Sort],
    name: &Name,
    args: &[Raw],
) -> Option<Sort>
    ensures { result ≡ symbol_sort schema.now (symbol_of schema.now name.now)
        (map (raw_sort_of schema.now names.now sorts.now) args.now) }
{
    match schema.find_symbol(name) {
        Some(Symbol::Function(function)) => {
            let functions = schema.typeside.functions.as_slice();
            match functions.get(function as usize) {
                Some(function) => plain_where(
                    are_plain(schema, names, sorts, args, function.args.as_slice()),
                    function.result,
                ),
                None => None,
            }
        }
        Some(Symbol::Key(key)) => {
            let entity = entity_of_only(schema, names, sorts, args);
            entity_sort(edge_target(schema.keys.as_slice(), key, entity))
        }
        Some(Symbol::Attribute(attribute)) => {
            let entity = entity_of_only(schema, names, sorts, args);
            plain_sort(edge_target(schema.attributes.as_slice(), attribute, entity))
        }
        None => None,
    }
}

/// The entity of the one argument.
#[cycle(sort)]
fn entity_of_only(schema: &Schema, names: &Names, sorts: &[Sort], args: &[Raw]) -> Option<u32>
    ensures { result ≡ entity_in (only (map (raw_sort_of schema.now names.now sorts.now) args.now)) }
{
    match args {
        [arg] => entity_of_sort(sort_of_raw(schema, names, sorts, arg)),
        _ => None,
    }
}

/// Whether the arguments have these types.
#[cycle(sort)]
fn are_plain(schema: &Schema, names: &Names, sorts: &[Sort], args: &[Raw], types: &[u32]) -> bool
    ensures { result ≡ are_plain_of (map (raw_sort_of schema.now names.now sorts.now) args.now) types.now }
{
    if args.len() != types.len() {
        return false;
    }
    for (i, arg) in args.iter().enumerate() {
        if !is_plain_sort(sort_of_raw(schema, names, sorts, arg), types[i]) {
            return false;
        }
    }
    true
}
