//! Paths with their names looked up.
ghost use Rattle.std.specs.Prelude.{◌≡◌, ◌-◌, Some, IfOk, IfErr, IfSome, IfNone, length, nat_lt, take};
ghost use Rattle.cq_theory.specs.Routes.{path_attribute as attribute_of_path, is_at, start_before as begins_before};
ghost use Rattle.cq_theory.specs.Routes.{entity_ends as ends_at_entity, attribute_ends as ends_at_attribute};
ghost use Rattle.cq_theory.specs.Routes.{path_ends as ends_of, path_symbols, path_fault as fault_of_path};
ghost use Rattle.cq_theory.specs.Routes.{ends_or_first, routed};

use crate::lookup::paths::{count_keys, has_unknown_name, path_end, path_keys, path_start};
use crate::presentation::Sort;
use crate::refusal::TermRefusal;
use crate::schema::{Edge, Schema};
use cq_base::{Name, Seq};
use std::alloc::{AllocError, Global};

/// A path: the entity where it begins, its foreign keys, the attribute in its last place if there is one,
/// and the sort where it ends.
#[derive(Drop)]
pub struct Route {
    pub start: u32,
    pub keys: Seq<u32>,
    pub attribute: Option<u32>,
    pub end: Sort,
}

/// The path with its names looked up. The name of a foreign key is that key, and in the last place the name of an
/// attribute is that attribute; any other entity's name stands where that entity has been reached, or first.
pub fn resolve_path(alloc: Global, schema: &Schema, names: &[Name]) -> Result<Route, TermRefusal>
    // Where the path breaks a rule, the least such rule is answered.
    ensures broken { IfSome (fault_of_path schema.now names.now) (λ rule. result ≡ Err rule) }
    ensures route { IfOk result (λ route. route ≡ routed schema.now names.now) }
    ensures memory { IfNone (fault_of_path schema.now names.now)
        (IfErr result (λ refusal. refusal ≡ TermRefusal.Memory)) }
{
    match path_fault(schema, names) {
        Some(rule) => Err(rule),
        None => {
            let route = build_route(alloc, schema, names)?;
            Ok(route)
        }
    }
}

/// The attribute in the last place of a path.
pub fn path_attribute(schema: &Schema, names: &[Name]) -> Option<u32>
    ensures { result ≡ attribute_of_path schema.now names.now }
{
    match names.last() {
        Some(name) => {
            if schema.find_key(name).is_some() {
                None
            } else {
                schema.find_attribute(name)
            }
        }
        None => None,
    }
}

fn is_at_entity(entity: u32, reached: Option<u32>) -> bool
    ensures { result ≡ is_at entity reached }
{
    match reached {
        Some(reached) => reached == entity,
        None => false,
    }
}

/// Where a path begins that goes on to an attribute of the entity.
fn start_before(schema: &Schema, entity: u32, names: &[Name]) -> Option<u32>
    ensures { result ≡ begins_before schema.now entity names.now }
{
    if names.is_empty() {
        Some(entity)
    } else {
        path_start(schema, names)
    }
}

fn entity_ends(schema: &Schema, names: &[Name]) -> Option<(u32, Sort)>
    ensures { result ≡ ends_at_entity schema.now names.now }
{
    let start = path_start(schema, names)?;
    let end = path_end(schema, names, start)?;
    Some((start, Sort::Entity(end)))
}

fn attribute_ends(schema: &Schema, attribute: &Edge, before: &[Name]) -> Option<(u32, Sort)>
    ensures { result ≡ ends_at_attribute schema.now (Some attribute.now) before.now }
{
    let start = start_before(schema, attribute.from, before)?;
    if is_at_entity(attribute.from, path_end(schema, before, start)) {
        Some((start, Sort::Plain(attribute.to)))
    } else {
        None
    }
}

/// Where a path begins and the sort where it ends, if its names can stand where they do.
pub fn path_ends(schema: &Schema, names: &[Name]) -> Option<(u32, Sort)>
    ensures { result ≡ ends_of schema.now names.now }
{
    match path_attribute(schema, names) {
        Some(attribute) => {
            let edge = schema.attributes.as_slice().get(attribute as usize)?;
            attribute_ends(schema, edge, all_but_last(names))
        }
        None => entity_ends(schema, names),
    }
}

fn all_but_last(names: &[Name]) -> &[Name]
    ensures { result.now ≡ take (length names.now - 1) names.now }
{
    let (before, _) = names.split_at(names.len().saturating_sub(1));
    before
}

/// Whether the path has over 1,024 symbols.
pub fn is_long(schema: &Schema, names: &[Name]) -> bool
    ensures { result ≡ nat_lt 1024 (path_symbols schema.now names.now) }
{
    if path_attribute(schema, names).is_some() {
        count_keys(schema, names) >= 1023
    } else {
        count_keys(schema, names) >= 1024
    }
}

/// The least rule that the path breaks.
fn path_fault(schema: &Schema, names: &[Name]) -> Option<TermRefusal>
    ensures { result ≡ fault_of_path schema.now names.now }
{
    if has_unknown_name(schema, schema.attribute_names(), names) {
        Some(TermRefusal::Unknown)
    } else if path_ends(schema, names).is_none() {
        Some(TermRefusal::WrongSort)
    } else if is_long(schema, names) {
        Some(TermRefusal::TooLarge)
    } else {
        None
    }
}

fn ends_or(ends: Option<(u32, Sort)>) -> (u32, Sort)
    ensures { result ≡ ends_or_first ends }
{
    match ends {
        Some(ends) => ends,
        None => (0, Sort::Entity(0)),
    }
}

/// The path, whose ends are there where it breaks no rule.
fn build_route(alloc: Global, schema: &Schema, names: &[Name]) -> Result<Route, AllocError>
    ensures { IfOk result (λ route. route ≡ routed schema.now names.now) }
{
    let keys = path_keys(alloc, schema, names)?;
    let (start, end) = ends_or(path_ends(schema, names));
    Ok(Route {
        start,
        keys: Seq::from_vec(keys),
        attribute: path_attribute(schema, names),
        end,
    })
}
