//! Paths as they are written, and the path equations of a schema's parts.
ghost use Rattle.std.specs.Prelude.{◌≡◌, ◌+◌, ◌<◌, ◌^◌, ◌⊎◌, not, IfOk, OnOk, IfErr, Some, None, ◌++◌, ◌∷◌, [], length};
ghost use Rattle.std.specs.Prelude.{map, option_map, is_some};
ghost use Rattle.std.specs.List.{list_any};
ghost use Rattle.cq_base.specs.Names.{number_of};
ghost use Rattle.cq_theory.specs.Resolve.{first_fault, in_part};
ghost use Rattle.cq_theory.specs.Paths.{is_among, key_named, path_step as step_of, path_end as end_of};
ghost use Rattle.cq_theory.specs.Paths.{path_start as start_of, path_keys as keys_of};
ghost use Rattle.cq_theory.specs.Paths.{is_unknown_in_path as unknown_in_path, has_unknown_name as has_unknown_in_path};
ghost use Rattle.cq_theory.specs.Paths.{is_attribute_last as attribute_last, key_path_ends as ends_of, are_same_ends};
ghost use Rattle.cq_theory.specs.Paths.{key_path_symbols, path_eq_fault as fault_of_path_eq, made_path_eq};
ghost use Rattle.std.specs.Prelude.{slice_get, nat_lt, ◌-◌};

use crate::lookup::faults::in_part_of;
use crate::refusal::{TermRefusal, TheoryRefusal};
use crate::schema::{PathEq, Schema};
use cq_base::{Name, Names, Seq};
use std::alloc::{AllocError, Global};

/// The entities from which and to which the foreign key of a name goes.
fn key_step(schema: &Schema, name: &Name) -> Option<(u32, u32)>
    ensures { result ≡ option_map (λ key. (key.from, key.to)) (key_named schema.now name.now) }
{
    let key = schema.find_key(name)?;
    match schema.keys.as_slice().get(key as usize) {
        Some(key) => Some((key.from, key.to)),
        None => None,
    }
}

/// The entities from which and to which a name of a path leads.
fn path_step(schema: &Schema, name: &Name) -> Option<(u32, u32)>
    ensures { result ≡ step_of schema.now name.now }
{
    if let Some(step) = key_step(schema, name) {
        return Some(step);
    }
    match schema.find_entity(name) {
        Some(entity) => Some((entity, entity)),
        None => None,
    }
}

/// Where the names lead from an entity.
pub(crate) fn path_end(schema: &Schema, names: &[Name], entity: u32) -> Option<u32>
    ensures { result ≡ end_of schema.now names.now entity }
{
    let mut here = entity;
    for name in names {
        let step = path_step(schema, name)?;
        if step.0 != here {
            return None;
        }
        here = step.1;
    }
    Some(here)
}

/// Where a path begins.
pub(crate) fn path_start(schema: &Schema, names: &[Name]) -> Option<u32>
    ensures { result ≡ start_of schema.now names.now }
{
    match names.first() {
        Some(name) => {
            let step = path_step(schema, name)?;
            Some(step.0)
        }
        None => None,
    }
}

/// The foreign keys of a path.
pub fn path_keys(alloc: Global, schema: &Schema, names: &[Name]) -> Result<Vec<u32>, AllocError>
    ensures { IfOk result (λ keys. keys.items ≡ keys_of schema.now names.now) }
{
    let mut keys = Vec::new(alloc);
    for name in names {
        push_key(schema, name, &mut keys)?;
    }
    Ok(keys)
}

/// Adds the foreign key of a name, where the name is one.
fn push_key(schema: &Schema, name: &Name, keys: &mut Vec<u32>) -> Result<(), AllocError>
    ensures { OnOk result (keys.new.items ≡ keys.old.items ++ keys_of schema.now (name.now ∷ [])) }
{
    match schema.find_key(name) {
        Some(key) => {
            keys.push(key)?;
            Ok(())
        }
        None => Ok(()),
    }
}

/// How many foreign keys a path has.
pub(crate) fn count_keys(schema: &Schema, names: &[Name]) -> usize
    ensures { result ≡ length (keys_of schema.now names.now) }
{
    let mut count = 0;
    for name in names {
        if schema.find_key(name).is_some() {
            count += 1;
        }
    }
    count
}

/// Whether the name stands in no table of sorts or symbols, among which these attributes count.
fn is_unknown_in_path(schema: &Schema, attributes: &Names, name: &Name) -> bool
    ensures { result ≡ unknown_in_path schema.now (is_among attributes.now) name.now }
{
    !(schema.typeside.find_type(name).is_some()
        || schema.find_entity(name).is_some()
        || schema.typeside.find_function(name).is_some()
        || schema.find_key(name).is_some()
        || attributes.find(name).is_some())
}

pub fn has_unknown_name(schema: &Schema, attributes: &Names, names: &[Name]) -> bool
    ensures { result ≡ has_unknown_in_path schema.now (is_among attributes.now) names.now }
{
    names
        .iter()
        .any(|name| is_unknown_in_path(schema, attributes, name))
}

/// Whether the last name of a path is one of the attributes.
fn is_attribute_last(schema: &Schema, attributes: &Names, names: &[Name]) -> bool
    ensures { result ≡ attribute_last schema.now (is_among attributes.now)
        (slice_get names.now (length names.now - 1)) }
{
    match names.last() {
        Some(name) => !schema.find_key(name).is_some() && attributes.find(name).is_some(),
        None => false,
    }
}

/// Where a path of foreign keys begins and ends, if its names can stand where they do.
fn key_path_ends(schema: &Schema, attributes: &Names, names: &[Name]) -> Option<(u32, u32)>
    ensures { result ≡ ends_of schema.now (is_among attributes.now) names.now }
{
    if is_attribute_last(schema, attributes, names) {
        return None;
    }
    let start = path_start(schema, names)?;
    let end = path_end(schema, names, start)?;
    Some((start, end))
}

fn have_same_ends(left: Option<(u32, u32)>, right: Option<(u32, u32)>) -> bool
    ensures { result ≡ are_same_ends left right }
{
    match (left, right) {
        (Some(left), Some(right)) => left.0 == right.0 && left.1 == right.1,
        _ => false,
    }
}

/// Whether a path of foreign keys has over 1,024 symbols.
fn is_long(schema: &Schema, names: &[Name]) -> bool
    ensures { result ≡ nat_lt 1024 (key_path_symbols schema.now names.now) }
{
    count_keys(schema, names) >= 1024
}

/// The least rule that a path equation breaks.
fn path_eq_fault(
    schema: &Schema,
    attributes: &Names,
    left: &[Name],
    right: &[Name],
) -> Option<TermRefusal>
    ensures { result ≡ fault_of_path_eq schema.now (is_among attributes.now) (left.now, right.now) }
{
    if has_unknown_name(schema, attributes, left) || has_unknown_name(schema, attributes, right) {
        return Some(TermRefusal::Unknown);
    }
    if !have_same_ends(
        key_path_ends(schema, attributes, left),
        key_path_ends(schema, attributes, right),
    ) {
        return Some(TermRefusal::WrongSort);
    }
    if is_long(schema, left) || is_long(schema, right) {
        return Some(TermRefusal::TooLarge);
    }
    None
}

/// The path equation, whose start is there where it breaks no rule.
fn build_path_eq(
    alloc: Global,
    schema: &Schema,
    left: &[Name],
    right: &[Name],
) -> Result<PathEq, AllocError>
    ensures { IfOk result (λ made. made ≡ made_path_eq schema.now (left.now, right.now)) }
{
    let entity = match path_start(schema, left) {
        Some(entity) => entity,
        None => 0,
    };
    let left = path_keys(alloc, schema, left)?;
    let right = path_keys(alloc, schema, right)?;
    Ok(PathEq {
        entity,
        left: Seq::from_vec(left),
        right: Seq::from_vec(right),
    })
}

/// The path equation of a part.
fn add_path_eq(
    alloc: Global,
    schema: &Schema,
    attributes: &Names,
    part: u32,
    path_eq: &(Seq<Name>, Seq<Name>),
) -> Result<PathEq, TheoryRefusal>
    ensures ok { IfOk result (λ made. (fault_of_path_eq schema.now (is_among attributes.now) path_eq.now ≡ None)
        × (made ≡ made_path_eq schema.now path_eq.now)) }
    ensures refused { IfErr result (λ refusal. (refusal ≡ TheoryRefusal.Memory)
        ⊎ (option_map (in_part part) (fault_of_path_eq schema.now (is_among attributes.now) path_eq.now)
        ≡ Some refusal)) }
{
    let left = path_eq.0.as_slice();
    let right = path_eq.1.as_slice();
    if let Some(rule) = path_eq_fault(schema, attributes, left, right) {
        return Err(in_part_of(part, rule));
    }
    let made = build_path_eq(alloc, schema, left, right)?;
    Ok(made)
}

/// The path equations, the first of which is part `first`.
pub(crate) fn add_path_eqs(
    alloc: Global,
    schema: &Schema,
    attributes: &Names,
    first: u32,
    parts: &[(Seq<Name>, Seq<Name>)],
) -> Result<Vec<PathEq>, TheoryRefusal>
    requires { first + length parts.now < 2 ^ 32 }
    ensures accepted { IfOk result (λ _. first_fault (fault_of_path_eq schema.now (is_among attributes.now)) first
        parts.now ≡ None) }
    ensures made { IfOk result (λ made. made.items ≡ map (made_path_eq schema.now) parts.now) }
    ensures refused { IfErr result (λ refusal. (refusal ≡ TheoryRefusal.Memory)
        ⊎ (first_fault (fault_of_path_eq schema.now (is_among attributes.now)) first parts.now ≡ Some refusal)) }
{
    let mut made = Vec::new(alloc);
    let mut part = first;
    for path_eq in parts {
        let path_eq = add_path_eq(alloc, schema, attributes, part, path_eq)?;
        made.push(path_eq)?;
        part += 1;
    }
    Ok(made)
}
