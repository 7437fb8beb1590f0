//! Clauses by the attribute or foreign key to which they give something.
ghost use Rattle.std.specs.Prelude.{◌≡◌, ◌+◌, ◌<◌, ◌≤◌, ◌^◌, All, IfOk, length, map, option_copied};
ghost use Rattle.std.specs.List.{list_any};
ghost use Rattle.cq_theory.specs.Groups.{AreGroups};
ghost use Rattle.cq_blocks.specs.Blocks.{first_of, attribute_given as given_attribute, key_given as given_key};
ghost use Rattle.cq_blocks.specs.Blocks.{attribute_in, has_key as key_there};
ghost use Rattle.cq_blocks.specs.Index.{IsIndex, at_place, is_at_place, attribute_number as number_of_attribute};
ghost use Rattle.cq_blocks.specs.Index.{key_number as number_of_key, attribute_owner as owner_attribute};
ghost use Rattle.cq_blocks.specs.Index.{key_owner as owner_key};

use crate::missing::{attribute_given, key_given};
use crate::parts::Clause;
use cq_base::Raw;
use cq_theory::{Groups, Schema, Symbol};
use std::alloc::{AllocError, Global};

/// The places of the clauses of each attribute and of each foreign key of the target.
pub(crate) struct Index {
    pub attributes: Groups,
    pub keys: Groups,
}

impl Drop for Index {
    fn drop(self) {
        let Self {
            attributes: _,
            keys: _,
        } = self;
    }
}

/// The number of an attribute, or `none`.
fn attribute_number(none: u32, symbol: Option<Symbol>) -> u32
    ensures { result ≡ number_of_attribute none symbol }
{
    match symbol {
        Some(Symbol::Attribute(attribute)) => attribute,
        Some(Symbol::Key(_)) => none,
        Some(Symbol::Function(_)) => none,
        None => none,
    }
}

/// The number of a foreign key, or `none`.
fn key_number(none: u32, symbol: Option<Symbol>) -> u32
    ensures { result ≡ number_of_key none symbol }
{
    match symbol {
        Some(Symbol::Key(key)) => key,
        Some(Symbol::Attribute(_)) => none,
        Some(Symbol::Function(_)) => none,
        None => none,
    }
}

fn attribute_owner(target: &Schema, none: u32, part: &Clause) -> u32
    ensures { result ≡ owner_attribute target.now none part.now }
{
    match part {
        Clause::Test(_, _) => none,
        Clause::Att(name, _) => attribute_number(none, target.find_symbol(name)),
        Clause::Key(_) => none,
        Clause::Assign(_, _, _) => none,
    }
}

fn key_owner(target: &Schema, none: u32, part: &Clause) -> u32
    ensures { result ≡ owner_key target.now none part.now }
{
    match part {
        Clause::Test(_, _) => none,
        Clause::Att(_, _) => none,
        Clause::Key(name) => key_number(none, target.find_symbol(name)),
        Clause::Assign(key, _, _) => key_number(none, target.find_symbol(key)),
    }
}

fn attribute_owners(
    alloc: Global,
    target: &Schema,
    none: u32,
    clauses: &[(u32, Clause)],
) -> Result<Vec<u32>, AllocError>
    ensures { IfOk result (λ owners. owners.items ≡ map (λ c. owner_attribute target.now none c.1) clauses.now) }
{
    let mut owners = Vec::new(alloc);
    for part in clauses {
        owners.push(attribute_owner(target, none, &part.1))?;
    }
    Ok(owners)
}

fn key_owners(
    alloc: Global,
    target: &Schema,
    none: u32,
    clauses: &[(u32, Clause)],
) -> Result<Vec<u32>, AllocError>
    ensures { IfOk result (λ owners. owners.items ≡ map (λ c. owner_key target.now none c.1) clauses.now) }
{
    let mut owners = Vec::new(alloc);
    for part in clauses {
        owners.push(key_owner(target, none, &part.1))?;
    }
    Ok(owners)
}

/// The term that the clause at one of these places gives to the attribute.
pub(crate) fn attribute_among<'a>(
    target: &Schema,
    clauses: &'a [(u32, Clause)],
    places: &[u32],
    attribute: u32,
) -> Option<&'a Raw>
    ensures { option_copied result ≡ first_of (at_place (λ part. given_attribute target.now attribute part.1)
        clauses.now) places.now }
{
    for place in places {
        let found = attribute_at(target, clauses, *place, attribute);
        if found.is_some() {
            return found;
        }
    }
    None
}

fn attribute_at<'a>(
    target: &Schema,
    clauses: &'a [(u32, Clause)],
    place: u32,
    attribute: u32,
) -> Option<&'a Raw>
    ensures { option_copied result ≡ at_place (λ part. given_attribute target.now attribute part.1) clauses.now place }
{
    match clauses.get(place as usize) {
        Some(part) => attribute_given(target, attribute, &part.1),
        None => None,
    }
}

/// Whether the clause at one of these places is that of the foreign key.
fn is_key_among(target: &Schema, clauses: &[(u32, Clause)], places: &[u32], key: u32) -> bool
    ensures { result ≡ list_any (is_at_place (λ part. given_key target.now key part.1) clauses.now) places.now }
{
    for place in places {
        if is_key_at(target, clauses, *place, key) {
            return true;
        }
    }
    false
}

fn is_key_at(target: &Schema, clauses: &[(u32, Clause)], place: u32, key: u32) -> bool
    ensures { result ≡ is_at_place (λ part. given_key target.now key part.1) clauses.now place }
{
    match clauses.get(place as usize) {
        Some(part) => key_given(target, key, &part.1),
        None => false,
    }
}

/// The term of an attribute.
pub(crate) fn find_attribute<'a>(
    target: &Schema,
    clauses: &'a [(u32, Clause)],
    index: &Index,
    attribute: u32,
) -> Option<&'a Raw>
    requires index { IsIndex target.now clauses.now index.now }
    requires attribute { attribute < length target.now.attributes }
    ensures { option_copied result ≡ attribute_in target.now clauses.now attribute }
{
    let places = index.attributes.of(attribute);
    attribute_among(target, clauses, places, attribute)
}

pub(crate) fn has_key(target: &Schema, clauses: &[(u32, Clause)], index: &Index, key: u32) -> bool
    requires index { IsIndex target.now clauses.now index.now }
    requires key { key < length target.now.keys }
    ensures { result ≡ key_there target.now clauses.now key }
{
    let places = index.keys.of(key);
    is_key_among(target, clauses, places, key)
}

fn index_attributes(
    alloc: Global,
    target: &Schema,
    clauses: &[(u32, Clause)],
) -> Result<Groups, AllocError>
    ensures { IfOk result (λ made. AreGroups (map (λ c. owner_attribute target.now (length target.now.attributes) c.1)
        clauses.now) (length target.now.attributes + 1) made) }
{
    target.is_well_sorted();
    let count = target.attributes.len();
    let owners = attribute_owners(alloc, target, count as u32, clauses)?;
    let groups = Groups::new(alloc, count + 1, owners.as_slice())?;
    Ok(groups)
}

fn index_keys(
    alloc: Global,
    target: &Schema,
    clauses: &[(u32, Clause)],
) -> Result<Groups, AllocError>
    ensures { IfOk result (λ made. AreGroups (map (λ c. owner_key target.now (length target.now.keys) c.1) clauses.now)
        (length target.now.keys + 1) made) }
{
    target.is_well_sorted();
    let count = target.keys.len();
    let owners = key_owners(alloc, target, count as u32, clauses)?;
    let groups = Groups::new(alloc, count + 1, owners.as_slice())?;
    Ok(groups)
}

/// The places of the clauses.
pub(crate) fn make_index(
    alloc: Global,
    target: &Schema,
    clauses: &[(u32, Clause)],
) -> Result<Index, AllocError>
    ensures { IfOk result (λ made. IsIndex target.now clauses.now made) }
{
    let attributes = index_attributes(alloc, target, clauses)?;
    let keys = index_keys(alloc, target, clauses)?;
    Ok(Index { attributes, keys })
}
