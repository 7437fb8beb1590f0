//! What no clause gives.
ghost use Rattle.std.specs.Prelude.{ℕ, List, ◌≡◌, ◌<◌, ◌⊎◌, IfOk, IfErr, Some, None, length, map, option_copied};
ghost use Rattle.std.specs.Prelude.{slice_get};
ghost use Rattle.std.specs.List.{list_any};
ghost use Rattle.cq_theory.specs.Beginnings.{AreBeginningsOf};
ghost use Rattle.cq_theory.specs.Canonical.{below};
ghost use Rattle.cq_theory.specs.Resolve.{or_else};
ghost use Rattle.cq_blocks.specs.Assigned.{IsAssigned};
ghost use Rattle.cq_blocks.specs.Index.{IsIndex};
ghost use Rattle.cq_blocks.specs.Blocks.{is_attribute as is_the_attribute, is_key as is_the_key};
ghost use Rattle.cq_blocks.specs.Blocks.{attribute_given as given_attribute, key_given as given_key};
ghost use Rattle.cq_blocks.specs.Blocks.{assigned_given as given_assigned, first_of, missing_attribute, missing_key};
ghost use Rattle.cq_blocks.specs.Blocks.{missing_variable, missing_variables, missing_attributes, missing_keys};
ghost use Rattle.cq_blocks.specs.Blocks.{missing_assigned, missing_in, missing_at, missing_part};

use crate::assigned::{Assigned, find_assigned, make_assigned};
use crate::index::{Index, find_attribute, has_key};
use crate::making::Making;
use crate::parts::Clause;
use crate::scopes::Scope;
use cq_base::{Name, Raw};
use cq_theory::lookup::missing;
use cq_theory::{ArrowRefusal, Beginnings, Schema, Symbol};
use std::alloc::Global;

fn is_attribute(attribute: u32, symbol: Option<Symbol>) -> bool
    ensures { result ≡ is_the_attribute attribute symbol }
{
    match symbol {
        Some(Symbol::Attribute(number)) => number == attribute,
        Some(Symbol::Key(_)) => false,
        Some(Symbol::Function(_)) => false,
        None => false,
    }
}

pub(crate) fn is_key(key: u32, symbol: Option<Symbol>) -> bool
    ensures { result ≡ is_the_key key symbol }
{
    match symbol {
        Some(Symbol::Key(number)) => number == key,
        Some(Symbol::Attribute(_)) => false,
        Some(Symbol::Function(_)) => false,
        None => false,
    }
}

/// The term that a clause gives to the attribute.
pub(crate) fn attribute_given<'a>(
    target: &Schema,
    attribute: u32,
    part: &'a Clause,
) -> Option<&'a Raw>
    ensures { option_copied result ≡ given_attribute target.now attribute part.now }
{
    match part {
        Clause::Test(_, _) => None,
        Clause::Att(name, raw) => {
            if is_attribute(attribute, target.find_symbol(name)) {
                Some(raw)
            } else {
                None
            }
        }
        Clause::Key(_) => None,
        Clause::Assign(_, _, _) => None,
    }
}

/// Whether a clause is that of the foreign key.
pub(crate) fn key_given(target: &Schema, key: u32, part: &Clause) -> bool
    ensures { result ≡ given_key target.now key part.now }
{
    match part {
        Clause::Test(_, _) => false,
        Clause::Att(_, _) => false,
        Clause::Key(name) => is_key(key, target.find_symbol(name)),
        Clause::Assign(_, _, _) => false,
    }
}

/// The term that a clause assigns to the variable for the foreign key.
pub(crate) fn assigned_given<'a>(
    target: &Schema,
    key: u32,
    variable: &Name,
    part: &'a Clause,
) -> Option<&'a Raw>
    ensures { option_copied result ≡ given_assigned target.now key variable.now part.now }
{
    match part {
        Clause::Test(_, _) => None,
        Clause::Att(_, _) => None,
        Clause::Key(_) => None,
        Clause::Assign(name, other, raw) => {
            if is_key(key, target.find_symbol(name)) && *variable == *other {
                Some(raw)
            } else {
                None
            }
        }
    }
}

fn check_attribute(
    target: &Schema,
    clauses: &[(u32, Clause)],
    index: &Index,
    attribute: u32,
) -> Result<(), ArrowRefusal>
    requires index { IsIndex target.now clauses.now index.now }
    ensures accepted { IfOk result (λ _. missing_attribute target.now clauses.now attribute
        (slice_get target.now.attributes attribute) ≡ None) }
    ensures refused { IfErr result (λ refusal. (refusal ≡ ArrowRefusal.Memory)
        ⊎ (missing_attribute target.now clauses.now attribute (slice_get target.now.attributes attribute)
        ≡ Some refusal)) }
{
    let Some(edge) = target.attributes.as_slice().get(attribute as usize) else {
        return Ok(());
    };
    if find_attribute(target, clauses, index, attribute).is_none() {
        return Err(missing(&edge.name));
    }
    Ok(())
}

fn check_key(
    target: &Schema,
    clauses: &[(u32, Clause)],
    index: &Index,
    key: u32,
) -> Result<(), ArrowRefusal>
    requires index { IsIndex target.now clauses.now index.now }
    ensures accepted { IfOk result (λ _. missing_key target.now clauses.now key
        (slice_get target.now.keys key) ≡ None) }
    ensures refused { IfErr result (λ refusal. (refusal ≡ ArrowRefusal.Memory)
        ⊎ (missing_key target.now clauses.now key (slice_get target.now.keys key) ≡ Some refusal)) }
{
    let Some(edge) = target.keys.as_slice().get(key as usize) else {
        return Ok(());
    };
    if !has_key(target, clauses, index, key) {
        return Err(missing(&edge.name));
    }
    Ok(())
}

/// Whether the foreign key assigns a term to each of the variables.
fn check_variables(
    target: &Schema,
    clauses: &[(u32, Clause)],
    assigned: &Assigned,
    key: u32,
    vars: &[(Name, u32)],
) -> Result<(), ArrowRefusal>
    requires { IsAssigned target.now clauses.now key assigned.now }
    ensures accepted { IfOk result (λ _. first_of (missing_variable target.now clauses.now key) vars.now ≡ None) }
    ensures refused { IfErr result (λ refusal. (refusal ≡ ArrowRefusal.Memory)
        ⊎ (first_of (missing_variable target.now clauses.now key) vars.now ≡ Some refusal)) }
{
    for var in vars {
        if find_assigned(target, clauses, assigned, key, &var.0).is_none() {
            return Err(missing(&var.0));
        }
    }
    Ok(())
}

/// The same, where the assignments are still to be found.
fn check_variables_of(
    alloc: Global,
    target: &Schema,
    clauses: &[(u32, Clause)],
    index: &Index,
    key: u32,
    vars: &[(Name, u32)],
) -> Result<(), ArrowRefusal>
    requires index { IsIndex target.now clauses.now index.now }
    requires key { key < length target.now.keys }
    ensures accepted { IfOk result (λ _. first_of (missing_variable target.now clauses.now key) vars.now ≡ None) }
    ensures refused { IfErr result (λ refusal. (refusal ≡ ArrowRefusal.Memory)
        ⊎ (first_of (missing_variable target.now clauses.now key) vars.now ≡ Some refusal)) }
{
    let assigned = make_assigned(alloc, target, clauses, index, key)?;
    check_variables(target, clauses, &assigned, key, vars)
}

fn check_assigned(
    alloc: Global,
    target: &Schema,
    scopes: &[Scope],
    clauses: &[(u32, Clause)],
    index: &Index,
    key: u32,
) -> Result<(), ArrowRefusal>
    requires index { IsIndex target.now clauses.now index.now }
    ensures accepted { IfOk result (λ _. missing_variables target.now scopes.now clauses.now key
        (slice_get target.now.keys key) ≡ None) }
    ensures refused { IfErr result (λ refusal. (refusal ≡ ArrowRefusal.Memory)
        ⊎ (missing_variables target.now scopes.now clauses.now key (slice_get target.now.keys key) ≡ Some refusal)) }
{
    let Some(edge) = target.keys.as_slice().get(key as usize) else {
        return Ok(());
    };
    match scopes.get(edge.to as usize) {
        Some(scope) => check_variables_of(alloc, target, clauses, index, key, scope.vars()),
        None => Ok(()),
    }
}

fn check_attributes(
    target: &Schema,
    clauses: &[(u32, Clause)],
    index: &Index,
    attributes: &[u32],
) -> Result<(), ArrowRefusal>
    requires index { IsIndex target.now clauses.now index.now }
    ensures accepted { IfOk result (λ _. missing_attributes target.now clauses.now attributes.now ≡ None) }
    ensures refused { IfErr result (λ refusal. (refusal ≡ ArrowRefusal.Memory)
        ⊎ (missing_attributes target.now clauses.now attributes.now ≡ Some refusal)) }
{
    for attribute in attributes {
        check_attribute(target, clauses, index, *attribute)?;
    }
    Ok(())
}

fn check_keys(
    target: &Schema,
    clauses: &[(u32, Clause)],
    index: &Index,
    keys: &[u32],
) -> Result<(), ArrowRefusal>
    requires index { IsIndex target.now clauses.now index.now }
    ensures accepted { IfOk result (λ _. missing_keys target.now clauses.now keys.now ≡ None) }
    ensures refused { IfErr result (λ refusal. (refusal ≡ ArrowRefusal.Memory)
        ⊎ (missing_keys target.now clauses.now keys.now ≡ Some refusal)) }
{
    for key in keys {
        check_key(target, clauses, index, *key)?;
    }
    Ok(())
}

/// Whether the foreign keys assign a term to each variable of the blocks to which they lead.
fn check_all_assigned(
    alloc: Global,
    target: &Schema,
    scopes: &[Scope],
    clauses: &[(u32, Clause)],
    index: &Index,
    keys: &[u32],
) -> Result<(), ArrowRefusal>
    requires index { IsIndex target.now clauses.now index.now }
    ensures accepted { IfOk result (λ _. missing_assigned target.now scopes.now clauses.now keys.now ≡ None) }
    ensures refused { IfErr result (λ refusal. (refusal ≡ ArrowRefusal.Memory)
        ⊎ (missing_assigned target.now scopes.now clauses.now keys.now ≡ Some refusal)) }
{
    for key in keys {
        check_assigned(alloc, target, scopes, clauses, index, *key)?;
    }
    Ok(())
}

/// Whether the attributes and foreign keys of an entity are given whole.
fn check_entity(
    alloc: Global,
    making: &Making,
    index: &Index,
    beginnings: &Beginnings,
    entity: u32,
) -> Result<(), ArrowRefusal>
    requires index { IsIndex making.now.target.now making.now.clauses.now index.now }
    requires beginnings { AreBeginningsOf making.now.target.now beginnings.now }
    requires entity { entity < length making.now.target.now.entities }
    ensures accepted { IfOk result (λ _. missing_at
        making.now.target.now making.now.scopes.now making.now.clauses.now entity ≡ None) }
    ensures refused { IfErr result (λ refusal. (refusal ≡ ArrowRefusal.Memory)
        ⊎ (missing_at making.now.target.now making.now.scopes.now making.now.clauses.now entity ≡ Some refusal)) }
{
    let attributes = beginnings.attributes.of(entity);
    let keys = beginnings.keys.of(entity);
    check_lists(alloc, making, index, attributes, keys)
}

/// Whether these attributes and foreign keys are given whole.
#[tactic(auto, unfolding(crate::specs::Blocks::missing_in))]
fn check_lists(
    alloc: Global,
    making: &Making,
    index: &Index,
    attributes: &[u32],
    keys: &[u32],
) -> Result<(), ArrowRefusal>
    requires index { IsIndex making.now.target.now making.now.clauses.now index.now }
    ensures accepted { IfOk result (λ _. missing_in
        making.now.target.now making.now.scopes.now making.now.clauses.now attributes.now keys.now ≡ None) }
    ensures refused { IfErr result (λ refusal. (refusal ≡ ArrowRefusal.Memory)
        ⊎ (missing_in making.now.target.now making.now.scopes.now making.now.clauses.now
        attributes.now keys.now ≡ Some refusal)) }
{
    check_attributes(making.target, making.clauses, index, attributes)?;
    check_keys(making.target, making.clauses, index, keys)?;
    check_all_assigned(
        alloc,
        making.target,
        making.scopes,
        making.clauses,
        index,
        keys,
    )
}

/// Whether the attributes and foreign keys of each entity are given whole.
pub(crate) fn check_missing(
    alloc: Global,
    making: &Making,
    index: &Index,
    beginnings: &Beginnings,
) -> Result<(), ArrowRefusal>
    requires index { IsIndex making.now.target.now making.now.clauses.now index.now }
    requires beginnings { AreBeginningsOf making.now.target.now beginnings.now }
    ensures accepted { IfOk result (λ _. missing_part
        making.now.target.now making.now.scopes.now making.now.clauses.now ≡ None) }
    ensures refused { IfErr result (λ refusal. (refusal ≡ ArrowRefusal.Memory)
        ⊎ (missing_part making.now.target.now making.now.scopes.now making.now.clauses.now ≡ Some refusal)) }
{
    let target = making.target;
    target.is_well_sorted();
    for entity in 0..target.entities.len() as u32 {
        check_entity(alloc, making, index, beginnings, entity)?;
    }
    Ok(())
}
