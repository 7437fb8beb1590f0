//! The observation equations of a schema's parts.
ghost use Rattle.std.specs.Prelude.{◌≡◌, ◌+◌, ◌<◌, ◌^◌, ◌⊎◌, ◌∷◌, [], IfOk, IfErr, Some, None, length, map, option_map};
ghost use Rattle.cq_theory.specs.Declaring.{number_or_zero};
ghost use Rattle.cq_theory.specs.Resolve.{or_else, first_fault, in_part};
ghost use Rattle.cq_theory.specs.Resolved.{resolved, type_term_in};
ghost use Rattle.cq_theory.specs.SchemaParts.{source_of as entity_from, is_variable as variable_itself};
ghost use Rattle.cq_theory.specs.SchemaParts.{is_variable_alone as variable_alone, source_at, first_found};
ghost use Rattle.cq_theory.specs.SchemaParts.{applied_source, variable_entity as entity_of_variable};
ghost use Rattle.cq_theory.specs.SchemaParts.{is_unknown_entity as unknown_entity, are_of_one_type};
ghost use Rattle.cq_theory.specs.SchemaParts.{have_one_type as one_type, observation_fault_over, observation_fault};
ghost use Rattle.cq_theory.specs.SchemaParts.{made_observation_over, made_observation};

use crate::lookup::Symbol;
use crate::lookup::builds::{build, type_term};
use crate::lookup::faults::{in_part_of, is_too_large};
use crate::lookup::passes::{
    entity_of_sort, has_reserved, has_unknown, has_wrong_count, sort_of_raw,
};
use crate::parts::ObsPart;
use crate::presentation::Sort;
use crate::refusal::{TermRefusal, TheoryRefusal};
use crate::schema::{ObsEq, Schema};
use crate::term::TypeTerm;
use cq_base::{Name, Names, Raw};
use std::alloc::{AllocError, Global};

/// The entity from which a foreign key or an attribute goes.
fn source_of(schema: &Schema, symbol: Option<Symbol>) -> Option<u32>
    ensures { result ≡ entity_from schema.now symbol }
{
    match symbol {
        Some(Symbol::Key(key)) => {
            let edge = schema.keys.as_slice().get(key as usize)?;
            Some(edge.from)
        }
        Some(Symbol::Attribute(attribute)) => {
            let edge = schema.attributes.as_slice().get(attribute as usize)?;
            Some(edge.from)
        }
        Some(Symbol::Function(_)) => None,
        None => None,
    }
}

fn is_variable(variable: &Name, raw: &Raw) -> bool
    ensures { result ≡ variable_itself variable.now raw.now }
{
    match raw {
        Raw::Word(name) => *name == *variable,
        Raw::Text(_) => false,
        Raw::App(_, _) => false,
    }
}

/// Whether the one argument is the variable.
fn is_variable_alone(variable: &Name, args: &[Raw]) -> bool
    ensures { result ≡ variable_alone variable.now args.now }
{
    match args {
        [arg] => is_variable(variable, arg),
        _ => false,
    }
}

/// The source of the symbol of this name, where it is applied to the variable itself.
fn find_source_at(schema: &Schema, variable: &Name, name: &Name, args: &[Raw]) -> Option<u32>
    ensures { result ≡ source_at schema.now variable.now name.now args.now }
{
    if is_variable_alone(variable, args) {
        source_of(schema, schema.find_symbol(name))
    } else {
        None
    }
}

/// The source of the first foreign key or attribute that is applied to the variable itself.
#[cycle(source)]
fn find_source(schema: &Schema, variable: &Name, raw: &Raw) -> Option<u32>
    ensures { result ≡ applied_source schema.now variable.now raw.now }
{
    match raw {
        Raw::Word(_) => None,
        Raw::Text(_) => None,
        Raw::App(name, args) => find_source_in(schema, variable, name, args.as_slice()),
    }
}

#[cycle(source)]
fn find_source_in(schema: &Schema, variable: &Name, name: &Name, args: &[Raw]) -> Option<u32>
    ensures { result ≡ or_else (source_at schema.now variable.now name.now args.now)
        (first_found (map (applied_source schema.now variable.now) args.now)) }
{
    if let Some(source) = find_source_at(schema, variable, name, args) {
        return Some(source);
    }
    for arg in args {
        if let Some(source) = find_source(schema, variable, arg) {
            return Some(source);
        }
    }
    None
}

/// The entity of the variable: the stated one, else that of its first use.
fn variable_entity(schema: &Schema, part: &ObsPart) -> Option<u32>
    ensures { result ≡ entity_of_variable schema.now part.now }
{
    match &part.entity {
        Some(name) => entity_of_sort(schema.find_sort(name)),
        None => guessed_entity(schema, &part.variable, &part.left, &part.right),
    }
}

fn guessed_entity(schema: &Schema, variable: &Name, left: &Raw, right: &Raw) -> Option<u32>
    ensures { result ≡ or_else (applied_source schema.now variable.now left.now)
        (applied_source schema.now variable.now right.now) }
{
    match find_source(schema, variable, left) {
        Some(source) => Some(source),
        None => find_source(schema, variable, right),
    }
}

/// Whether an entity is stated whose name isn't declared.
pub fn is_unknown_entity(schema: &Schema, entity: &Option<Name>) -> bool
    ensures { result ≡ unknown_entity schema.now entity.now }
{
    match entity {
        Some(name) => schema.find_sort(name).is_none(),
        None => false,
    }
}

fn are_one_type(left: Option<Sort>, right: Option<Sort>) -> bool
    ensures { result ≡ are_of_one_type left right }
{
    match (left, right) {
        (Some(Sort::Plain(left)), Some(Sort::Plain(right))) => left == right,
        _ => false,
    }
}

/// Whether the sides are type terms of one type over a variable of the entity.
fn have_one_type(
    schema: &Schema,
    names: &Names,
    entity: Option<u32>,
    left: &Raw,
    right: &Raw,
) -> bool
    ensures { result ≡ one_type schema.now names.now entity left.now right.now }
{
    match entity {
        Some(entity) => {
            let sorts = [Sort::Entity(entity)];
            are_one_type(
                sort_of_raw(schema, names, &sorts, left),
                sort_of_raw(schema, names, &sorts, right),
            )
        }
        None => false,
    }
}

/// The least rule that an observation equation breaks, where the variable is the one name.
fn fault_over(schema: &Schema, names: &Names, part: &ObsPart) -> Option<TermRefusal>
    ensures { result ≡ observation_fault_over schema.now names.now part.now }
{
    if is_unknown_entity(schema, &part.entity)
        || has_unknown(schema, names, &part.left)
        || has_unknown(schema, names, &part.right)
    {
        return Some(TermRefusal::Unknown);
    }
    if has_wrong_count(schema, &part.left) || has_wrong_count(schema, &part.right) {
        return Some(TermRefusal::WrongCount);
    }
    let entity = variable_entity(schema, part);
    if !have_one_type(schema, names, entity, &part.left, &part.right) {
        return Some(TermRefusal::WrongSort);
    }
    if has_reserved(schema, &part.left) || has_reserved(schema, &part.right) {
        return Some(TermRefusal::Reserved);
    }
    if is_too_large(&part.left) || is_too_large(&part.right) {
        return Some(TermRefusal::TooLarge);
    }
    None
}

fn entity_or_first(entity: Option<u32>) -> u32
    ensures { result ≡ number_or_zero entity }
{
    match entity {
        Some(entity) => entity,
        None => 0,
    }
}

/// The side, over a variable of this entity.
fn build_side(
    alloc: Global,
    schema: &Schema,
    names: &Names,
    entity: u32,
    side: &Raw,
) -> Result<TypeTerm, AllocError>
    ensures { IfOk result (λ made. made ≡ type_term_in (resolved schema.now names.now (Sort.Entity entity ∷ [])
        side.now)) }
{
    let sorts = [Sort::Entity(entity)];
    let term = build(alloc, schema, names, &sorts, side)?;
    Ok(type_term(term))
}

/// The observation equation, whose variable's entity is there where it breaks no rule.
fn build_over(
    alloc: Global,
    schema: &Schema,
    names: &Names,
    part: &ObsPart,
) -> Result<ObsEq, AllocError>
    ensures { IfOk result (λ made. made ≡ made_observation_over schema.now names.now part.now) }
{
    let entity = entity_or_first(variable_entity(schema, part));
    let left = build_side(alloc, schema, names, entity, &part.left)?;
    let right = build_side(alloc, schema, names, entity, &part.right)?;
    Ok(ObsEq {
        entity,
        left,
        right,
    })
}

fn add_over(
    alloc: Global,
    schema: &Schema,
    names: &Names,
    number: u32,
    part: &ObsPart,
) -> Result<ObsEq, TheoryRefusal>
    ensures ok { IfOk result (λ made. (observation_fault_over schema.now names.now part.now ≡ None)
        × (made ≡ made_observation_over schema.now names.now part.now)) }
    ensures refused { IfErr result (λ refusal. (refusal ≡ TheoryRefusal.Memory)
        ⊎ (option_map (in_part number) (observation_fault_over schema.now names.now part.now) ≡ Some refusal)) }
{
    if let Some(rule) = fault_over(schema, names, part) {
        return Err(in_part_of(number, rule));
    }
    let made = build_over(alloc, schema, names, part)?;
    Ok(made)
}

/// The table of one name.
pub fn table_of(alloc: Global, name: &Name) -> Result<Names, TheoryRefusal>
    ensures ok { IfOk result (λ table. table ≡ name.now ∷ []) }
    ensures memory { IfErr result (λ refusal. refusal ≡ TheoryRefusal.Memory) }
{
    let name = name.clone()?;
    let mut table = Names::new(alloc);
    match table.add(name) {
        Ok(_) => Ok(table),
        Err(_) => Err(TheoryRefusal::Memory),
    }
}

/// The observation equation of a part.
fn add_observation(
    alloc: Global,
    schema: &Schema,
    number: u32,
    part: &ObsPart,
) -> Result<ObsEq, TheoryRefusal>
    ensures ok { IfOk result (λ made. (observation_fault schema.now part.now ≡ None)
        × (made ≡ made_observation schema.now part.now)) }
    ensures refused { IfErr result (λ refusal. (refusal ≡ TheoryRefusal.Memory)
        ⊎ (option_map (in_part number) (observation_fault schema.now part.now) ≡ Some refusal)) }
{
    let names = table_of(alloc, &part.variable)?;
    add_over(alloc, schema, &names, number, part)
}

/// The observation equations, the first of which is part `first`.
pub(crate) fn add_observations(
    alloc: Global,
    schema: &Schema,
    first: u32,
    parts: &[ObsPart],
) -> Result<Vec<ObsEq>, TheoryRefusal>
    requires { first + length parts.now < 2 ^ 32 }
    ensures accepted { IfOk result (λ _. first_fault (observation_fault schema.now) first parts.now ≡ None) }
    ensures made { IfOk result (λ made. made.items ≡ map (made_observation schema.now) parts.now) }
    ensures refused { IfErr result (λ refusal. (refusal ≡ TheoryRefusal.Memory)
        ⊎ (first_fault (observation_fault schema.now) first parts.now ≡ Some refusal)) }
{
    let mut made = Vec::new(alloc);
    let mut number = first;
    for part in parts {
        let observation = add_observation(alloc, schema, number, part)?;
        made.push(observation)?;
        number += 1;
    }
    Ok(made)
}
