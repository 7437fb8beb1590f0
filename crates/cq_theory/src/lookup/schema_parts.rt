//! The entities, foreign keys and attributes of a schema's parts.
ghost use Rattle.std.specs.Prelude.{◌≡◌, ◌+◌, ◌-◌, ◌<◌, ◌^◌, ◌⊎◌, ◌++◌, ◌∷◌, [], IfOk, OnOk, IfErr, Some, None, length};
ghost use Rattle.std.specs.Prelude.{map, List, ℕ, ◌≤◌, ◌||◌};
ghost use Rattle.std.specs.Prelude.{true, is_some};
ghost use Rattle.cq_base.specs.Names.{same_name, number_of};
ghost use Rattle.cq_theory.specs.Declaring.{number_or_zero};
ghost use Rattle.cq_theory.specs.Paths.{is_among};
ghost use Rattle.cq_theory.specs.Typeside.{function_names};
ghost use Rattle.cq_theory.specs.Schema.{edge_names};
ghost use Rattle.cq_theory.specs.Resolve.{sort_in};
ghost use Rattle.cq_theory.specs.SchemaParts.{entities_fault, key_ends_fault, key_fault, keys_fault};
ghost use Rattle.cq_theory.specs.SchemaParts.{attribute_ends_fault, attribute_fault, attributes_fault, entity_named};
ghost use Rattle.cq_theory.specs.SchemaParts.{type_named, made_key, made_attribute, part_names};

use crate::lookup::declares::declare;
use crate::lookup::passes::{entity_of_sort, type_of_sort};
use crate::presentation::Sort;
use crate::refusal::TheoryRefusal;
use crate::schema::{Edge, Schema};
use crate::typeside::Typeside;
use cq_base::{Name, Names};
use std::alloc::Global;

/// Adds the name of an entity to the table of the entities.
#[tactic(auto, using(crate::proofs::NamesBeside::in_two_lists))]
fn declare_entity(
    typeside: &Typeside,
    table: &mut Names,
    part: u32,
    name: &Name,
) -> Result<(), TheoryRefusal>
    requires { length table.old < 2 ^ 32 - 1 }
    ensures ok { IfOk result (λ _. (number_of (typeside.now.types ++ table.old) name.now ≡ None)
        × (table.new ≡ table.old ++ name.now ∷ [])) }
    ensures refused { IfErr result (λ refusal. (refusal ≡ TheoryRefusal.Memory)
        ⊎ ((refusal ≡ TheoryRefusal.Duplicate part)
        × (is_some (number_of (typeside.now.types ++ table.old) name.now) ≡ true))) }
{
    if typeside.find_type(name).is_some() {
        return Err(TheoryRefusal::Duplicate(part));
    }
    declare(table, part, name)?;
    Ok(())
}

/// The table of the entities.
pub(crate) fn add_entities(
    alloc: Global,
    typeside: &Typeside,
    parts: &[Name],
) -> Result<Names, TheoryRefusal>
    requires { length parts.now < 2 ^ 32 }
    ensures ok { IfOk result (λ table. (entities_fault typeside.now parts.now ≡ None) × (table ≡ parts.now)) }
    ensures refused { IfErr result (λ refusal. (refusal ≡ TheoryRefusal.Memory)
        ⊎ (entities_fault typeside.now parts.now ≡ Some refusal)) }
{
    let mut table = Names::new(alloc);
    let mut part = 0;
    for name in parts {
        declare_entity(typeside, &mut table, part, name)?;
        part += 1;
    }
    Ok(table)
}

/// The type or entity of a name.
fn find_sort(typeside: &Typeside, entities: &Names, name: &Name) -> Option<Sort>
    ensures { result ≡ sort_in typeside.now entities.now name.now }
{
    if let Some(number) = typeside.find_type(name) {
        return Some(Sort::Plain(number));
    }
    match entities.find(name) {
        Some(number) => Some(Sort::Entity(number)),
        None => None,
    }
}

/// Adds the name of a foreign key to the table of the foreign keys.
#[tactic(auto, using(crate::proofs::NamesBeside::in_two_lists))]
fn declare_key(
    typeside: &Typeside,
    table: &mut Names,
    part: u32,
    name: &Name,
) -> Result<(), TheoryRefusal>
    requires { length table.old < 2 ^ 32 - 1 }
    ensures ok { IfOk result (λ _. (number_of (function_names typeside.now ++ table.old) name.now ≡ None)
        × (table.new ≡ table.old ++ name.now ∷ [])) }
    ensures refused { IfErr result (λ refusal. (refusal ≡ TheoryRefusal.Memory)
        ⊎ ((refusal ≡ TheoryRefusal.Duplicate part)
        × (is_some (number_of (function_names typeside.now ++ table.old) name.now) ≡ true))) }
{
    if typeside.find_function(name).is_some() {
        return Err(TheoryRefusal::Duplicate(part));
    }
    declare(table, part, name)?;
    Ok(())
}

/// The entities from which and to which the foreign key of a part goes.
fn key_ends(
    typeside: &Typeside,
    entities: &Names,
    part: u32,
    from: &Name,
    to: &Name,
) -> Result<(u32, u32), TheoryRefusal>
    ensures right { IfOk result (λ _. key_ends_fault typeside.now entities.now part from.now to.now ≡ None) }
    ensures ok { IfOk result (λ ends. (ends.0 ≡ number_or_zero (entity_named typeside.now entities.now from.now))
        × (ends.1 ≡ number_or_zero (entity_named typeside.now entities.now to.now))) }
    ensures refused { IfErr result (λ refusal. key_ends_fault typeside.now entities.now part from.now to.now
        ≡ Some refusal) }
{
    let from = find_sort(typeside, entities, from);
    let to = find_sort(typeside, entities, to);
    if from.is_none() || to.is_none() {
        return Err(TheoryRefusal::Unknown(part));
    }
    let Some(from) = entity_of_sort(from) else {
        return Err(TheoryRefusal::WrongSort(part));
    };
    let Some(to) = entity_of_sort(to) else {
        return Err(TheoryRefusal::WrongSort(part));
    };
    Ok((from, to))
}

/// The foreign key that a part declares.
fn add_key(
    typeside: &Typeside,
    entities: &Names,
    table: &mut Names,
    part: u32,
    key: &(Name, Name, Name),
) -> Result<Edge, TheoryRefusal>
    requires { length table.old < 2 ^ 32 - 1 }
    ensures ok { IfOk result (λ made. (key_fault typeside.now entities.now (function_names typeside.now ++ table.old)
        part key.now ≡ None) × (table.new ≡ table.old ++ key.now.0 ∷ [])
        × (made ≡ made_key typeside.now entities.now key.now)) }
    ensures refused { IfErr result (λ refusal. (refusal ≡ TheoryRefusal.Memory)
        ⊎ (key_fault typeside.now entities.now (function_names typeside.now ++ table.old) part key.now
        ≡ Some refusal)) }
{
    declare_key(typeside, table, part, &key.0)?;
    let (from, to) = key_ends(typeside, entities, part, &key.1, &key.2)?;
    let name = key.0.clone()?;
    Ok(Edge { name, from, to })
}

/// The foreign keys, the first of which is part `first`, and the table of their names.
pub(crate) fn add_keys(
    alloc: Global,
    typeside: &Typeside,
    entities: &Names,
    first: u32,
    parts: &[(Name, Name, Name)],
) -> Result<(Names, Vec<Edge>), TheoryRefusal>
    requires { first + length parts.now < 2 ^ 32 }
    ensures accepted { IfOk result (λ _. keys_fault typeside.now entities.now first parts.now ≡ None) }
    ensures made { IfOk result (λ made. (made.0 ≡ part_names parts.now)
        × (made.1.items ≡ map (made_key typeside.now entities.now) parts.now)) }
    ensures refused { IfErr result (λ refusal. (refusal ≡ TheoryRefusal.Memory)
        ⊎ (keys_fault typeside.now entities.now first parts.now ≡ Some refusal)) }
{
    let mut table = Names::new(alloc);
    let mut keys = Vec::new(alloc);
    let mut part = first;
    for key in parts {
        let made = add_key(typeside, entities, &mut table, part, key)?;
        keys.push(made)?;
        part += 1;
    }
    Ok((table, keys))
}

/// Adds the name of an attribute to the table of the attributes.
#[tactic(auto, using(crate::proofs::NamesBeside::in_two_lists))]
fn declare_attribute(
    schema: &Schema,
    table: &mut Names,
    part: u32,
    name: &Name,
) -> Result<(), TheoryRefusal>
    requires { length table.old < 2 ^ 32 - 1 }
    ensures ok { IfOk result (λ _. (number_of ((function_names schema.now.typeside ++ edge_names schema.now.keys)
        ++ table.old) name.now ≡ None) × (table.new ≡ table.old ++ name.now ∷ [])) }
    ensures refused { IfErr result (λ refusal. (refusal ≡ TheoryRefusal.Memory)
        ⊎ ((refusal ≡ TheoryRefusal.Duplicate part)
        × (is_some (number_of ((function_names schema.now.typeside ++ edge_names schema.now.keys) ++ table.old)
        name.now) ≡ true))) }
{
    if is_function_or_key(schema, name) {
        return Err(TheoryRefusal::Duplicate(part));
    }
    declare(table, part, name)?;
    Ok(())
}

#[tactic(auto, using(cq_base::proofs::Numbers::number_of_beside))]
fn is_function_or_key(schema: &Schema, name: &Name) -> bool
    ensures { result ≡ is_some (number_of (function_names schema.now.typeside ++ edge_names schema.now.keys) name.now) }
{
    schema.typeside.find_function(name).is_some() || schema.find_key(name).is_some()
}

/// The entity from which and the type to which the attribute of a part goes.
fn attribute_ends(
    schema: &Schema,
    part: u32,
    from: &Name,
    to: &Name,
) -> Result<(u32, u32), TheoryRefusal>
    ensures right { IfOk result (λ _. attribute_ends_fault schema.now.typeside schema.now.entities part from.now
        to.now ≡ None) }
    ensures ok { IfOk result (λ ends. (ends.0 ≡ number_or_zero
        (entity_named schema.now.typeside schema.now.entities from.now))
        × (ends.1 ≡ number_or_zero (type_named schema.now.typeside schema.now.entities to.now))) }
    ensures refused { IfErr result (λ refusal. attribute_ends_fault schema.now.typeside schema.now.entities part
        from.now to.now ≡ Some refusal) }
{
    let from = schema.find_sort(from);
    let to = schema.find_sort(to);
    if from.is_none() || to.is_none() {
        return Err(TheoryRefusal::Unknown(part));
    }
    let Some(from) = entity_of_sort(from) else {
        return Err(TheoryRefusal::WrongSort(part));
    };
    let Some(to) = type_of_sort(to) else {
        return Err(TheoryRefusal::WrongSort(part));
    };
    Ok((from, to))
}

/// The attribute that a part declares.
fn add_attribute(
    schema: &Schema,
    table: &mut Names,
    part: u32,
    attribute: &(Name, Name, Name),
) -> Result<Edge, TheoryRefusal>
    requires { length table.old < 2 ^ 32 - 1 }
    ensures ok { IfOk result (λ made. (attribute_fault schema.now.typeside schema.now.entities
        ((function_names schema.now.typeside ++ edge_names schema.now.keys) ++ table.old) part attribute.now ≡ None)
        × (table.new ≡ table.old ++ attribute.now.0 ∷ [])
        × (made ≡ made_attribute schema.now.typeside schema.now.entities attribute.now)) }
    ensures refused { IfErr result (λ refusal. (refusal ≡ TheoryRefusal.Memory)
        ⊎ (attribute_fault schema.now.typeside schema.now.entities
        ((function_names schema.now.typeside ++ edge_names schema.now.keys) ++ table.old) part attribute.now
        ≡ Some refusal)) }
{
    declare_attribute(schema, table, part, &attribute.0)?;
    let (from, to) = attribute_ends(schema, part, &attribute.1, &attribute.2)?;
    let name = attribute.0.clone()?;
    Ok(Edge { name, from, to })
}

/// The attributes, the first of which is part `first`, and the table of their names.
pub(crate) fn add_attributes(
    alloc: Global,
    schema: &Schema,
    first: u32,
    parts: &[(Name, Name, Name)],
) -> Result<(Names, Vec<Edge>), TheoryRefusal>
    requires { first + length parts.now < 2 ^ 32 }
    ensures accepted { IfOk result (λ _. attributes_fault schema.now first parts.now ≡ None) }
    ensures made { IfOk result (λ made. (made.0 ≡ part_names parts.now)
        × (made.1.items ≡ map (made_attribute schema.now.typeside schema.now.entities) parts.now)) }
    ensures refused { IfErr result (λ refusal. (refusal ≡ TheoryRefusal.Memory)
        ⊎ (attributes_fault schema.now first parts.now ≡ Some refusal)) }
{
    let mut table = Names::new(alloc);
    let mut attributes = Vec::new(alloc);
    let mut part = first;
    for attribute in parts {
        let made = add_attribute(schema, &mut table, part, attribute)?;
        attributes.push(made)?;
        part += 1;
    }
    Ok((table, attributes))
}

/// The names that the parts declare. A name that stands there twice is one.
pub(crate) fn declared_names(
    alloc: Global,
    parts: &[(Name, Name, Name)],
) -> Result<Names, TheoryRefusal>
    requires { length parts.now < 2 ^ 32 }
    ensures ok { IfOk result (λ table. (name : List ℕ) → is_among table name ≡ is_among (part_names parts.now) name) }
    ensures memory { IfErr result (λ refusal. refusal ≡ TheoryRefusal.Memory) }
{
    let mut table = Names::new(alloc);
    for part in parts {
        note_name(&mut table, &part.0)?;
    }
    Ok(table)
}

/// Adds a name that may be there already.
#[tactic(auto, using(cq_base::proofs::Numbers::number_of_more))]
fn note_name(table: &mut Names, name: &Name) -> Result<(), TheoryRefusal>
    requires { length table.old < 2 ^ 32 - 1 }
    ensures short { length table.new ≤ length table.old + 1 }
    ensures ok { OnOk result ((other : List ℕ) → is_among table.new other
        ≡ (is_among table.old other || same_name other name.now)) }
    ensures memory { IfErr result (λ refusal. refusal ≡ TheoryRefusal.Memory) }
{
    if table.find(name).is_some() {
        return Ok(());
    }
    let name = name.clone()?;
    match table.add(name) {
        Ok(_) => Ok(()),
        Err(_) => Err(TheoryRefusal::Memory),
    }
}
