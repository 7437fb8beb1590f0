//! The sorts of terms, which say whether a term is a ground term.
ghost use Rattle.std.specs.Prelude.{◌≡◌, ◌↔◌, IsTrue, map, slice_get};
ghost use Rattle.cq_theory.specs.Sorts.{entity_at as entity_of_generator, type_at as type_of_generator};
ghost use Rattle.cq_theory.specs.Sorts.{followed as followed_by, target_of as target_by, entity_of as entity_of_term};
ghost use Rattle.cq_theory.specs.Sorts.{type_of as type_of_term, is_type as is_of_type, have_types as are_of_types};
ghost use Rattle.cq_theory.specs.Sorts.{applied_type as type_applied, IsGround};
ghost use Rattle.cq_steps.specs.Sides.{term_of};

use crate::side::Side;
use cq_base::Name;
use cq_theory::{Edge, EntTerm, Presentation, Schema, Sort, TypeTerm};

/// Whether the term has a sort over the presentation's generators.
pub fn is_ground(schema: &Schema, presentation: &Presentation, term: Side) -> bool
    ensures { IsTrue result ↔ IsGround schema.now presentation.now (term_of term.entry) }
{
    let generators = presentation.generators.as_slice();
    match term {
        Side::Ent(term) => entity_of(schema, generators, term).is_some(),
        Side::Typ(term) => type_of(schema, generators, term).is_some(),
    }
}

/// The entity of an entity term.
pub fn entity_of(schema: &Schema, generators: &[(Name, Sort)], term: &EntTerm) -> Option<u32>
    ensures { result ≡ entity_of_term schema.now generators.now term.now }
{
    let entity = entity_at(generators, term.generator)?;
    target_of(schema.keys.as_slice(), term.path.as_slice(), entity)
}

/// The entity of a generator.
fn entity_at(generators: &[(Name, Sort)], number: u32) -> Option<u32>
    ensures { result ≡ entity_of_generator (slice_get generators.now number) }
{
    match generators.get(number as usize)?.1 {
        Sort::Plain(_) => None,
        Sort::Entity(entity) => Some(entity),
    }
}

/// The type of a generator.
fn type_at(generators: &[(Name, Sort)], number: u32) -> Option<u32>
    ensures { result ≡ type_of_generator (slice_get generators.now number) }
{
    match generators.get(number as usize)?.1 {
        Sort::Plain(number) => Some(number),
        Sort::Entity(_) => None,
    }
}

/// Where the foreign keys of a path lead from an entity.
fn target_of(keys: &[Edge], path: &[u32], entity: u32) -> Option<u32>
    ensures { result ≡ target_by keys.now path.now entity }
{
    let mut here = entity;
    for key in path {
        here = followed(keys, *key, here)?;
    }
    Some(here)
}

/// Where a foreign key or an attribute leads from an entity.
fn followed(edges: &[Edge], number: u32, entity: u32) -> Option<u32>
    ensures { result ≡ followed_by (slice_get edges.now number) entity }
{
    let edge = edges.get(number as usize)?;
    if edge.from == entity {
        Some(edge.to)
    } else {
        None
    }
}

/// The type of a type term.
#[cycle(typed)]
fn type_of(schema: &Schema, generators: &[(Name, Sort)], term: &TypeTerm) -> Option<u32>
    ensures { result ≡ type_of_term schema.now generators.now term.now }
{
    match term {
        TypeTerm::Gen(number) => type_at(generators, *number),
        TypeTerm::Const(constant) => schema.typeside.type_of_constant(constant),
        TypeTerm::Att(attribute, term) => {
            let entity = entity_of(schema, generators, term)?;
            followed(schema.attributes.as_slice(), *attribute, entity)
        }
        TypeTerm::Fun(function, args) => {
            applied_type(schema, generators, *function, args.as_slice())
        }
    }
}

/// The type that a function gives at these arguments.
#[cycle(typed)]
fn applied_type(
    schema: &Schema,
    generators: &[(Name, Sort)],
    number: u32,
    args: &[TypeTerm],
) -> Option<u32>
    ensures { result ≡ type_applied (slice_get schema.now.typeside.functions number)
        (map (type_of_term schema.now generators.now) args.now) }
{
    let function = schema.typeside.functions.as_slice().get(number as usize)?;
    if have_types(schema, generators, args, function.args.as_slice()) {
        Some(function.result)
    } else {
        None
    }
}

/// Whether the arguments have these types.
#[cycle(typed)]
fn have_types(
    schema: &Schema,
    generators: &[(Name, Sort)],
    args: &[TypeTerm],
    types: &[u32],
) -> bool
    ensures { result ≡ are_of_types (map (type_of_term schema.now generators.now) args.now) types.now }
{
    if args.len() != types.len() {
        return false;
    }
    for (i, arg) in args.iter().enumerate() {
        if !is_type(type_of(schema, generators, arg), types[i]) {
            return false;
        }
    }
    true
}

/// Whether this type was found.
fn is_type(found: Option<u32>, wanted: u32) -> bool
    ensures { result ≡ is_of_type found wanted }
{
    match found {
        Some(number) => number == wanted,
        None => false,
    }
}
