//! The canonical presentation of tables: a generator for each row and each null, and an equation for each cell,
//! foreign key and entry.
mod equations;
pub(crate) mod generators;

ghost use Rattle.std.specs.Prelude.{◌≡◌, ◌+◌, ◌++◌, ◌∷◌, ◌<◌, ◌≤◌, ◌^◌, IfOk, All, map, length, sum};
ghost use Rattle.cq_theory.specs.Canonical.{below, canonical};
ghost use Rattle.cq_theory.specs.Groups.{positions};
ghost use Rattle.cq_instance.specs.Given.{IsModel, tables, size_of};
ghost use Rattle.cq_instance.specs.Numbers as made_of;

use crate::edges::{sources, targets};
use crate::groups::grouped;
use cq_base::{Name, Seq, number_at};
use cq_theory::{Algebra, Edge, Equation, Presentation, Schema, Sheet, Sort};
use equations::build_equations;
use generators::build_generators;
use std::alloc::{AllocError, Global};

/// The numbers of generators, and the foreign keys and attributes of each entity.
pub struct Numbers {
    /// The first generator of each entity's rows.
    pub starts: Seq<u32>,
    /// The entity to which each foreign key leads.
    pub targets: Seq<u32>,
    /// The attributes of each entity.
    pub attributes: Seq<Seq<u32>>,
    /// The foreign keys of each entity.
    pub keys: Seq<Seq<u32>>,
    /// The first generator of a null.
    pub first_null: u32,
    /// How many nulls there are.
    pub nulls: u32,
}

impl Drop for Numbers {
    fn drop(self) {
        let Self {
            starts: _,
            targets: _,
            attributes: _,
            keys: _,
            first_null: _,
            nulls: _,
        } = self;
    }
}

/// The first generator of each entity's rows, and that of the nulls.
fn find_starts(alloc: Global, counts: &[u32]) -> Result<(Vec<u32>, u32), AllocError>
    requires { sum counts.now ≤ 16000000 }
    ensures starts { IfOk result (λ made. made.0.items ≡ made_of.starts counts.now) }
    ensures first_null { IfOk result (λ made. made.1 ≡ sum counts.now) }
{
    let mut starts = Vec::new(alloc);
    let mut total = 0;
    for entity in 0..counts.len() {
        starts.push(total)?;
        total += number_at(counts, entity);
    }
    Ok((starts, total))
}

/// The edges of each entity, by their numbers.
fn edges_by_entity(
    alloc: Global,
    entities: usize,
    edges: &[Edge],
) -> Result<Seq<Seq<u32>>, AllocError>
    requires within { All (λ edge. edge.from < entities) edges.now }
    requires few { length edges.now < 2 ^ 32 }
    ensures { IfOk result (λ groups. groups ≡ map (positions (map (λ edge. edge.from) edges.now)) (below entities)) }
{
    let sources = sources(alloc, edges)?;
    grouped(alloc, entities, sources.as_slice())
}

/// The numbers for tables with these rows and that many nulls.
fn number_tables(
    alloc: Global,
    entities: usize,
    keys: &[Edge],
    attributes: &[Edge],
    counts: &[u32],
    nulls: u32,
) -> Result<Numbers, AllocError>
    requires keys { All (λ edge. edge.from < entities) keys.now }
    requires few_keys { length keys.now < 2 ^ 32 }
    requires attributes { All (λ edge. edge.from < entities) attributes.now }
    requires few_attributes { length attributes.now < 2 ^ 32 }
    requires few { sum counts.now ≤ 16000000 }
    ensures { IfOk result (λ numbers. numbers ≡ made_of.numbers_of entities keys.now attributes.now counts.now nulls) }
{
    let (starts, first_null) = find_starts(alloc, counts)?;
    let targets = targets(alloc, keys)?;
    let attributes = edges_by_entity(alloc, entities, attributes)?;
    let keys = edges_by_entity(alloc, entities, keys)?;
    Ok(Numbers {
        starts: Seq::from_vec(starts),
        targets: Seq::from_vec(targets),
        attributes,
        keys,
        first_null,
        nulls,
    })
}

/// The presentation with these generators and equations.
fn presentation_of(generators: Vec<(Name, Sort)>, equations: Vec<Equation>) -> Presentation
    ensures { result ≡ record { generators = generators.items; equations = equations.items } }
{
    Presentation {
        generators: Seq::from_vec(generators),
        equations: Seq::from_vec(equations),
    }
}

/// The canonical presentation of tables.
pub(crate) fn canonical_presentation(
    alloc: Global,
    schema: &Schema,
    sheet: &Sheet,
    algebra: &Algebra,
) -> Result<Presentation, AllocError>
    requires model { IsModel schema.now (tables sheet.now algebra.now) }
    requires few { size_of (tables sheet.now algebra.now) ≤ 16000000 }
    ensures { IfOk result (λ made. made ≡ canonical schema.now (tables sheet.now algebra.now)) }
{
    schema.is_well_sorted();
    let entities = schema.entities.len();
    let keys = schema.keys.as_slice();
    let attributes = schema.attributes.as_slice();
    let counts = sheet.counts.as_slice();
    let nulls = algebra.nulls.as_slice();
    let count = nulls.len() as u32;
    let numbers = number_tables(alloc, entities, keys, attributes, counts, count)?;
    let generators = build_generators(alloc, counts, nulls)?;
    let equations = build_equations(alloc, sheet, &numbers, algebra.entries.as_slice())?;
    Ok(presentation_of(generators, equations))
}
