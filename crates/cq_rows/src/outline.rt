//! What the rows of all presentations over a schema are made by.
ghost use Rattle.std.specs.Prelude.{◌≡◌, false, length, map, IfOk};
ghost use Rattle.cq_theory.specs.Groups.{path_eq_sources, AreGroups};
ghost use Rattle.cq_theory.specs.Schema.{IsSchema};
ghost use Rattle.cq_rows.specs.Outline.{HasFrame, HasEntity, IsOutline, IsOutlineFor};
ghost use Rattle.cq_rows.specs.Plain.{theory_of, ends_of};

use cq_tables::Tables;
use cq_theory::{Groups, Presentation, Schema, Sort, path_equations_by_entity};
use std::alloc::{AllocError, Global};

/// What depends on a schema alone of the work on rows over it: the entities between which its foreign keys go, tables
/// without rows, and the path equations that begin at each entity. It is made once where rows are made many times.
pub struct Outline {
    pub(crate) keys: Vec<(u32, u32)>,
    pub(crate) tables: Tables,
    pub(crate) path_equations: Groups,
}

impl Drop for Outline {
    fn drop(self) {
        let Self {
            keys: _,
            tables: _,
            path_equations: _,
        } = self;
    }
}

impl Outline {
    /// The outline of a schema.
    pub fn new(alloc: Global, schema: &Schema) -> Result<Outline, AllocError>
        ensures { IfOk result (IsOutline schema.now) }
    {
        let path_equations = path_equations_by_entity(alloc, schema)?;
        let outline = Outline::with(alloc, schema, path_equations)?;
        Ok(outline)
    }

    // The outline that serves one presentation: path equations are listed only if some generator is of an entity. An
    // instance without rows costs no more where its schema has many.
    pub(crate) fn of_presentation(
        alloc: Global,
        schema: &Schema,
        presentation: &Presentation,
    ) -> Result<Outline, AllocError>
        ensures { IfOk result (IsOutlineFor schema.now presentation.now) }
    {
        let path_equations = list_rules(alloc, schema, presentation)?;
        let outline = Outline::with(alloc, schema, path_equations)?;
        Ok(outline)
    }

    // An outline with these lists of path equations.
    fn with(alloc: Global, schema: &Schema, path_equations: Groups) -> Result<Outline, AllocError>
        ensures frame { IfOk result (HasFrame schema.now) }
        ensures listed { IfOk result (λ outline. outline.path_equations ≡ path_equations) }
    {
        schema.is_well_sorted();
        let keys = key_ends(alloc, schema)?;
        let tables = Tables::new(alloc, count_entities(schema), &keys)?;
        Ok(Outline {
            keys,
            tables,
            path_equations,
        })
    }
}

// The entities between which each key goes.
fn key_ends(alloc: Global, schema: &Schema) -> Result<Vec<(u32, u32)>, AllocError>
    ensures { IfOk result (λ keys. keys.items ≡ map ends_of schema.now.keys) }
{
    let mut keys = Vec::new(alloc);
    for edge in schema.keys.as_slice() {
        keys.push((edge.from, edge.to))?;
    }
    Ok(keys)
}

// How many entities there are.
fn count_entities(schema: &Schema) -> u32
    ensures { result ≡ length schema.now.entities }
{
    schema.entities.len() as u32
}

// Whether some generator is of an entity.
fn has_entity(presentation: &Presentation) -> bool
    ensures { result ≡ false → HasEntity presentation.now → ⊥ }
{
    for generator in presentation.generators.as_slice() {
        if let Sort::Entity(_entity) = generator.1 {
            return true;
        }
    }
    false
}

// The path equations that begin at each entity, or none if no generator is of an entity.
fn list_rules(
    alloc: Global,
    schema: &Schema,
    presentation: &Presentation,
) -> Result<Groups, AllocError>
    ensures { IfOk result (λ groups. HasEntity presentation.now → AreGroups (path_eq_sources schema.now.path_eqs)
        (length schema.now.entities) groups) }
{
    if !has_entity(presentation) {
        return Groups::new(alloc, 0, &[]);
    }
    path_equations_by_entity(alloc, schema)
}
