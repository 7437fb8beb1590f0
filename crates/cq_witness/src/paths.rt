//! One row of an entity, which goes by the entity's name.
ghost use Rattle.std.specs.Prelude.{◌≡◌, IfOk, slice_get};
ghost use Rattle.cq_text.specs.Transcript.{name_or_empty};
ghost use Rattle.cq_witness.specs.Paths.{from_there, over as over_entity, path_equation as equation_of_paths};

use cq_base::{Name, Seq};
use cq_theory::{EntTerm, Equation, Path, Presentation, Schema, Sort};
use std::alloc::{AllocError, Global};

/// The name of an entity, and the empty one where there is no such entity.
fn entity_name(alloc: Global, schema: &Schema, entity: u32) -> Result<Name, AllocError>
    ensures { IfOk result (λ name. name ≡ name_or_empty (slice_get schema.now.entities entity)) }
{
    match schema.entities.as_slice().get(entity as usize) {
        Some(name) => name.clone(),
        None => Name::empty(alloc),
    }
}

/// One generator of an entity, with the entity's name, and no equations.
pub fn over(alloc: Global, schema: &Schema, entity: u32) -> Result<Presentation, AllocError>
    ensures { IfOk result (λ made. made ≡ over_entity schema.now entity) }
{
    let name = entity_name(alloc, schema, entity)?;
    let generators = vec![in alloc; (name, Sort::Entity(entity))]?;
    Ok(Presentation {
        generators: Seq::from_vec(generators),
        equations: Seq::from_vec(Vec::new(alloc)),
    })
}

/// A path from the one generator.
pub fn path_term(alloc: Global, path: &[u32]) -> Result<EntTerm, AllocError>
    ensures { IfOk result (λ made. made ≡ from_there path.now) }
{
    Ok(EntTerm {
        generator: 0,
        path: Path::from_slice(alloc, path)?,
    })
}

/// Two paths from the one generator.
pub fn path_equation(alloc: Global, left: &[u32], right: &[u32]) -> Result<Equation, AllocError>
    ensures { IfOk result (λ made. made ≡ equation_of_paths left.now right.now) }
{
    let left = path_term(alloc, left)?;
    let right = path_term(alloc, right)?;
    Ok(Equation::Ent(left, right))
}
