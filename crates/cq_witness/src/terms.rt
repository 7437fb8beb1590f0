//! Terms, appended to what stands before them.
ghost use Rattle.std.specs.Prelude.{◌≡◌, ◌++◌, OnOk, slice_get};
ghost use Rattle.std.specs.List.{flat_map};
ghost use Rattle.cq_explain.specs.Explanation.{ent_text};
ghost use Rattle.cq_text.specs.Transcript.{edge_name, generator_name, step_text};

use cq_base::Name;
use cq_theory::{Edge, EntTerm, Presentation, Schema, Sort};
use std::alloc::AllocError;

fn append_name(out: &mut Vec<u8>, name: &Name) -> Result<(), AllocError>
    ensures { OnOk result (out.new.items ≡ out.old.items ++ name.now) }
{
    out.extend_from_slice(name.as_str().as_bytes())?;
    Ok(())
}

fn append_edge(out: &mut Vec<u8>, edges: &[Edge], number: u32) -> Result<(), AllocError>
    ensures { OnOk result (out.new.items ≡ out.old.items ++ edge_name (slice_get edges.now number)) }
{
    match edges.get(number as usize) {
        Some(edge) => append_name(out, &edge.name),
        None => Ok(()),
    }
}

fn append_generator(
    out: &mut Vec<u8>,
    generators: &[(Name, Sort)],
    number: u32,
) -> Result<(), AllocError>
    ensures { OnOk result (out.new.items ≡ out.old.items ++ generator_name (slice_get generators.now number)) }
{
    match generators.get(number as usize) {
        Some(generator) => append_name(out, &generator.0),
        None => Ok(()),
    }
}

/// Appends a dot and the name of a foreign key.
fn append_step(out: &mut Vec<u8>, keys: &[Edge], key: u32) -> Result<(), AllocError>
    ensures { OnOk result (out.new.items ≡ out.old.items ++ step_text keys.now key) }
{
    out.extend_from_slice(b".")?;
    append_edge(out, keys, key)?;
    Ok(())
}

fn append_path(out: &mut Vec<u8>, keys: &[Edge], path: &[u32]) -> Result<(), AllocError>
    ensures { OnOk result (out.new.items ≡ out.old.items ++ flat_map (step_text keys.now) path.now) }
{
    for key in path {
        append_step(out, keys, *key)?;
    }
    Ok(())
}

/// Appends an entity term, as explanations have it: the name of its generator, then a dot and the name of each key that
/// is followed.
pub fn append_entity_term(
    out: &mut Vec<u8>,
    schema: &Schema,
    presentation: &Presentation,
    term: &EntTerm,
) -> Result<(), AllocError>
    ensures { OnOk result (out.new.items ≡ out.old.items ++ ent_text schema.now presentation.now term.now) }
{
    append_generator(out, presentation.generators.as_slice(), term.generator)?;
    append_path(out, schema.keys.as_slice(), term.path.as_slice())?;
    Ok(())
}
