//! Generators under the names by which they are told.
use crate::rows::Label;
use crate::sources::Part;
use cq_base::{Name, Seq};
use cq_origin::part_of;
use cq_theory::{Presentation, Sort};
use cq_values::name_of;
use std::alloc::{AllocError, Global};

/// The generators of a presentation, of which those with a label have its name. It has no equations.
pub fn shown_presentation(
    alloc: Global,
    presentation: &Presentation,
    labels: &[Label],
) -> Result<Presentation, AllocError> {
    let mut generators = Vec::with_capacity(alloc, presentation.generators.len())?;
    for (number, generator) in presentation.generators.as_slice().iter().enumerate() {
        push_shown(number, generator, labels, &mut generators)?;
    }
    Ok(Presentation {
        generators: Seq::from_vec(generators),
        equations: Seq::from_vec(Vec::new(alloc)),
    })
}

fn push_shown(
    number: usize,
    generator: &(Name, Sort),
    labels: &[Label],
    generators: &mut Vec<(Name, Sort)>,
) -> Result<(), AllocError> {
    let name = match labels.binary_search_by(|label| (label.generator as usize).cmp(&number)) {
        Ok(place) => name_at(labels, place, generator)?,
        Err(_) => generator.0.clone()?,
    };
    generators.push((name, generator.1))?;
    Ok(())
}

/// The name of the label at this place; where there is none, the generator's own.
fn name_at(labels: &[Label], place: usize, generator: &(Name, Sort)) -> Result<Name, AllocError> {
    match labels.get(place) {
        Some(label) => label.name.clone(),
        None => generator.0.clone(),
    }
}

/// The labels of generators of several parts, that stand behind one another: the name of the part, and that of the
/// generator in it.
pub fn labels_of_parts(
    alloc: Global,
    parts: &[Part],
    cited: &[u32],
) -> Result<Vec<Label>, AllocError> {
    let lengths = generator_counts(alloc, parts)?;
    let mut labels = Vec::new(alloc);
    for generator in cited {
        if let Some(name) = name_in_part(alloc, parts, lengths.as_slice(), *generator)? {
            labels.push(Label {
                generator: *generator,
                name,
            })?;
        }
    }
    Ok(labels)
}

fn generator_counts(alloc: Global, parts: &[Part]) -> Result<Vec<u64>, AllocError> {
    let mut lengths = Vec::new(alloc);
    for part in parts {
        lengths.push(part.presentation.generators.len() as u64)?;
    }
    Ok(lengths)
}

/// `PART.GENERATOR`, where the part has a name and both together aren't too long for one.
fn name_in_part(
    alloc: Global,
    parts: &[Part],
    lengths: &[u64],
    generator: u32,
) -> Result<Option<Name>, AllocError> {
    let Some(place) = part_of(lengths, u64::from(generator)) else {
        return Ok(None);
    };
    let Some(part) = parts.get(place.part) else {
        return Ok(None);
    };
    let Some(name) = part.name else {
        return Ok(None);
    };
    let Some(own) = part
        .presentation
        .generators
        .as_slice()
        .get(place.place as usize)
    else {
        return Ok(None);
    };
    joined_name(alloc, name, &own.0)
}

/// Two names with a dot between them.
fn joined_name(alloc: Global, first: &Name, second: &Name) -> Result<Option<Name>, AllocError> {
    let mut text = Vec::from_slice(alloc, first.as_str().as_bytes())?;
    text.extend_from_slice(b".")?;
    text.extend_from_slice(second.as_str().as_bytes())?;
    name_of(alloc, text.as_slice())
}
