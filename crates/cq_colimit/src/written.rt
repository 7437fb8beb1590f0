//! The joined foreign keys and attributes, as parts of a schema.
ghost use Rattle.std.specs.Prelude.{ℕ, List, ◌≡◌, ◌+◌, ◌<◌, ◌≤◌, ◌++◌, All, [], IfOk, OnOk, length, map};
ghost use Rattle.std.specs.Prelude.{slice_index_or};
ghost use Rattle.cq_theory.specs.Canonical.{below};
ghost use Rattle.cq_colimit.specs.Classes.{class_of};
ghost use Rattle.cq_colimit.specs.Clashes.{joined_name};
ghost use Rattle.cq_colimit.specs.Joined.{key_part as part_of_key, attribute_part as part_of_attribute};
ghost use Rattle.cq_colimit.specs.Joined.{keys_of, attributes_of};

use crate::placed::Placed;
use crate::text::Text;
use cq_base::Name;
use cq_theory::Edge;
use std::alloc::{AllocError, Global};

/// The joined name of a symbol of a part.
fn joined(alloc: Global, part: &Placed, name: &Name) -> Result<Name, AllocError>
    ensures { IfOk result (λ made. made ≡ joined_name part.now.name name.now) }
{
    let text = Text::join(alloc, &part.name, name)?;
    text.to_name(alloc)
}

/// A name of a list.
fn name_at(alloc: Global, names: &[Name], number: u32) -> Result<Name, AllocError>
    ensures { IfOk result (λ name. name ≡ slice_index_or names.now number []) }
{
    match names.get(number as usize) {
        Some(name) => name.clone(),
        None => Name::empty(alloc),
    }
}

/// A joined foreign key.
#[tactic(auto, using(crate::proofs::Ranges::class_at))]
fn key_part(
    alloc: Global,
    part: &Placed,
    numbers: &[u32],
    entities: &[Name],
    edge: &Edge,
) -> Result<(Name, Name, Name), AllocError>
    requires from { part.now.start.entity + edge.now.from < length numbers.now }
    requires to { part.now.start.entity + edge.now.to < length numbers.now }
    ensures { (links : List (ℕ × ℕ)) → numbers.now ≡ map (class_of links) (below (length numbers.now)) → IfOk result (λ
        made. made ≡ part_of_key links entities.now part.now edge.now) }
{
    let name = joined(alloc, part, &edge.name)?;
    let from = name_at(
        alloc,
        entities,
        numbers[part.start.entity as usize + edge.from as usize],
    )?;
    let to = name_at(
        alloc,
        entities,
        numbers[part.start.entity as usize + edge.to as usize],
    )?;
    Ok((name, from, to))
}

/// A joined attribute.
#[tactic(auto, using(crate::proofs::Ranges::class_at))]
fn attribute_part(
    alloc: Global,
    part: &Placed,
    numbers: &[u32],
    entities: &[Name],
    edge: &Edge,
) -> Result<(Name, Name, Name), AllocError>
    requires { part.now.start.entity + edge.now.from < length numbers.now }
    ensures { (links : List (ℕ × ℕ)) → numbers.now ≡ map (class_of links) (below (length numbers.now)) → IfOk result (λ
        made. made ≡ part_of_attribute links entities.now part.now edge.now) }
{
    let name = joined(alloc, part, &edge.name)?;
    let from = name_at(
        alloc,
        entities,
        numbers[part.start.entity as usize + edge.from as usize],
    )?;
    let to = name_at(alloc, part.schema.typeside.types.as_slice(), edge.to)?;
    Ok((name, from, to))
}

/// Appends the joined foreign keys of a part.
fn add_keys(
    alloc: Global,
    part: &Placed,
    numbers: &[u32],
    entities: &[Name],
    made: &mut Vec<(Name, Name, Name)>,
) -> Result<(), AllocError>
    requires { part.now.start.entity + length part.now.schema.entities ≤ length numbers.now }
    ensures { (links : List (ℕ × ℕ)) → numbers.now ≡ map (class_of links) (below (length numbers.now)) → OnOk result (
        made.new.items ≡ made.old.items ++ map (part_of_key links entities.now part.now) part.now.schema.keys) }
{
    part.schema.is_well_sorted();
    for edge in part.schema.keys.as_slice() {
        made.push(key_part(alloc, part, numbers, entities, edge)?)?;
    }
    Ok(())
}

/// Appends the joined attributes of a part.
fn add_attributes(
    alloc: Global,
    part: &Placed,
    numbers: &[u32],
    entities: &[Name],
    made: &mut Vec<(Name, Name, Name)>,
) -> Result<(), AllocError>
    requires { part.now.start.entity + length part.now.schema.entities ≤ length numbers.now }
    ensures { (links : List (ℕ × ℕ)) → numbers.now ≡ map (class_of links) (below (length numbers.now)) → OnOk result (
        made.new.items ≡ made.old.items
        ++ map (part_of_attribute links entities.now part.now) part.now.schema.attributes) }
{
    part.schema.is_well_sorted();
    for edge in part.schema.attributes.as_slice() {
        made.push(attribute_part(alloc, part, numbers, entities, edge)?)?;
    }
    Ok(())
}

/// The joined foreign keys.
pub(crate) fn key_parts(
    alloc: Global,
    parts: &[Placed],
    numbers: &[u32],
    entities: &[Name],
) -> Result<Vec<(Name, Name, Name)>, AllocError>
    requires { All (λ part. part.start.entity + length part.schema.entities ≤ length numbers.now) parts.now }
    ensures { (links : List (ℕ × ℕ)) → numbers.now ≡ map (class_of links) (below (length numbers.now)) → IfOk result (λ
        made. made.items ≡ keys_of links entities.now parts.now) }
{
    let mut made = Vec::new(alloc);
    for part in parts {
        add_keys(alloc, part, numbers, entities, &mut made)?;
    }
    Ok(made)
}

/// The joined attributes.
pub(crate) fn attribute_parts(
    alloc: Global,
    parts: &[Placed],
    numbers: &[u32],
    entities: &[Name],
) -> Result<Vec<(Name, Name, Name)>, AllocError>
    requires { All (λ part. part.start.entity + length part.schema.entities ≤ length numbers.now) parts.now }
    ensures { (links : List (ℕ × ℕ)) → numbers.now ≡ map (class_of links) (below (length numbers.now)) → IfOk result (λ
        made. made.items ≡ attributes_of links entities.now parts.now) }
{
    let mut made = Vec::new(alloc);
    for part in parts {
        add_attributes(alloc, part, numbers, entities, &mut made)?;
    }
    Ok(made)
}
