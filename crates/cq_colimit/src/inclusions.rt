//! The inclusions of the parts.
ghost use Rattle.std.specs.Prelude.{ℕ, List, ◌≡◌, ◌+◌, ◌<◌, ◌≤◌, ◌^◌, ◌∷◌, [], All, IfOk, length, map};
ghost use Rattle.std.specs.List.{range_with_len};
ghost use Rattle.cq_theory.specs.Canonical.{below};
ghost use Rattle.cq_mapping.specs.Mapping.{IsMapping, attribute_itself};
ghost use Rattle.cq_colimit.specs.Classes.{class_of};
ghost use Rattle.cq_colimit.specs.Joined.{inclusion};
ghost use Rattle.cq_colimit.specs.Frame.{HasShortNumbers, GoesInto};

use crate::placed::Placed;
use cq_base::Seq;
use cq_mapping::Mapping;
use cq_theory::{EntTerm, Path, Schema, TypeTerm};
use std::alloc::{AllocError, Global};
use std::rc::Rc;

/// The paths of one foreign key each, from one on.
#[tactic(auto, using(crate::proofs::Ranges::map_range_more))]
fn single_keys(alloc: Global, first: u32, count: u32) -> Result<Vec<Seq<u32>>, AllocError>
    requires { first + count < 2 ^ 32 }
    ensures { IfOk result (λ made. made.items ≡ map (λ k. k ∷ []) (range_with_len first count)) }
{
    let mut made = Vec::new(alloc);
    for key in 0..count {
        made.push(Seq::from_vec(vec![in alloc; first + key]?))?;
    }
    Ok(made)
}

/// The attributes of the one variable, from one on.
#[tactic(auto, using(crate::proofs::Ranges::map_range_more))]
fn single_attributes(alloc: Global, first: u32, count: u32) -> Result<Vec<TypeTerm>, AllocError>
    requires { first + count < 2 ^ 32 }
    ensures { IfOk result (λ made. made.items ≡ map attribute_itself (range_with_len first count)) }
{
    let mut made = Vec::new(alloc);
    for attribute in 0..count {
        let variable = EntTerm {
            generator: 0,
            path: Path::empty(),
        };
        made.push(TypeTerm::Att(first + attribute, variable))?;
    }
    Ok(made)
}

/// The classes of a part's entities.
#[tactic(auto, using(crate::proofs::Ranges::classes_more))]
fn class_numbers(
    alloc: Global,
    numbers: &[u32],
    first: u32,
    count: u32,
) -> Result<Vec<u32>, AllocError>
    requires { first + count ≤ length numbers.now }
    ensures { (links : List (ℕ × ℕ)) → numbers.now ≡ map (class_of links) (below (length numbers.now)) → IfOk result (λ
        made. made.items ≡ map (class_of links) (range_with_len first count)) }
{
    let mut made = Vec::new(alloc);
    for entity in 0..count {
        made.push(numbers[first as usize + entity as usize])?;
    }
    Ok(made)
}

/// The inclusion of a part in a schema of joined symbols.
pub(crate) fn include(
    alloc: Global,
    part: &Placed,
    numbers: &[u32],
    target: Rc<Schema>,
) -> Result<Mapping, AllocError>
    requires entities { part.now.start.entity + length part.now.schema.entities ≤ length numbers.now }
    requires short { HasShortNumbers part.now }
    requires mapping { (links : List (ℕ × ℕ)) × (numbers.now ≡ map (class_of links) (below (length numbers.now)))
        × GoesInto links target.value part.now }
    ensures { (links : List (ℕ × ℕ)) → numbers.now ≡ map (class_of links) (below (length numbers.now)) → IfOk result (λ
        made. made ≡ inclusion links target.value part.now) }
{
    let start = part.start;
    part.schema.is_well_sorted();
    let source = part.schema.clone()?;
    let entities = class_numbers(alloc, numbers, start.entity, source.entities.len() as u32)?;
    let keys = single_keys(alloc, start.key, source.keys.len() as u32)?;
    let attributes = single_attributes(alloc, start.attribute, source.attributes.len() as u32)?;
    Ok(Mapping {
        source,
        target,
        entities: Seq::from_vec(entities),
        keys: Seq::from_vec(keys),
        attributes: Seq::from_vec(attributes),
    })
}

/// The inclusions of the parts in a schema of joined symbols.
pub(crate) fn include_all(
    alloc: Global,
    parts: &[Placed],
    numbers: &[u32],
    target: &Rc<Schema>,
) -> Result<Vec<Mapping>, AllocError>
    requires entities { All (λ part. part.start.entity + length part.schema.entities ≤ length numbers.now) parts.now }
    requires short { All HasShortNumbers parts.now }
    requires mappings { (links : List (ℕ × ℕ)) × (numbers.now ≡ map (class_of links) (below (length numbers.now)))
        × All (GoesInto links target.now.value) parts.now }
    ensures made { (links : List (ℕ × ℕ)) → numbers.now ≡ map (class_of links) (below (length numbers.now)) → IfOk
        result (λ made. made.items ≡ map (inclusion links target.now.value) parts.now) }
    ensures well_sorted { IfOk result (λ made. All IsMapping made.items) }
{
    let mut made = Vec::new(alloc);
    for part in parts {
        let mapping = include(alloc, part, numbers, target.clone()?)?;
        mapping.is_well_sorted();
        made.push(mapping)?;
    }
    Ok(made)
}
