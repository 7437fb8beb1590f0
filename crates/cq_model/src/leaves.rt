//! The cells and the generators of types, as the first nodes.
ghost use Rattle.std.specs.Prelude.{ℕ, ◌≡◌, ◌<◌, ◌+◌, ◌*◌, ◌^◌, [], Some, All, map, length, slice_get, slice_index};
ghost use Rattle.std.specs.Prelude.{slice_index_or, IfOk, OnOk};
ghost use Rattle.cq_theory.specs.Canonical.{below};
ghost use Rattle.cq_theory.specs.Groups.{positions};
ghost use Rattle.cq_names.specs.Ranks.{rank};
ghost use Rattle.cq_model.specs.LeafPlaces.{AreFirsts, AddsLeaves, AddsGenerators};

use crate::nodes::NodeList;
use cq_base::{Name, Seq};
use cq_flat::Node;
use cq_theory::Sort;
use std::alloc::{AllocError, Global};

/// The place of the first cell of each row, by the number of the row in tables of `made` rows. `members` has the
/// entity of each row, `attributes` the attributes of each entity, and `starts` the place of each entity's first
/// cell.
pub fn first_places(
    alloc: Global,
    made: u64,
    rows: &[u64],
    members: &[u32],
    attributes: &[Seq<u32>],
    starts: Vec<u64>,
) -> Result<Vec<u64>, AllocError>
    requires rows { All (λ row. row < made) rows.now }
    requires members { All (λ member. member < length attributes.now) members.now }
    requires same { length members.now ≡ length rows.now }
    requires starts { length starts.items ≡ length attributes.now }
    requires once { (i j r : ℕ) → slice_get rows.now i ≡ Some r → slice_get rows.now j ≡ Some r → i ≡ j }
    requires fits { (e : ℕ) → e < length attributes.now
        → slice_index starts.items e + length (positions members.now e) * length
        (slice_index_or attributes.now e []) < 2 ^ 63 }
    ensures firsts { IfOk result (λ firsts. AreFirsts members.now rows.now attributes.now starts.items firsts.items) }
    ensures count { IfOk result (λ firsts. length firsts.items ≡ made) }
{
    let mut next = starts;
    let mut firsts = vec![in alloc; 0u64; made as usize]?;
    for (place, row) in rows.iter().enumerate() {
        let entity = members[place] as usize;
        let first = next[entity];
        firsts[*row as usize] = first;
        next[entity] = first + attributes[entity].len() as u64;
    }
    Ok(firsts)
}

/// The number of each attribute among those of its entity.
pub fn ranks(alloc: Global, entities: usize, sources: &[u32]) -> Result<Vec<u32>, AllocError>
    requires within { All (λ source. source < entities) sources.now }
    requires few { length sources.now < 2 ^ 32 }
    ensures { IfOk result (λ ranks. ranks.items ≡ map (λ a. rank sources.now (slice_index sources.now a) a)
        (below (length sources.now))) }
{
    let mut counts = vec![in alloc; 0u32; entities]?;
    let mut ranks = Vec::new(alloc);
    for source in sources {
        let entity = *source as usize;
        let count = counts[entity];
        ranks.push(count)?;
        counts[entity] = count + 1;
    }
    Ok(ranks)
}

/// A leaf for each of these types.
pub fn push_leaves(list: &mut NodeList, types: &[u32]) -> Result<(), AllocError>
    ensures { OnOk result (AddsLeaves list.old list.new types.now) }
{
    // Most nodes are leaves, and lists that grow by doubling leave holes in the memory.
    list.nodes.reserve_exact(types.len())?;
    list.types.reserve_exact(types.len())?;
    for kind in types {
        list.push(Node::Leaf, *kind)?;
    }
    Ok(())
}

/// A leaf for each generator of a type. The answer has the place of each generator; what it has for one of an entity
/// means nothing.
pub fn push_generators(
    alloc: Global,
    list: &mut NodeList,
    generators: &[(Name, Sort)],
) -> Result<Vec<u64>, AllocError>
    ensures { IfOk result (λ places. AddsGenerators list.old list.new generators.now places.items) }
{
    let mut places = Vec::with_capacity(alloc, generators.len())?;
    for generator in generators {
        let place = match generator.1 {
            Sort::Plain(kind) => list.push(Node::Leaf, kind)?,
            Sort::Entity(_) => 0,
        };
        places.push(place)?;
    }
    Ok(places)
}
