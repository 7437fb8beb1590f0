//! The pairs of entities that are one.
ghost use Rattle.std.specs.Prelude.{◌≡◌, ◌+◌, ◌≤◌, ◌<◌, ◌^◌, ◌⊎◌, All, IfOk, IfErr, IfSome, Some, None, length, map};
ghost use Rattle.cq_colimit.specs.Ends.{end_sort as sort_of_end, end_number as number_of_end, pair_fault, pairs_fault};
ghost use Rattle.std.specs.Prelude.{option_map};
ghost use Rattle.cq_theory.specs.Resolve.{in_part};
ghost use Rattle.cq_colimit.specs.Ends.{link_of, links_of};

use crate::placed::Placed;
use cq_base::{Name, Names};
use cq_theory::lookup::entity_of_sort;
use cq_theory::{Sort, TheoryRefusal};
use std::alloc::Global;

/// The type or entity of an end, in the part's own table.
fn end_sort(parts: &[Placed], table: &Names, end: &(Name, Name)) -> Option<Sort>
    requires { table.now ≡ map (λ part. part.name) parts.now }
    ensures { result ≡ sort_of_end parts.now end.now }
{
    let number = table.find(&end.0)?;
    match parts.get(number as usize) {
        Some(part) => part.schema.find_sort(&end.1),
        None => None,
    }
}

/// The number of an entity of a part among the `entities` of all parts.
fn end_number(parts: &[Placed], table: &Names, entities: u32, end: &(Name, Name)) -> Option<u32>
    requires table { table.now ≡ map (λ part. part.name) parts.now }
    requires fits { All (λ part. part.start.entity + length part.schema.entities ≤ entities) parts.now }
    ensures number { result ≡ number_of_end parts.now end.now }
    ensures within { IfSome result (λ number. number < entities) }
{
    let number = table.find(&end.0)?;
    match parts.get(number as usize) {
        Some(part) => {
            let entity = entity_of_sort(part.schema.find_sort(&end.1))?;
            Some(part.start.entity + entity)
        }
        None => None,
    }
}

/// The numbers of a pair of ends, which is part `number`.
fn find_link(
    parts: &[Placed],
    table: &Names,
    entities: u32,
    number: u32,
    pair: &((Name, Name), (Name, Name)),
) -> Result<(u32, u32), TheoryRefusal>
    requires table { table.now ≡ map (λ part. part.name) parts.now }
    requires fits { All (λ part. part.start.entity + length part.schema.entities ≤ entities) parts.now }
    ensures accepted { IfOk result (λ _. pair_fault parts.now pair.now ≡ None) }
    ensures made { IfOk result (λ link. link ≡ link_of parts.now pair.now) }
    ensures within { IfOk result (λ link. (link.0 < entities) × (link.1 < entities)) }
    ensures refused { IfErr result (λ refusal.
        option_map (in_part number) (pair_fault parts.now pair.now) ≡ Some refusal) }
{
    if end_sort(parts, table, &pair.0).is_none() || end_sort(parts, table, &pair.1).is_none() {
        return Err(TheoryRefusal::Unknown(number));
    }
    let Some(left) = end_number(parts, table, entities, &pair.0) else {
        return Err(TheoryRefusal::WrongSort(number));
    };
    let Some(right) = end_number(parts, table, entities, &pair.1) else {
        return Err(TheoryRefusal::WrongSort(number));
    };
    Ok((left, right))
}

/// The numbers of the pairs, the first of which is part `first`.
pub(crate) fn find_links(
    alloc: Global,
    parts: &[Placed],
    table: &Names,
    entities: u32,
    first: u32,
    pairs: &[((Name, Name), (Name, Name))],
) -> Result<Vec<(u32, u32)>, TheoryRefusal>
    requires table { table.now ≡ map (λ part. part.name) parts.now }
    requires fits { All (λ part. part.start.entity + length part.schema.entities ≤ entities) parts.now }
    requires parts { first + length pairs.now < 2 ^ 32 }
    ensures accepted { IfOk result (λ _. pairs_fault parts.now first pairs.now ≡ None) }
    ensures made { IfOk result (λ links. links.items ≡ links_of parts.now pairs.now) }
    ensures within { IfOk result (λ links. All (λ link. (link.0 < entities) × (link.1 < entities)) links.items) }
    ensures refused { IfErr result (λ refusal. (refusal ≡ TheoryRefusal.Memory)
        ⊎ (pairs_fault parts.now first pairs.now ≡ Some refusal)) }
{
    let mut links = Vec::new(alloc);
    let mut part = first;
    for pair in pairs {
        let link = find_link(parts, table, entities, part, pair)?;
        links.push(link)?;
        part += 1;
    }
    Ok(links)
}
