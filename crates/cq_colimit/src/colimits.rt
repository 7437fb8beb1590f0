//! Colimits.
ghost use Rattle.std.specs.Prelude.{List, ◌≡◌, ◌+◌, ◌<◌, ◌≤◌, ◌^◌, ◌⊎◌, All, length, map, IfOk, IfErr, Some, None};
ghost use Rattle.cq_mapping.specs.Duties.{Preserves};
ghost use Rattle.cq_colimit.specs.Placing.{Part, placed as placed_of, entities_in};
ghost use Rattle.cq_colimit.specs.Ends.{links_of};
ghost use Rattle.cq_colimit.specs.Joined.{joined, inclusions, inclusion, framed, with_images};
ghost use Rattle.cq_colimit.specs.Faults.{colimit_fault, joining_fault, sizes_of};
ghost use Rattle.cq_colimit.specs.Frame.{ArePlaced};

use crate::classes::Classes;
use crate::ends::find_links;
use crate::joined::Colimit;
use crate::joining::join;
use crate::placed::{Placed, is_too_many, part_table, place};
use crate::refusal::{ColimitRefusal, of_colimit};
use cq_base::{Name, Names};
use cq_theory::{ColimitParts, Schema, Typeside};
use std::alloc::Global;
use std::rc::Rc;

/// The joined schema of some named schemas over one typeside. Its entities are the classes of the least equivalence
/// that contains the listed pairs, in order of their first members; each is named `PART_ENTITY` by that member. It has
/// all foreign keys and attributes, named `PART_NAME`, and the equations of all parts, in order, and then the added
/// ones. Source: Algebraic Data Integration (colimits of schemas).
///
/// Where parts break rules, the answer is the first fault in this order, or want of memory: equal names of parts,
/// `TooMany`, the pairs, `NameClash`, `LongName`, the path equations and the observation equations.
pub fn colimit(
    alloc: Global,
    typeside: Rc<Typeside>,
    parts: &[(Name, Rc<Schema>)],
    joins: ColimitParts,
) -> Result<Colimit, ColimitRefusal>
    requires over { All (λ part. part.1.value.typeside ≡ typeside.value) parts.now }
    requires parts { length parts.now + length joins.pairs + length joins.path_eqs + length joins.obs_eqs < 2 ^ 32 }
    ensures accepted { IfOk result (λ _.
        colimit_fault typeside.value (map (λ part. (part.0, part.1.value)) parts.now) joins ≡ None) }
    ensures schema { IfOk result (λ made.
        made.schema.value ≡ joined typeside.value (map (λ part. (part.0, part.1.value)) parts.now) joins) }
    ensures inclusions { IfOk result (λ made.
        made.inclusions ≡ inclusions typeside.value (map (λ part. (part.0, part.1.value)) parts.now) joins) }
    ensures preserves { IfOk result (λ made. All Preserves made.inclusions) }
    ensures refused { IfErr result (λ refusal. (refusal ≡ ColimitRefusal.Memory)
        ⊎ (colimit_fault typeside.value (map (λ part. (part.0, part.1.value)) parts.now) joins ≡ Some refusal)) }
{
    let named = part_table(alloc, parts);
    let table = match named {
        Ok(table) => table,
        Err(refusal) => return Err(of_colimit(refusal)),
    };
    let many = is_too_many(parts, joins.path_eqs.len(), joins.obs_eqs.len());
    if many {
        return Err(ColimitRefusal::TooMany);
    }
    let placed = place(alloc, parts)?;
    match join_placed(alloc, typeside, placed, &table, joins) {
        Ok(colimit) => Ok(colimit),
        Err(refusal) => Err(refusal),
    }
}

/// How many entities the parts have.
fn count_entities(parts: &[Placed]) -> u32
    requires { (given : List Part) × (parts.now ≡ placed_of given)
        × (sizes_of (map (λ part. part.1) given) ≤ 1000000) }
    ensures { (given : List Part) → parts.now ≡ placed_of given → result ≡ entities_in given }
{
    match parts.last() {
        Some(part) => entities_through(part),
        None => 0,
    }
}

/// How many entities the parts have up to the last of this part.
fn entities_through(part: &Placed) -> u32
    requires { part.now.start.entity + length part.now.schema.entities ≤ 1000000 }
    ensures { result ≡ part.now.start.entity + length part.now.schema.entities }
{
    part.start.entity + part.schema.entities.len() as u32
}

/// The colimit of parts in their places, which have different names.
fn join_placed(
    alloc: Global,
    typeside: Rc<Typeside>,
    parts: Vec<Placed>,
    table: &Names,
    joins: ColimitParts,
) -> Result<Colimit, ColimitRefusal>
    requires table { table.now ≡ map (λ part. part.name) parts.items }
    requires placed { (given : List Part) × ArePlaced typeside.value given parts.items }
    requires few { length joins.path_eqs + length joins.obs_eqs ≤ 1000000 }
    requires numbers { length parts.items + length joins.pairs + length joins.path_eqs + length joins.obs_eqs < 2 ^ 32 }
    ensures accepted { IfOk result (λ _. joining_fault typeside.value parts.items (links_of parts.items joins.pairs)
        (length parts.items) joins ≡ None) }
    ensures schema { IfOk result (λ made. made.schema.value ≡ with_images (links_of parts.items joins.pairs)
        (framed (links_of parts.items joins.pairs) typeside.value parts.items joins) parts.items) }
    ensures inclusions { IfOk result (λ made. made.inclusions ≡ map (inclusion (links_of parts.items joins.pairs)
        made.schema.value) parts.items) }
    ensures preserves { IfOk result (λ made. All Preserves made.inclusions) }
    ensures refused { IfErr result (λ refusal. (refusal ≡ ColimitRefusal.Memory) ⊎ (joining_fault typeside.value
        parts.items (links_of parts.items joins.pairs) (length parts.items) joins ≡ Some refusal)) }
{
    let entities = count_entities(parts.as_slice());
    let first = parts.len() as u32;
    let found = find_links(
        alloc,
        parts.as_slice(),
        table,
        entities,
        first,
        joins.pairs.as_slice(),
    );
    let links = match found {
        Ok(links) => links,
        Err(refusal) => return Err(of_colimit(refusal)),
    };
    let classes = Classes::new(alloc, entities, links.as_slice())?;
    let next = first + joins.pairs.len() as u32;
    match join(alloc, typeside, parts, classes, next, joins) {
        Ok(colimit) => Ok(colimit),
        Err(refusal) => Err(refusal),
    }
}
