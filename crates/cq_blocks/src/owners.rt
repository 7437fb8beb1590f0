//! The entities of the blocks.
ghost use Rattle.std.specs.Prelude.{◌≡◌, ◌-◌, ◌<◌, ◌^◌, ◌⊎◌, ◌++◌, ◌∷◌, [], IfOk, IfErr, Some, None, length, map};
ghost use Rattle.std.specs.Prelude.{option_map};
ghost use Rattle.cq_theory.specs.ArrowRefusals.{of_arrow as refusal_of_arrow, first_missing};
ghost use Rattle.cq_theory.specs.Resolve.{or_else};
ghost use Rattle.cq_blocks.specs.Blocks.{entity_fault as fault_of_entity, entity_named as number_named, block_fault};
ghost use Rattle.cq_blocks.specs.Blocks.{blocks_fault, block_entities};

use cq_base::{Name, Names};
use cq_theory::lookup::{check_given, declare, entity_of_sort, of_arrow};
use cq_theory::{ArrowRefusal, Schema, TheoryRefusal};
use std::alloc::{AllocError, Global};

/// The fault of a part with a name that is none of an entity.
pub(crate) fn entity_fault(schema: &Schema, part: u32, name: &Name) -> Option<TheoryRefusal>
    ensures { result ≡ fault_of_entity schema.now part name.now }
{
    let sort = schema.find_sort(name);
    if sort.is_none() {
        return Some(TheoryRefusal::Unknown(part));
    }
    if entity_of_sort(sort).is_none() {
        return Some(TheoryRefusal::WrongSort(part));
    }
    None
}

/// The entity of a name, where there is one.
pub(crate) fn entity_named(schema: &Schema, name: &Name) -> u32
    ensures { result ≡ number_named schema.now name.now }
{
    match entity_of_sort(schema.find_sort(name)) {
        Some(entity) => entity,
        None => 0,
    }
}

/// Adds the entity of a block to the table of those that have one.
fn add_block(
    target: &Schema,
    table: &mut Names,
    part: u32,
    name: &Name,
) -> Result<(), TheoryRefusal>
    requires { length table.old < 2 ^ 32 - 1 }
    ensures ok { IfOk result (λ _. (block_fault target.now table.old part name.now ≡ None)
        × (table.new ≡ table.old ++ name.now ∷ [])) }
    ensures refused { IfErr result (λ refusal. (refusal ≡ TheoryRefusal.Memory)
        ⊎ (block_fault target.now table.old part name.now ≡ Some refusal)) }
{
    declare(table, part, name)?;
    match entity_fault(target, part, name) {
        Some(refusal) => Err(refusal),
        None => Ok(()),
    }
}

/// The table of the entities that have a block.
fn add_blocks(alloc: Global, target: &Schema, names: &[Name]) -> Result<Names, TheoryRefusal>
    requires { length names.now < 2 ^ 32 }
    ensures accepted { IfOk result (λ _. blocks_fault target.now names.now ≡ None) }
    ensures made { IfOk result (λ table. table ≡ names.now) }
    ensures refused { IfErr result (λ refusal. (refusal ≡ TheoryRefusal.Memory)
        ⊎ (blocks_fault target.now names.now ≡ Some refusal)) }
{
    let mut table = Names::new(alloc);
    let mut part = 0;
    for name in names {
        add_block(target, &mut table, part, name)?;
        part += 1;
    }
    Ok(table)
}

fn build_entities(alloc: Global, target: &Schema, names: &[Name]) -> Result<Vec<u32>, AllocError>
    ensures { IfOk result (λ entities. entities.items ≡ block_entities target.now names.now) }
{
    let mut entities = Vec::new(alloc);
    for name in names {
        entities.push(entity_named(target, name))?;
    }
    Ok(entities)
}

/// The entity of each block, by the names of these entities. The answer is otherwise the first fault of the names, or
/// else the first entity without a block; or want of memory.
pub fn make_entities(
    alloc: Global,
    target: &Schema,
    names: &[Name],
) -> Result<Vec<u32>, ArrowRefusal>
    requires { length names.now < 2 ^ 32 }
    ensures accepted { IfOk result (λ _. (blocks_fault target.now names.now ≡ None)
        × (first_missing names.now target.now.entities ≡ None)) }
    ensures made { IfOk result (λ entities. entities.items ≡ block_entities target.now names.now) }
    ensures refused { IfErr result (λ refusal. (refusal ≡ ArrowRefusal.Memory)
        ⊎ (or_else (option_map refusal_of_arrow (blocks_fault target.now names.now))
        (first_missing names.now target.now.entities) ≡ Some refusal)) }
{
    match add_blocks(alloc, target, names) {
        Ok(given) => finish_entities(alloc, target, &given, names),
        Err(refusal) => Err(of_arrow(refusal)),
    }
}

fn finish_entities(
    alloc: Global,
    target: &Schema,
    given: &Names,
    names: &[Name],
) -> Result<Vec<u32>, ArrowRefusal>
    ensures accepted { IfOk result (λ _. first_missing given.now target.now.entities ≡ None) }
    ensures made { IfOk result (λ entities. entities.items ≡ block_entities target.now names.now) }
    ensures refused { IfErr result (λ refusal. (refusal ≡ ArrowRefusal.Memory)
        ⊎ (first_missing given.now target.now.entities ≡ Some refusal)) }
{
    check_given(given, target.entities.as_slice())?;
    let entities = build_entities(alloc, target, names)?;
    Ok(entities)
}
