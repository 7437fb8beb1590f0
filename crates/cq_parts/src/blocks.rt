//! The parts that the literals of queries give. Variables and clauses have the number of their block.
ghost use Rattle.std.specs.Prelude.{◌≡◌, ◌<◌, ◌^◌, ◌++◌, IfOk, OnOk, length, map};
ghost use Rattle.std.specs.List.{enumerate_from, flat_map};
ghost use Rattle.cq_parts.specs.Parts.{assign_clause, attribute_clause, block_clauses, block_variables, key_clauses};
ghost use Rattle.cq_parts.specs.Parts.{query_parts, test_clause, variable_parts};

use crate::copied::{HasPart, parts_of_each};
use crate::raw::copy_raw;
use cq_base::{Name, Raw, Seq};
use cq_blocks::{Clause, QueryParts};
use cq_syntax::{Bind, EqSyn, GroupSyn, QueryBlock, QueryKey, QueryLit};
use std::alloc::{AllocError, Global};

/// The parts of a query.
#[tactic(auto, unfolding(crate::specs::Parts::query_parts))]
pub fn query_parts(alloc: Global, literal: &QueryLit) -> Result<QueryParts, AllocError>
    requires { length literal.now.blocks < 2 ^ 32 }
    ensures { IfOk result (λ parts. parts ≡ query_parts literal.now) }
{
    let entities = parts_of_each(alloc, literal.blocks.as_slice())?;
    let vars = variables_in(alloc, literal.blocks.as_slice())?;
    let clauses = clauses_in(alloc, literal.blocks.as_slice())?;
    Ok(QueryParts {
        entities,
        vars,
        clauses,
    })
}

impl HasPart for QueryBlock {
    type Part = Name;

    ghost part_of = { λ b. b.entity };

    fn part(&self, _alloc: Global) -> Result<Name, AllocError> {
        self.entity.clone()
    }
}

fn variables_in(alloc: Global, blocks: &[QueryBlock]) -> Result<Seq<(u32, Name, Name)>, AllocError>
    requires { length blocks.now < 2 ^ 32 }
    ensures { IfOk result (λ parts. parts ≡ flat_map block_variables (enumerate_from 0 blocks.now)) }
{
    let mut parts = Vec::new(alloc);
    for (number, block) in blocks.iter().enumerate() {
        push_variables(&mut parts, number as u32, block.vars.as_slice())?;
    }
    Ok(Seq::from_vec(parts))
}

fn push_variables(
    parts: &mut Vec<(u32, Name, Name)>,
    block: u32,
    groups: &[GroupSyn],
) -> Result<(), AllocError>
    ensures { OnOk result (parts.new.items ≡ parts.old.items ++ flat_map (variable_parts block) groups.now) }
{
    for group in groups {
        push_variable_group(parts, block, group)?;
    }
    Ok(())
}

fn push_variable_group(
    parts: &mut Vec<(u32, Name, Name)>,
    block: u32,
    group: &GroupSyn,
) -> Result<(), AllocError>
    ensures { OnOk result (parts.new.items ≡ parts.old.items ++ variable_parts block group.now) }
{
    for spot in group.names.as_slice() {
        parts.push((block, spot.name.clone()?, group.sort.clone()?))?;
    }
    Ok(())
}

fn clauses_in(alloc: Global, blocks: &[QueryBlock]) -> Result<Seq<(u32, Clause)>, AllocError>
    requires { length blocks.now < 2 ^ 32 }
    ensures { IfOk result (λ parts. parts ≡ flat_map block_clauses (enumerate_from 0 blocks.now)) }
{
    let mut parts = Vec::new(alloc);
    for (number, block) in blocks.iter().enumerate() {
        push_clauses(alloc, &mut parts, number as u32, block)?;
    }
    Ok(Seq::from_vec(parts))
}

fn push_clauses(
    alloc: Global,
    parts: &mut Vec<(u32, Clause)>,
    number: u32,
    block: &QueryBlock,
) -> Result<(), AllocError>
    ensures { OnOk result (parts.new.items ≡ parts.old.items ++ block_clauses (number, block.now)) }
{
    push_tests(alloc, parts, number, block.tests.as_slice())?;
    push_attributes(alloc, parts, number, block.attributes.as_slice())?;
    push_keys(alloc, parts, number, block.keys.as_slice())?;
    Ok(())
}

fn push_tests(
    alloc: Global,
    parts: &mut Vec<(u32, Clause)>,
    block: u32,
    tests: &[EqSyn],
) -> Result<(), AllocError>
    ensures { OnOk result (parts.new.items ≡ parts.old.items ++ map (test_clause block) tests.now) }
{
    for test in tests {
        let left = copy_raw(alloc, &test.left.raw)?;
        let right = copy_raw(alloc, &test.right.raw)?;
        parts.push((block, Clause::Test(left, right)))?;
    }
    Ok(())
}

fn push_attributes(
    alloc: Global,
    parts: &mut Vec<(u32, Clause)>,
    block: u32,
    binds: &[Bind],
) -> Result<(), AllocError>
    ensures { OnOk result (parts.new.items ≡ parts.old.items ++ map (attribute_clause block) binds.now) }
{
    for bind in binds {
        let raw = copy_raw(alloc, &bind.term.raw)?;
        parts.push((block, Clause::Att(bind.name.clone()?, raw)))?;
    }
    Ok(())
}

fn push_keys(
    alloc: Global,
    parts: &mut Vec<(u32, Clause)>,
    block: u32,
    keys: &[QueryKey],
) -> Result<(), AllocError>
    ensures { OnOk result (parts.new.items ≡ parts.old.items ++ flat_map (key_clauses block) keys.now) }
{
    for key in keys {
        push_key(alloc, parts, block, key)?;
    }
    Ok(())
}

fn push_key(
    alloc: Global,
    parts: &mut Vec<(u32, Clause)>,
    block: u32,
    key: &QueryKey,
) -> Result<(), AllocError>
    ensures { OnOk result (parts.new.items ≡ parts.old.items ++ key_clauses block key.now) }
{
    parts.push((block, Clause::Key(key.name.clone()?)))?;
    push_assigns(alloc, parts, block, &key.name, key.assigns.as_slice())?;
    Ok(())
}

fn push_assigns(
    alloc: Global,
    parts: &mut Vec<(u32, Clause)>,
    block: u32,
    key: &Name,
    binds: &[Bind],
) -> Result<(), AllocError>
    ensures { OnOk result (parts.new.items ≡ parts.old.items ++ map (assign_clause block key.now) binds.now) }
{
    for bind in binds {
        parts.push((block, assignment(alloc, key, bind)?))?;
    }
    Ok(())
}

/// The clause of a term that a foreign key assigns.
fn assignment(alloc: Global, key: &Name, bind: &Bind) -> Result<Clause, AllocError>
    ensures { IfOk result (λ clause. clause ≡ Clause.Assign key.now bind.now.name bind.now.term.raw) }
{
    let key = key.clone()?;
    let name = bind.name.clone()?;
    let raw = copy_raw(alloc, &bind.term.raw)?;
    Ok(Clause::Assign(key, name, raw))
}
