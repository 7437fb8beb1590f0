//! The blocks of a query, by its parts after the entities.
ghost use Rattle.std.specs.Prelude.{ℕ, ◌≡◌, ◌⊎◌, IfOk, IfErr, Some, None, length};
ghost use Rattle.cq_theory.specs.Beginnings.{AreBeginningsOf};
ghost use Rattle.cq_blocks.specs.Making.{AreBlockParts, IsMaking};
ghost use Rattle.cq_blocks.specs.Blocks.{scopes_of, blocks_made, clauses_and_rest_fault, variables_and_rest_fault};

use crate::block::Block;
use crate::blocks::build_blocks;
use crate::clauses::check_clauses;
use crate::index::make_index;
use crate::missing::check_missing;
use crate::parts::Clause;
use crate::scopes::{Scope, make_scopes};
use cq_base::Name;
use cq_theory::{ArrowRefusal, Beginnings, Schema};
use std::alloc::Global;

/// The entity of each block, and the variables and the clauses of the blocks, of which the first variable is part
/// `first`.
#[derive(Clone, Copy)]
pub struct BlockParts<'a> {
    pub entities: &'a [u32],
    pub first: u32,
    pub vars: &'a [(u32, Name, Name)],
    pub clauses: &'a [(u32, Clause)],
}

/// What the blocks of a query are made of: the schemas, the entity of each block, the variables of each entity's block,
/// and the clauses, of which the first is part `first`.
#[derive(Clone, Copy)]
pub(crate) struct Making<'a> {
    pub source: &'a Schema,
    pub target: &'a Schema,
    pub entities: &'a [u32],
    pub scopes: &'a [Scope],
    pub first: u32,
    pub clauses: &'a [(u32, Clause)],
}

/// The blocks that the clauses give.
fn finish_blocks(alloc: Global, making: &Making) -> Result<(Vec<Block>, Beginnings), ArrowRefusal>
    requires making { IsMaking making.now }
    ensures accepted { IfOk result (λ _. clauses_and_rest_fault making.now.source.now making.now.target.now
        making.now.entities.now making.now.scopes.now making.now.clauses.now making.now.first ≡ None) }
    ensures made { IfOk result (λ made. made.0.items ≡ blocks_made making.now.source.now making.now.target.now
        making.now.entities.now making.now.scopes.now making.now.clauses.now) }
    ensures beginnings { IfOk result (λ made. AreBeginningsOf making.now.target.now made.1) }
    ensures refused { IfErr result (λ refusal. (refusal ≡ ArrowRefusal.Memory)
        ⊎ (clauses_and_rest_fault making.now.source.now making.now.target.now making.now.entities.now
        making.now.scopes.now making.now.clauses.now making.now.first ≡ Some refusal)) }
{
    check_clauses(alloc, making)?;
    let beginnings = Beginnings::of(alloc, making.target)?;
    let index = make_index(alloc, making.target, making.clauses)?;
    check_missing(alloc, making, &index, &beginnings)?;
    let blocks = build_blocks(alloc, making, &index, &beginnings)?;
    Ok((blocks, beginnings))
}

/// The blocks that the variables and the clauses give, one for each entity of the target, with what begins at each of
/// these. The answer is otherwise the first fault, of the variables, then of the clauses in order, and then, entity by
/// entity, of what no clause gives; or want of memory.
pub fn make_blocks(
    alloc: Global,
    source: &Schema,
    target: &Schema,
    parts: &BlockParts,
) -> Result<(Vec<Block>, Beginnings), ArrowRefusal>
    requires parts { AreBlockParts target.now parts.now }
    ensures accepted { IfOk result (λ _. variables_and_rest_fault source.now target.now parts.now.entities.now
        parts.now.first parts.now.vars.now parts.now.clauses.now ≡ None) }
    ensures made { IfOk result (λ made. made.0.items ≡ blocks_made source.now target.now parts.now.entities.now
        (scopes_of source.now parts.now.entities.now (length target.now.entities) parts.now.vars.now)
        parts.now.clauses.now) }
    ensures beginnings { IfOk result (λ made. AreBeginningsOf target.now made.1) }
    ensures refused { IfErr result (λ refusal. (refusal ≡ ArrowRefusal.Memory)
        ⊎ (variables_and_rest_fault source.now target.now parts.now.entities.now parts.now.first parts.now.vars.now
        parts.now.clauses.now ≡ Some refusal)) }
{
    target.is_well_sorted();
    let count = target.entities.len() as u32;
    let scopes = make_scopes(
        alloc,
        source,
        parts.entities,
        count,
        parts.first,
        parts.vars,
    )?;
    let making = Making {
        source,
        target,
        entities: parts.entities,
        scopes: scopes.as_slice(),
        first: parts.first + parts.vars.len() as u32,
        clauses: parts.clauses,
    };
    match finish_blocks(alloc, &making) {
        Ok(made) => Ok(made),
        Err(refusal) => Err(refusal),
    }
}
