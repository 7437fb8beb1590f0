//! The places of the parts of queries, in the order in which the parts are numbered.
ghost use Rattle.std.specs.Prelude.{◌≡◌, ◌++◌, IfOk, OnOk};
ghost use Rattle.std.specs.List.{flat_map};
ghost use Rattle.cq_parts.specs.Parts.{clause_places, query_places, variable_places};

use crate::placed::{push_all, push_each};
use cq_base::Place;
use cq_syntax::{QueryBlock, QueryLit};
use std::alloc::{AllocError, Global};

/// The places of the parts of a query.
#[tactic(auto, unfolding(crate::specs::Parts::query_places))]
pub fn query_places(alloc: Global, literal: &QueryLit) -> Result<Vec<Place>, AllocError>
    ensures { IfOk result (λ places. places.items ≡ query_places literal.now) }
{
    let mut places = Vec::new(alloc);
    push_each(&mut places, literal.blocks.as_slice())?;
    push_variables(&mut places, literal.blocks.as_slice())?;
    push_clauses(&mut places, literal.blocks.as_slice())?;
    Ok(places)
}

fn push_variables(places: &mut Vec<Place>, blocks: &[QueryBlock]) -> Result<(), AllocError>
    ensures { OnOk result (places.new.items ≡ places.old.items ++ flat_map variable_places blocks.now) }
{
    for block in blocks {
        push_all(places, block.vars.as_slice())?;
    }
    Ok(())
}

fn push_clauses(places: &mut Vec<Place>, blocks: &[QueryBlock]) -> Result<(), AllocError>
    ensures { OnOk result (places.new.items ≡ places.old.items ++ flat_map clause_places blocks.now) }
{
    for block in blocks {
        push_block_clauses(places, block)?;
    }
    Ok(())
}

fn push_block_clauses(places: &mut Vec<Place>, block: &QueryBlock) -> Result<(), AllocError>
    ensures { OnOk result (places.new.items ≡ places.old.items ++ clause_places block.now) }
{
    push_each(places, block.tests.as_slice())?;
    push_each(places, block.attributes.as_slice())?;
    push_all(places, block.keys.as_slice())?;
    Ok(())
}
