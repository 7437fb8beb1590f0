//! The composite of two queries: one query that asks what the second asks of the answers of the first.
ghost use Rattle.std.specs.Prelude.{ℕ, true, false, ◌≡◌, ◌++◌, ◌<◌, ◌≤◌, ◌^◌, IfOk, IfErr, OnOk, Some, MatchOption};
ghost use Rattle.std.specs.Prelude.{length, map, slice_get, sum};
ghost use Rattle.std.specs.List.{flat_map, enumerate_from, list_any};
ghost use Rattle.cq_theory.specs.Canonical.{below};
ghost use Rattle.cq_query.specs.Puts.{put_equation};
ghost use Rattle.cq_theory.specs.Tables.{Tables};
ghost use Rattle.cq_query.specs.Answers.{IsEval};
ghost use Rattle.cq_query.specs.Duties.{Sound};
ghost use Rattle.cq_query.specs.IsQuery.{IsQuery};
ghost use Rattle.cq_query.specs.Translation.{variables_at, tests_at};
ghost use Rattle.cq_compose.specs.Composite.{components, composite_block, composite, translated, translated_test};
ghost use Rattle.cq_compose.specs.Composite.{is_large_block as is_block_large, is_large as is_query_large};
ghost use Rattle.cq_compose.specs.Counting.{widths, start_in, has_long_term as is_term_long};
ghost use Rattle.cq_compose.specs.Frame.{IsFrame, terms_of};
ghost use Rattle.cq_compose.specs.Sizes.{TellsSize};

use crate::frame::{Frame, width_at};
use crate::lengths::{any_long_attribute, any_long_key, any_long_test};
use crate::numbered::number_entities;
use crate::terms::{all_components, push_put_tests, push_translated_test, translate};
use cq_base::{Name, Seq};
use cq_query::{Block, Query};
use cq_theory::{EntTerm, Equation, MOST_GENERATORS, SizeRefusal, TypeTerm, alone};
use std::alloc::{AllocError, Global};

/// The first component of each of the variables, if there are at most 16,000,000 components.
fn find_starts(
    alloc: Global,
    first: &Query,
    vars: &[(Name, u32)],
) -> Result<Option<Vec<u32>>, AllocError>
    ensures { IfOk result (λ found. MatchOption found (16000000 < sum (widths first.now vars.now))
        (λ starts. (starts.items ≡ map (start_in first.now vars.now) (below (length vars.now)))
        × (sum (widths first.now vars.now) ≤ 16000000))) }
{
    first.is_well_sorted();
    let mut starts = Vec::with_capacity(alloc, vars.len())?;
    let mut total = 0;
    for var in vars {
        let start = total as u32;
        starts.push(start)?;
        let width = width_at(first, var.1);
        total += width;
        if total > MOST_GENERATORS as usize {
            return Ok(None);
        }
    }
    Ok(Some(starts))
}

/// Appends the entities of variables.
fn push_vars(vars: &[(Name, u32)], made: &mut Vec<u32>) -> Result<(), AllocError>
    ensures { OnOk result (made.new.items ≡ made.old.items ++ map (λ v. v.1) vars.now) }
{
    for var in vars {
        made.push(var.1)?;
    }
    Ok(())
}

/// Appends the entities of the variables of a block.
fn push_entities(query: &Query, entity: u32, made: &mut Vec<u32>) -> Result<(), AllocError>
    ensures { OnOk result (made.new.items ≡ made.old.items ++ map (λ v. v.1) (variables_at query.now entity)) }
{
    match query.block(entity) {
        Some(block) => push_vars(block.vars.as_slice(), made),
        None => push_vars(&[], made),
    }
}

/// The entities of the components of the variables, variable by variable.
fn find_entities(alloc: Global, first: &Query, vars: &[(Name, u32)]) -> Result<Vec<u32>, AllocError>
    ensures { IfOk result (λ made. made.items
        ≡ flat_map (λ y. map (λ v. v.1) (variables_at first.now y.1)) vars.now) }
{
    let mut made = Vec::new(alloc);
    for var in vars {
        push_entities(first, var.1, &mut made)?;
    }
    Ok(made)
}

/// Appends the first query's where equations of an entity on the components of a variable.
fn push_variable_tests(
    alloc: Global,
    frame: &Frame,
    variable: u32,
    entity: u32,
    made: &mut Vec<Equation>,
) -> Result<(), AllocError>
    requires { IsFrame frame.now }
    ensures { OnOk result (made.new.items ≡ made.old.items ++ map (put_equation
        (components frame.now.first.now frame.now.second.now frame.now.entity variable))
        (tests_at frame.now.first.now entity)) }
{
    match frame.first.block(entity) {
        Some(block) => {
            let at = alone(alloc, variable);
            push_put_tests(alloc, frame, &at, block.tests.as_slice(), made)
        }
        None => push_put_tests(alloc, frame, &alone(alloc, variable), &[], made),
    }
}

/// Appends the first query's where equations on the components of each of the variables.
fn push_first_tests(
    alloc: Global,
    frame: &Frame,
    vars: &[(Name, u32)],
    made: &mut Vec<Equation>,
) -> Result<(), AllocError>
    requires frame { IsFrame frame.now }
    requires few { length vars.now < 2 ^ 32 }
    ensures { OnOk result (made.new.items ≡ made.old.items ++ flat_map (λ y. map (put_equation
        (components frame.now.first.now frame.now.second.now frame.now.entity y.0))
        (tests_at frame.now.first.now y.1.1)) (enumerate_from 0 vars.now)) }
{
    let mut variable = 0;
    for var in vars {
        push_variable_tests(alloc, frame, variable, var.1, made)?;
        variable += 1;
    }
    Ok(())
}

/// Appends the equations that the second query's where equations give.
fn push_second_tests(
    alloc: Global,
    frame: &Frame,
    tests: &[Equation],
    made: &mut Vec<Equation>,
) -> Result<(), AllocError>
    requires { IsFrame frame.now }
    ensures { OnOk result (made.new.items ≡ made.old.items ++ flat_map
        (translated_test frame.now.first.now frame.now.second.now frame.now.entity) tests.now) }
{
    for test in tests {
        push_translated_test(alloc, frame, test, made)?;
    }
    Ok(())
}

/// The translations of the terms of attributes.
fn build_attributes(
    alloc: Global,
    frame: &Frame,
    terms: &[TypeTerm],
) -> Result<Vec<TypeTerm>, AllocError>
    requires { IsFrame frame.now }
    ensures { IfOk result (λ made. made.items
        ≡ map (translated frame.now.first.now frame.now.second.now frame.now.entity) terms.now) }
{
    let mut made = Vec::with_capacity(alloc, terms.len())?;
    for term in terms {
        made.push(translate(alloc, frame, term)?)?;
    }
    Ok(made)
}

/// The components of the terms of each foreign key.
fn build_keys(
    alloc: Global,
    frame: &Frame,
    keys: &[Seq<EntTerm>],
) -> Result<Vec<Seq<EntTerm>>, AllocError>
    requires { IsFrame frame.now }
    ensures { IfOk result (λ made. made.items ≡ map (flat_map (terms_of frame.now)) keys.now) }
{
    let mut made = Vec::with_capacity(alloc, keys.len())?;
    for terms in keys {
        let terms = all_components(alloc, frame, terms.as_slice())?;
        made.push(Seq::from_vec(terms))?;
    }
    Ok(made)
}

/// Whether a term of the composite's block of an entity has over 1,024 symbols.
fn has_long_term(frame: &Frame, block: &Block) -> bool
    ensures { result ≡ is_term_long frame.now.first.now frame.now.second.now frame.now.entity block.now }
{
    any_long_test(frame, block.tests.as_slice())
        || any_long_attribute(frame, block.attributes.as_slice())
        || any_long_key(frame, block.keys.as_slice())
}

/// The composite's block of an entity.
fn build_block(alloc: Global, frame: &Frame, block: &Block) -> Result<Block, AllocError>
    requires frame { IsFrame frame.now }
    requires second { IsQuery frame.now.second.now }
    requires there { slice_get frame.now.second.now.blocks frame.now.entity ≡ Some block.now }
    ensures { IfOk result (λ made. made
        ≡ composite_block frame.now.first.now frame.now.second.now (frame.now.entity, block.now)) }
{
    let entities = find_entities(alloc, frame.first, block.vars.as_slice())?;
    let vars = number_entities(alloc, entities.as_slice())?;
    let mut tests = Vec::new(alloc);
    push_first_tests(alloc, frame, block.vars.as_slice(), &mut tests)?;
    push_second_tests(alloc, frame, block.tests.as_slice(), &mut tests)?;
    let attributes = build_attributes(alloc, frame, block.attributes.as_slice())?;
    let keys = build_keys(alloc, frame, block.keys.as_slice())?;
    Ok(Block {
        vars: Seq::from_vec(vars),
        tests: Seq::from_vec(tests),
        attributes: Seq::from_vec(attributes),
        keys: Seq::from_vec(keys),
    })
}

/// The composite's block of an entity, if no term of it has over 1,024 symbols.
fn build_small(alloc: Global, frame: &Frame, block: &Block) -> Result<Option<Block>, AllocError>
    requires frame { IsFrame frame.now }
    requires second { IsQuery frame.now.second.now }
    requires there { slice_get frame.now.second.now.blocks frame.now.entity ≡ Some block.now }
    ensures { IfOk result (λ found. MatchOption found
        (is_term_long frame.now.first.now frame.now.second.now frame.now.entity block.now ≡ true)
        (λ made. (made ≡ composite_block frame.now.first.now frame.now.second.now (frame.now.entity, block.now))
        × (is_term_long frame.now.first.now frame.now.second.now frame.now.entity block.now ≡ false))) }
{
    if has_long_term(frame, block) {
        return Ok(None);
    }
    Ok(Some(build_block(alloc, frame, block)?))
}

/// Two queries, of which the second asks of the answers of the first.
#[derive(Clone, Copy)]
struct Pair<'a> {
    first: &'a Query,
    second: &'a Query,
}

/// Whether the composite's block of an entity is too large.
fn is_large_block(
    alloc: Global,
    pair: &Pair,
    entity: u32,
    block: &Block,
) -> Result<bool, AllocError>
    requires { slice_get pair.now.second.now.blocks entity ≡ Some block.now }
    ensures { IfOk result (λ large. large
        ≡ is_block_large (composite_block pair.now.first.now pair.now.second.now (entity, block.now))) }
{
    let first = pair.first;
    let second = pair.second;
    first.is_well_sorted();
    second.is_well_sorted();
    let found = find_starts(alloc, first, block.vars.as_slice())?;
    match found {
        None => Ok(true),
        Some(starts) => {
            let frame = Frame {
                first,
                second,
                entity,
                starts: starts.as_slice(),
            };
            Ok(has_long_term(&frame, block))
        }
    }
}

/// The composite's block of an entity, if it is not too large.
fn compose_block(
    alloc: Global,
    pair: &Pair,
    entity: u32,
    block: &Block,
) -> Result<Option<Block>, AllocError>
    requires { slice_get pair.now.second.now.blocks entity ≡ Some block.now }
    ensures { IfOk result (λ found. MatchOption found
        (is_block_large (composite_block pair.now.first.now pair.now.second.now (entity, block.now)) ≡ true)
        (λ made. (made ≡ composite_block pair.now.first.now pair.now.second.now (entity, block.now))
        × (is_block_large (composite_block pair.now.first.now pair.now.second.now (entity, block.now)) ≡ false))) }
{
    let first = pair.first;
    let second = pair.second;
    first.is_well_sorted();
    second.is_well_sorted();
    let found = find_starts(alloc, first, block.vars.as_slice())?;
    match found {
        None => Ok(None),
        Some(starts) => {
            let frame = Frame {
                first,
                second,
                entity,
                starts: starts.as_slice(),
            };
            build_small(alloc, &frame, block)
        }
    }
}

/// Whether a block of the composite is too large.
fn is_large(alloc: Global, pair: &Pair) -> Result<bool, AllocError>
    ensures { IfOk result (λ large. large ≡ is_query_large (composite pair.now.first.now pair.now.second.now)) }
{
    let second = pair.second;
    second.is_well_sorted();
    for (entity, block) in second.blocks.as_slice().iter().enumerate() {
        if is_large_block(alloc, pair, entity as u32, block)? {
            return Ok(true);
        }
    }
    Ok(false)
}

/// The blocks of the composite, of which none is too large.
fn compose_blocks(alloc: Global, pair: &Pair) -> Result<Vec<Block>, SizeRefusal>
    ensures made { IfOk result (λ made. made.items ≡ (composite pair.now.first.now pair.now.second.now).blocks) }
    ensures refused { IfErr result (TellsSize (is_query_large (composite pair.now.first.now pair.now.second.now))) }
{
    let second = pair.second;
    second.is_well_sorted();
    let mut made = Vec::new(alloc);
    for (entity, block) in second.blocks.as_slice().iter().enumerate() {
        let found = compose_block(alloc, pair, entity as u32, block)?;
        match found {
            None => return Err(SizeRefusal::TooLarge),
            Some(composed) => made.push(composed)?,
        }
    }
    Ok(made)
}

/// The composite of two queries, of which the second goes from where the first goes: for each variable of the second
/// query's block the variables of the first query's block, its where equations on them and then the translations of
/// the second's, the translations of its terms for attributes, and the components of its terms for foreign keys
/// (Schultz and Wisnesky, Algebraic Data Integration: composition of uber-flower queries). It is refused as too large
/// exactly where one of its blocks has over 16,000,000 variables or a term of over 1,024 symbols. Variables and symbols
/// are counted before any are made.
pub fn compose_query(alloc: Global, first: &Query, second: &Query) -> Result<Query, SizeRefusal>
    requires { second.now.source ≡ first.now.target }
    ensures composite { IfOk result (λ made. made ≡ composite first.now second.now) }
    ensures fits { IfOk result (λ _. is_query_large (composite first.now second.now) ≡ false) }
    ensures refused { IfErr result (TellsSize (is_query_large (composite first.now second.now))) }
    // If both queries are sound, the composite is.
    ensures sound { IfOk result (λ made. Sound first.now → Sound second.now → Sound made) }
    // The composite answers the tables that the second query answers over those that the first answers.
    ensures evals { IfOk result (λ made. (M N R : Tables) → IsEval first.now M N → IsEval second.now N R
        → IsEval made M R) }
{
    first.is_well_sorted();
    second.is_well_sorted();
    let pair = Pair { first, second };
    if is_large(alloc, &pair)? {
        return Err(SizeRefusal::TooLarge);
    }
    let blocks = compose_blocks(alloc, &pair)?;
    let source = first.source.clone()?;
    let target = second.target.clone()?;
    match Query::of_blocks(alloc, source, target, Seq::from_vec(blocks)) {
        Ok(query) => Ok(query),
        Err(error) => Err(SizeRefusal::from(error)),
    }
}
