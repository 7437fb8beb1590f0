//! The blocks that the parts of a query give.
ghost use Rattle.std.specs.Prelude.{ℕ, List, [], ◌≡◌, ◌++◌, ◌<◌, All, IfOk, OnOk, Some, length, map, option_copied};
ghost use Rattle.std.specs.Prelude.{slice_get};
ghost use Rattle.cq_theory.specs.Beginnings.{AreBeginningsOf};
ghost use Rattle.cq_theory.specs.Canonical.{below};
ghost use Rattle.cq_theory.specs.Resolved.{resolved};
ghost use Rattle.cq_theory.specs.Groups.{positions};
ghost use Rattle.cq_blocks.specs.Assigned.{IsAssigned};
ghost use Rattle.cq_blocks.specs.Index.{IsIndex};
ghost use Rattle.cq_blocks.specs.Making.{IsMaking};
ghost use Rattle.cq_theory.specs.EntTerm.{alone as generator_alone};
ghost use Rattle.cq_theory.specs.Groups.{edge_sources};
ghost use Rattle.cq_blocks.specs.Blocks.{names_of, sorts_of, type_made, entity_made, test_made, tests_made};
ghost use Rattle.cq_blocks.specs.Blocks.{scope_or_none, attribute_made, key_made, key_made_at, blocks_made};
ghost use Rattle.cq_blocks.specs.Blocks.{assigned_in};

use crate::assigned::{Assigned, find_assigned, make_assigned};
use crate::block::Block;
use crate::index::{Index, find_attribute};
use crate::making::Making;
use crate::parts::Clause;
use crate::scopes::Scope;
use cq_base::{Name, Raw, Seq};
use cq_theory::lookup::{build, entity_term, make_equation, type_term};
use cq_theory::{Beginnings, Con, Edge, EntTerm, Equation, Schema, Term, TypeTerm, alone};
use std::alloc::{AllocError, Global};

/// The attributes and the foreign keys from an entity.
#[derive(Clone, Copy)]
struct Edges<'a> {
    attributes: &'a [u32],
    keys: &'a [u32],
}

/// The first variable alone, which stands only in parts that break a rule.
fn first_variable(alloc: Global) -> EntTerm
    ensures { result ≡ generator_alone 0 }
{
    alone(alloc, 0)
}

/// The term over the variables of a block.
fn make_term(alloc: Global, source: &Schema, scope: &Scope, raw: &Raw) -> Result<Term, AllocError>
    ensures { IfOk result (λ term. term ≡ resolved source.now (names_of scope.now) (sorts_of scope.now) raw.now) }
{
    build(alloc, source, scope.names(), scope.sorts(), raw)
}

fn make_type(
    alloc: Global,
    source: &Schema,
    scope: Option<&Scope>,
    raw: Option<&Raw>,
) -> Result<TypeTerm, AllocError>
    ensures { IfOk result (λ term. term ≡ type_made source.now (option_copied scope.entry) (option_copied raw.entry)) }
{
    let Some(scope) = scope else {
        return Ok(TypeTerm::Const(Con::Named(0)));
    };
    let Some(raw) = raw else {
        return Ok(TypeTerm::Const(Con::Named(0)));
    };
    let term = make_term(alloc, source, scope, raw)?;
    Ok(type_term(term))
}

fn make_entity(
    alloc: Global,
    source: &Schema,
    scope: Option<&Scope>,
    raw: Option<&Raw>,
) -> Result<EntTerm, AllocError>
    ensures { IfOk result (λ term. term ≡ entity_made source.now (option_copied scope.entry)
        (option_copied raw.entry)) }
{
    let Some(scope) = scope else {
        return Ok(first_variable(alloc));
    };
    let Some(raw) = raw else {
        return Ok(first_variable(alloc));
    };
    let term = make_term(alloc, source, scope, raw)?;
    Ok(entity_term(term))
}

/// Appends the equation of a clause, where it is one.
fn push_test(
    alloc: Global,
    source: &Schema,
    scope: &Scope,
    part: &Clause,
    made: &mut Vec<Equation>,
) -> Result<(), AllocError>
    ensures { OnOk result (made.new.items ≡ made.old.items ++ test_made source.now scope.now part.now) }
{
    match part {
        Clause::Test(left, right) => {
            let left = make_term(alloc, source, scope, left)?;
            let right = make_term(alloc, source, scope, right)?;
            made.push(make_equation(left, right))?;
            Ok(())
        }
        Clause::Att(_, _) => Ok(()),
        Clause::Key(_) => Ok(()),
        Clause::Assign(_, _, _) => Ok(()),
    }
}

/// The same over the variables of an entity's block.
fn push_test_in(
    alloc: Global,
    source: &Schema,
    scopes: &[Scope],
    entity: u32,
    part: &Clause,
    made: &mut Vec<Equation>,
) -> Result<(), AllocError>
    requires { entity < length scopes.now }
    ensures { OnOk result (made.new.items ≡ made.old.items
        ++ test_made source.now (scope_or_none (slice_get scopes.now entity)) part.now) }
{
    push_test(alloc, source, &scopes[entity as usize], part, made)
}

/// That many lists without equations.
fn empty_lists(alloc: Global, count: usize) -> Result<Vec<Vec<Equation>>, AllocError>
    ensures { IfOk result (λ lists. map (λ list. list.items) lists.items ≡ map (λ _. []) (below count)) }
{
    let mut lists = Vec::new(alloc);
    for _number in 0..count {
        lists.push(Vec::new(alloc))?;
    }
    Ok(lists)
}

/// The where equations in the block of each entity.
fn build_tests(
    alloc: Global,
    source: &Schema,
    entities: &[u32],
    scopes: &[Scope],
    clauses: &[(u32, Clause)],
) -> Result<Vec<Vec<Equation>>, AllocError>
    requires entities { All (λ entity. entity < length scopes.now) entities.now }
    requires blocks { All (λ part. part.0 < length entities.now) clauses.now }
    ensures { IfOk result (λ lists. map (λ list. list.items) lists.items ≡ map
        (tests_made source.now entities.now scopes.now clauses.now) (below (length scopes.now))) }
{
    let mut lists = empty_lists(alloc, scopes.len())?;
    for part in clauses {
        let entity = entities[part.0 as usize];
        push_test_in(
            alloc,
            source,
            scopes,
            entity,
            &part.1,
            &mut lists[entity as usize],
        )?;
    }
    Ok(lists)
}

/// The term of an attribute.
fn make_attribute(
    alloc: Global,
    making: &Making,
    index: &Index,
    attribute: u32,
) -> Result<TypeTerm, AllocError>
    requires index { IsIndex making.now.target.now making.now.clauses.now index.now }
    ensures { IfOk result (λ made. made ≡ attribute_made
        making.now.source.now making.now.target.now making.now.scopes.now making.now.clauses.now attribute) }
{
    let target = making.target;
    let Some(edge) = target.attributes.as_slice().get(attribute as usize) else {
        return Ok(TypeTerm::Const(Con::Named(0)));
    };
    let scope = making.scopes.get(edge.from as usize);
    let raw = find_attribute(target, making.clauses, index, attribute);
    let made = make_type(alloc, making.source, scope, raw)?;
    Ok(made)
}

fn build_attributes(
    alloc: Global,
    making: &Making,
    index: &Index,
    attributes: &[u32],
) -> Result<Vec<TypeTerm>, AllocError>
    requires index { IsIndex making.now.target.now making.now.clauses.now index.now }
    ensures { IfOk result (λ made. made.items ≡ map
        (attribute_made making.now.source.now making.now.target.now making.now.scopes.now making.now.clauses.now)
        attributes.now) }
{
    let mut made = Vec::new(alloc);
    for attribute in attributes {
        made.push(make_attribute(alloc, making, index, *attribute)?)?;
    }
    Ok(made)
}

/// The terms that a foreign key assigns to the variables, over those of a block.
fn build_assigned(
    alloc: Global,
    making: &Making,
    scope: Option<&Scope>,
    assigned: &Assigned,
    key: u32,
    vars: &[(Name, u32)],
) -> Result<Vec<EntTerm>, AllocError>
    requires { IsAssigned making.now.target.now making.now.clauses.now key assigned.now }
    ensures { IfOk result (λ made. made.items ≡ map
        (λ v. entity_made making.now.source.now (option_copied scope.entry)
        (assigned_in making.now.target.now making.now.clauses.now key v.0)) vars.now) }
{
    let mut made = Vec::new(alloc);
    for var in vars {
        let raw = find_assigned(making.target, making.clauses, assigned, key, &var.0);
        made.push(make_entity(alloc, making.source, scope, raw)?)?;
    }
    Ok(made)
}

/// The same for the variables of a block, where there is one.
fn build_assigned_to(
    alloc: Global,
    making: &Making,
    from: Option<&Scope>,
    to: Option<&Scope>,
    assigned: &Assigned,
    key: u32,
) -> Result<Vec<EntTerm>, AllocError>
    requires { IsAssigned making.now.target.now making.now.clauses.now key assigned.now }
    ensures { IfOk result (λ made. made.items ≡ map
        (λ v. entity_made making.now.source.now (option_copied from.entry)
        (assigned_in making.now.target.now making.now.clauses.now key v.0))
        (scope_or_none (option_copied to.entry))) }
{
    match to {
        Some(to) => build_assigned(alloc, making, from, assigned, key, to.vars()),
        None => Ok(Vec::new(alloc)),
    }
}

/// The block of an entity.
fn scope_at(scopes: &[Scope], entity: u32) -> Option<&Scope>
    ensures { option_copied result ≡ slice_get scopes.now entity }
{
    scopes.get(entity as usize)
}

/// The terms that a foreign key from block to block assigns.
fn make_key_at(
    alloc: Global,
    making: &Making,
    index: &Index,
    key: u32,
    edge: &Edge,
) -> Result<Vec<EntTerm>, AllocError>
    requires index { IsIndex making.now.target.now making.now.clauses.now index.now }
    requires key { key < length making.now.target.now.keys }
    ensures { IfOk result (λ made. made.items ≡ key_made_at
        making.now.source.now making.now.target.now making.now.scopes.now making.now.clauses.now key (Some edge.now)) }
{
    let from = scope_at(making.scopes, edge.from);
    let to = scope_at(making.scopes, edge.to);
    let assigned = make_assigned(alloc, making.target, making.clauses, index, key)?;
    let terms = build_assigned_to(alloc, making, from, to, &assigned, key)?;
    Ok(terms)
}

fn key_at(target: &Schema, key: u32) -> Option<&Edge>
    ensures { option_copied result ≡ slice_get target.now.keys key }
{
    target.keys.as_slice().get(key as usize)
}

/// The terms that a foreign key assigns to the variables of the block to which it leads.
fn make_key(
    alloc: Global,
    making: &Making,
    index: &Index,
    key: u32,
) -> Result<Vec<EntTerm>, AllocError>
    requires index { IsIndex making.now.target.now making.now.clauses.now index.now }
    ensures { IfOk result (λ made. made.items ≡ key_made
        making.now.source.now making.now.target.now making.now.scopes.now making.now.clauses.now key) }
{
    match key_at(making.target, key) {
        Some(edge) => make_key_at(alloc, making, index, key, edge),
        None => Ok(Vec::new(alloc)),
    }
}

fn build_keys(
    alloc: Global,
    making: &Making,
    index: &Index,
    keys: &[u32],
) -> Result<Vec<Seq<EntTerm>>, AllocError>
    requires index { IsIndex making.now.target.now making.now.clauses.now index.now }
    ensures { IfOk result (λ made. made.items ≡ map
        (key_made making.now.source.now making.now.target.now making.now.scopes.now making.now.clauses.now) keys.now) }
{
    let mut made = Vec::new(alloc);
    for key in keys {
        let terms = make_key(alloc, making, index, *key)?;
        made.push(Seq::from_vec(terms))?;
    }
    Ok(made)
}

fn copy_variables(alloc: Global, vars: &[(Name, u32)]) -> Result<Vec<(Name, u32)>, AllocError>
    ensures { IfOk result (λ made. made.items ≡ vars.now) }
{
    let mut made = Vec::new(alloc);
    for var in vars {
        made.push((var.0.clone()?, var.1))?;
    }
    Ok(made)
}

/// The variables of an entity's block.
fn build_variables(
    alloc: Global,
    scopes: &[Scope],
    entity: u32,
) -> Result<Vec<(Name, u32)>, AllocError>
    requires { entity < length scopes.now }
    ensures { IfOk result (λ made. made.items ≡ scope_or_none (slice_get scopes.now entity)) }
{
    copy_variables(alloc, scopes[entity as usize].vars())
}

/// The block of an entity with these where equations, by the attributes and foreign keys from it.
fn make_block(
    alloc: Global,
    making: &Making,
    index: &Index,
    edges: &Edges,
    entity: u32,
    tests: Vec<Equation>,
) -> Result<Block, AllocError>
    requires index { IsIndex making.now.target.now making.now.clauses.now index.now }
    requires entity { entity < length making.now.scopes.now }
    ensures { IfOk result (λ made. made ≡ record {
      vars = scope_or_none (slice_get making.now.scopes.now entity);
      tests = tests.items;
      attributes = map
          (attribute_made making.now.source.now making.now.target.now making.now.scopes.now making.now.clauses.now)
          edges.now.attributes.now;
      keys = map
          (key_made making.now.source.now making.now.target.now making.now.scopes.now making.now.clauses.now)
          edges.now.keys.now;
    }) }
{
    let vars = build_variables(alloc, making.scopes, entity)?;
    let attributes = build_attributes(alloc, making, index, edges.attributes)?;
    let keys = build_keys(alloc, making, index, edges.keys)?;
    Ok(Block {
        vars: Seq::from_vec(vars),
        tests: Seq::from_vec(tests),
        attributes: Seq::from_vec(attributes),
        keys: Seq::from_vec(keys),
    })
}

/// The block of an entity with these where equations.
fn make_block_at(
    alloc: Global,
    making: &Making,
    index: &Index,
    beginnings: &Beginnings,
    entity: u32,
    tests: Vec<Equation>,
) -> Result<Block, AllocError>
    requires making { IsMaking making.now }
    requires index { IsIndex making.now.target.now making.now.clauses.now index.now }
    requires beginnings { AreBeginningsOf making.now.target.now beginnings.now }
    requires entity { entity < length making.now.target.now.entities }
    ensures { IfOk result (λ made. made ≡ record {
      vars = scope_or_none (slice_get making.now.scopes.now entity);
      tests = tests.items;
      attributes = map
          (attribute_made making.now.source.now making.now.target.now making.now.scopes.now making.now.clauses.now)
          (positions (edge_sources making.now.target.now.attributes) entity);
      keys = map
          (key_made making.now.source.now making.now.target.now making.now.scopes.now making.now.clauses.now)
          (positions (edge_sources making.now.target.now.keys) entity);
    }) }
{
    let attributes = beginnings.attributes.of(entity);
    let keys = beginnings.keys.of(entity);
    let edges = Edges { attributes, keys };
    make_block(alloc, making, index, &edges, entity, tests)
}

/// The blocks of the entities of the target.
pub(crate) fn build_blocks(
    alloc: Global,
    making: &Making,
    index: &Index,
    beginnings: &Beginnings,
) -> Result<Vec<Block>, AllocError>
    requires making { IsMaking making.now }
    requires index { IsIndex making.now.target.now making.now.clauses.now index.now }
    requires beginnings { AreBeginningsOf making.now.target.now beginnings.now }
    ensures { IfOk result (λ made. made.items ≡ blocks_made making.now.source.now making.now.target.now
        making.now.entities.now making.now.scopes.now making.now.clauses.now) }
{
    let lists = build_tests(
        alloc,
        making.source,
        making.entities,
        making.scopes,
        making.clauses,
    )?;
    making.target.is_well_sorted();
    let mut made = Vec::new(alloc);
    for tests in lists {
        let entity = made.len() as u32;
        made.push(make_block_at(alloc, making, index, beginnings, entity, tests)?)?;
    }
    Ok(made)
}
