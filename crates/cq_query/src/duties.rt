//! Frozen presentations, and the duties of a query.
ghost use Rattle.std.specs.Prelude.{◌≡◌, ◌<◌, ◌++◌, ◌∷◌, [], map, length, slice_get, IfOk, OnOk, Some};
ghost use Rattle.std.specs.List.{flat_map};
ghost use Rattle.cq_theory.specs.declared.presentation.Sort.TheVariants.{Entity};
ghost use Rattle.cq_theory.specs.Presentation.{IsPresentation};
ghost use Rattle.cq_theory.specs.Groups.{positions};
ghost use Rattle.cq_query.specs.Translation.{key_sources, path_sources, observation_sources, variables_at, tests_at};
ghost use Rattle.cq_query.specs.Translation.{assigned, variable_terms, along, translated};
ghost use Rattle.cq_query.specs.Duties.{equal_terms, frozen as frozen_at, key_duties, path_duties, observation_duties};
ghost use Rattle.cq_query.specs.Duties.{duties as duties_at};
ghost use Rattle.cq_query.specs.Puts.{put_equation};

use crate::copies::copy_equations;
use crate::puts::push_equations;
use crate::query::Query;
use crate::translation::{found_terms, terms_along, translate};
use cq_base::{Name, Seq};
use cq_terms::copy_entity_term;
use cq_theory::{EntTerm, Equation, Presentation, Sort, TypeTerm};
use std::alloc::{AllocError, Global};

impl Query {
    /// The frozen presentation of an entity of the target: the variables of its block as generators, and its where
    /// equations.
    pub fn frozen(&self, alloc: Global, entity: u32) -> Result<Presentation, AllocError>
        requires { entity < length self.now.target.entities }
        ensures frozen { IfOk result (λ made. made ≡ frozen_at self.now entity) }
        ensures presentation { IfOk result (λ made. IsPresentation self.now.source made) }
    {
        self.is_well_sorted();
        frozen_block(alloc, self, entity)
    }

    /// The duties of an entity of the target, in this order: for each foreign key from it, each where equation of the
    /// block to which the key leads, with the assigned terms in place of its variables; for each path equation that
    /// begins at it and each variable of the block where that ends, the equality of the two terms that its sides give
    /// the variable; each observation equation at it, with the query's terms for keys and attributes.
    pub fn duties(&self, alloc: Global, entity: u32) -> Result<Vec<Equation>, AllocError>
        requires { entity < length self.now.target.entities }
        ensures { IfOk result (λ made. made.items ≡ duties_at self.now entity) }
    {
        let mut made = Vec::new(alloc);
        push_key_duties(alloc, self, entity, &mut made)?;
        push_path_duties(alloc, self, entity, &mut made)?;
        push_observation_duties(alloc, self, entity, &mut made)?;
        Ok(made)
    }
}

/// The frozen presentation of a block.
fn frozen_block(alloc: Global, query: &Query, entity: u32) -> Result<Presentation, AllocError>
    ensures { IfOk result (λ made. made ≡ frozen_at query.now entity) }
{
    let Some(block) = query.block(entity) else {
        return Ok(Presentation {
            generators: Seq::from_vec(Vec::new(alloc)),
            equations: Seq::from_vec(Vec::new(alloc)),
        });
    };
    let generators = frozen_generators(alloc, block.vars.as_slice())?;
    let equations = copy_equations(alloc, block.tests.as_slice())?;
    Ok(Presentation {
        generators: Seq::from_vec(generators),
        equations: Seq::from_vec(equations),
    })
}

fn frozen_generators(alloc: Global, vars: &[(Name, u32)]) -> Result<Vec<(Name, Sort)>, AllocError>
    ensures { IfOk result (λ made. made.items ≡ map (λ v. (v.0, Entity v.1)) vars.now) }
{
    let mut made = Vec::new(alloc);
    for var in vars {
        made.push((var.0.clone()?, Sort::Entity(var.1)))?;
    }
    Ok(made)
}

fn push_key_duties(
    alloc: Global,
    query: &Query,
    entity: u32,
    made: &mut Vec<Equation>,
) -> Result<(), AllocError>
    requires { entity < length query.now.target.entities }
    ensures { OnOk result (made.new.items ≡ made.old.items
        ++ flat_map (λ k. key_duties query.now k (slice_get query.now.target.keys k))
        (positions (key_sources query.now) entity)) }
{
    for key in query.keys_from(entity) {
        push_key_duty(alloc, query, *key, made)?;
    }
    Ok(())
}

fn push_key_duty(
    alloc: Global,
    query: &Query,
    key: u32,
    made: &mut Vec<Equation>,
) -> Result<(), AllocError>
    ensures { OnOk result (made.new.items ≡ made.old.items
        ++ key_duties query.now key (slice_get query.now.target.keys key)) }
{
    match query.key(key) {
        Some(edge) => push_assigned_tests(alloc, query, key, edge.to, made),
        None => Ok(()),
    }
}

/// Appends the where equations of an entity's block with the terms that a key assigns in place of the variables.
fn push_assigned_tests(
    alloc: Global,
    query: &Query,
    key: u32,
    entity: u32,
    made: &mut Vec<Equation>,
) -> Result<(), AllocError>
    ensures { OnOk result (made.new.items ≡ made.old.items
        ++ map (put_equation (assigned query.now key)) (tests_at query.now entity)) }
{
    match query.block(entity) {
        Some(block) => push_tests(alloc, query, key, block.tests.as_slice(), made),
        None => Ok(()),
    }
}

/// Appends the equations with the terms that a key assigns in place of the variables.
fn push_tests(
    alloc: Global,
    query: &Query,
    key: u32,
    tests: &[Equation],
    made: &mut Vec<Equation>,
) -> Result<(), AllocError>
    ensures { OnOk result (made.new.items ≡ made.old.items ++ map (put_equation (assigned query.now key)) tests.now) }
{
    match found_terms(query, key) {
        Some(terms) => push_equations(alloc, terms.as_slice(), tests, made),
        None => push_equations(alloc, &[], tests, made),
    }
}

fn push_path_duties(
    alloc: Global,
    query: &Query,
    entity: u32,
    made: &mut Vec<Equation>,
) -> Result<(), AllocError>
    requires { entity < length query.now.target.entities }
    ensures { OnOk result (made.new.items ≡ made.old.items
        ++ flat_map (λ n. path_duties query.now entity (slice_get query.now.target.path_eqs n))
        (positions (path_sources query.now) entity)) }
{
    for number in query.path_eqs_from(entity) {
        push_path_duty(alloc, query, entity, *number, made)?;
    }
    Ok(())
}

fn push_path_duty(
    alloc: Global,
    query: &Query,
    entity: u32,
    number: u32,
    made: &mut Vec<Equation>,
) -> Result<(), AllocError>
    ensures { OnOk result (made.new.items ≡ made.old.items
        ++ path_duties query.now entity (slice_get query.now.target.path_eqs number)) }
{
    match query.path_eq(number) {
        Some(path_eq) => push_sides(
            alloc,
            query,
            entity,
            path_eq.left.as_slice(),
            path_eq.right.as_slice(),
            made,
        ),
        None => Ok(()),
    }
}

/// Appends the equalities of the terms at the ends of two paths.
fn push_sides(
    alloc: Global,
    query: &Query,
    entity: u32,
    left: &[u32],
    right: &[u32],
    made: &mut Vec<Equation>,
) -> Result<(), AllocError>
    ensures { OnOk result (made.new.items ≡ made.old.items
        ++ equal_terms (along query.now (variable_terms query.now entity) left.now)
        (along query.now (variable_terms query.now entity) right.now)) }
{
    let left = terms_along(alloc, query, entity, left)?;
    let right = terms_along(alloc, query, entity, right)?;
    push_equal_terms(alloc, left.as_slice(), right.as_slice(), made)
}

/// Appends the equalities of the terms of two lists that stand beside one another.
pub fn push_equal_terms(
    alloc: Global,
    left: &[EntTerm],
    right: &[EntTerm],
    made: &mut Vec<Equation>,
) -> Result<(), AllocError>
    ensures { OnOk result (made.new.items ≡ made.old.items ++ equal_terms left.now right.now) }
{
    for (place, term) in left.iter().enumerate() {
        let Some(other) = right.get(place) else {
            return Ok(());
        };
        let term = copy_entity_term(alloc, term)?;
        made.push(Equation::Ent(term, copy_entity_term(alloc, other)?))?;
    }
    Ok(())
}

fn push_observation_duties(
    alloc: Global,
    query: &Query,
    entity: u32,
    made: &mut Vec<Equation>,
) -> Result<(), AllocError>
    requires { entity < length query.now.target.entities }
    ensures { OnOk result (made.new.items ≡ made.old.items
        ++ flat_map (λ n. observation_duties query.now entity (slice_get query.now.target.obs_eqs n))
        (positions (observation_sources query.now) entity)) }
{
    for number in query.obs_eqs_from(entity) {
        push_observation_duty(alloc, query, entity, *number, made)?;
    }
    Ok(())
}

fn push_observation_duty(
    alloc: Global,
    query: &Query,
    entity: u32,
    number: u32,
    made: &mut Vec<Equation>,
) -> Result<(), AllocError>
    ensures { OnOk result (made.new.items ≡ made.old.items
        ++ observation_duties query.now entity (slice_get query.now.target.obs_eqs number)) }
{
    match query.obs_eq(number) {
        Some(obs_eq) => push_translated(alloc, query, entity, &obs_eq.left, &obs_eq.right, made),
        None => Ok(()),
    }
}

fn push_translated(
    alloc: Global,
    query: &Query,
    entity: u32,
    left: &TypeTerm,
    right: &TypeTerm,
    made: &mut Vec<Equation>,
) -> Result<(), AllocError>
    ensures { OnOk result (made.new.items ≡ made.old.items
        ++ Equation.Typ (translated query.now (variable_terms query.now entity) left.now)
        (translated query.now (variable_terms query.now entity) right.now) ∷ []) }
{
    let left = translate(alloc, query, entity, left)?;
    let right = translate(alloc, query, entity, right)?;
    made.push(Equation::Typ(left, right))?;
    Ok(())
}
