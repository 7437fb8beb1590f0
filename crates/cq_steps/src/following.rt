//! Whether an equation follows from its premises: one function a rule.
ghost use Rattle.std.specs.Prelude.{◌≡◌, ◌↔◌, IsTrue, IfOk, Some, slice_get, option_copied};
ghost use Rattle.cq_steps.specs.Right.{equations_at, IsReflexive, IsTurned, IsJoined, IsByKey, IsByAttribute};
ghost use Rattle.cq_steps.specs.Right.{IsByFunction, IsPathAt, IsObsAt};
ghost use Rattle.cq_theory.specs.Sorts.{entity_of as entity_of_term};

use crate::premises::are_between;
use crate::side::{has_sides, is_extended, is_same, left, right};
use crate::sorts::{entity_of, is_ground};
use crate::step::Step;
use cq_terms::is_same_entity_term;
use cq_theory::{EntTerm, Equation, ObsEq, Presentation, Schema, TypeTerm, substitute};
use std::alloc::{AllocError, Global};

/// Whether both sides are one ground term.
pub(crate) fn is_reflexive(
    schema: &Schema,
    presentation: &Presentation,
    equation: &Equation,
) -> bool
    ensures { IsTrue result ↔ IsReflexive schema.now presentation.now equation.now }
{
    is_same(left(equation), right(equation)) && is_ground(schema, presentation, left(equation))
}

/// Whether the equation is the premise with its sides exchanged.
pub(crate) fn is_turned(premise: Option<&Equation>, equation: &Equation) -> bool
    ensures { IsTrue result ↔ IsTurned (option_copied premise.entry) equation.now }
{
    let Some(premise) = premise else {
        return false;
    };
    is_same(left(equation), right(premise)) && is_same(right(equation), left(premise))
}

/// Whether the first premise ends where the second begins, and the equation leads from the one to the other.
pub(crate) fn is_joined(
    first: Option<&Equation>,
    second: Option<&Equation>,
    equation: &Equation,
) -> bool
    ensures { IsTrue result ↔ IsJoined (option_copied first.entry) (option_copied second.entry) equation.now }
{
    let Some(first) = first else {
        return false;
    };
    let Some(second) = second else {
        return false;
    };
    is_same(right(first), left(second))
        && is_same(left(equation), left(first))
        && is_same(right(equation), right(second))
}

/// Whether the equation follows from the premise by a foreign key.
pub(crate) fn is_by_key(
    schema: &Schema,
    presentation: &Presentation,
    key: u32,
    premise: Option<&Equation>,
    equation: &Equation,
) -> bool
    ensures { IsTrue result ↔ IsByKey schema.now presentation.now key (option_copied premise.entry)
        equation.now }
{
    let Some(Equation::Ent(before, with)) = premise else {
        return false;
    };
    let Equation::Ent(first, second) = equation else {
        return false;
    };
    is_extended(first, before, &[key])
        && is_extended(second, with, &[key])
        && is_ground(schema, presentation, left(equation))
}

/// Whether the equation follows from the premise by an attribute.
pub(crate) fn is_by_attribute(
    schema: &Schema,
    presentation: &Presentation,
    attribute: u32,
    premise: Option<&Equation>,
    equation: &Equation,
) -> bool
    ensures { IsTrue result ↔ IsByAttribute schema.now presentation.now attribute (option_copied premise.entry)
        equation.now }
{
    let Some(Equation::Ent(before, with)) = premise else {
        return false;
    };
    let Equation::Typ(TypeTerm::Att(first, at), TypeTerm::Att(second, other)) = equation else {
        return false;
    };
    *first == attribute
        && *second == attribute
        && is_same_entity_term(at, before)
        && is_same_entity_term(other, with)
        && is_ground(schema, presentation, left(equation))
}

/// Whether the step's equation follows from the earlier ones that it names by a function.
pub(crate) fn is_by_function(
    schema: &Schema,
    presentation: &Presentation,
    function: u32,
    earlier: &[Step],
    step: &Step,
) -> bool
    ensures { IsTrue result ↔ IsByFunction schema.now presentation.now function
        (equations_at earlier.now step.now.from) step.now.equation }
{
    let Equation::Typ(TypeTerm::Fun(first, args), TypeTerm::Fun(second, others)) = &step.equation
    else {
        return false;
    };
    *first == function
        && *second == function
        && are_between(
            earlier,
            step.from.as_slice(),
            args.as_slice(),
            others.as_slice(),
        )
        && is_ground(schema, presentation, left(&step.equation))
}

/// Whether the equation is the presentation's of this number.
pub(crate) fn is_given(presentation: &Presentation, number: u64, equation: &Equation) -> bool
    ensures { IsTrue result ↔ (slice_get presentation.now.equations number ≡ Some equation.now) }
{
    match presentation.equations.as_slice().get(number as usize) {
        Some(given) => is_same(left(given), left(equation))
            && is_same(right(given), right(equation)),
        None => false,
    }
}

/// Whether the equation is the path equation of this number, at a term of its entity.
pub(crate) fn is_path_at(
    schema: &Schema,
    presentation: &Presentation,
    number: u32,
    at: &EntTerm,
    equation: &Equation,
) -> bool
    ensures { IsTrue result ↔ IsPathAt schema.now presentation.now number at.now equation.now }
{
    let Some(of) = schema.path_eqs.as_slice().get(number as usize) else {
        return false;
    };
    let Equation::Ent(first, second) = equation else {
        return false;
    };
    is_of_entity(schema, presentation, at, of.entity)
        && is_extended(first, at, of.left.as_slice())
        && is_extended(second, at, of.right.as_slice())
}

/// Whether the equation is the observation equation of this number, at a term of its entity.
pub(crate) fn is_obs_at(
    alloc: Global,
    schema: &Schema,
    presentation: &Presentation,
    number: u32,
    at: &EntTerm,
    equation: &Equation,
) -> Result<bool, AllocError>
    ensures { IfOk result (λ is. IsTrue is ↔ IsObsAt schema.now presentation.now number at.now equation.now) }
{
    let Some(of) = obs_eq_at(schema, number) else {
        return Ok(false);
    };
    if !is_of_entity(schema, presentation, at, of.entity) {
        return Ok(false);
    }
    let left = substitute(alloc, &of.left, at)?;
    let right = substitute(alloc, &of.right, at)?;
    Ok(has_sides(equation, &left, &right))
}

/// The observation equation of a number.
fn obs_eq_at(schema: &Schema, number: u32) -> Option<&ObsEq>
    ensures { option_copied result ≡ slice_get schema.now.obs_eqs number }
{
    schema.obs_eqs.as_slice().get(number as usize)
}

/// Whether the term is one of this entity.
fn is_of_entity(schema: &Schema, presentation: &Presentation, term: &EntTerm, entity: u32) -> bool
    ensures { IsTrue result ↔ (entity_of_term schema.now presentation.now.generators term.now ≡ Some entity) }
{
    match entity_of(schema, presentation.generators.as_slice(), term) {
        Some(found) => found == entity,
        None => false,
    }
}
