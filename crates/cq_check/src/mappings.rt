//! Whether a mapping preserves the equations of its source.
ghost use Rattle.std.specs.Prelude.{ℕ, ◌≡◌, ◌<◌, ◌≤◌, Err, IfOk, MatchOption, Some, length, map, slice_get};
ghost use Rattle.std.specs.List.{All};
ghost use Rattle.cq_check.specs.Answers.{IsNotPreserved, IsTooDeepDuty, IsTooWideDuty};
ghost use Rattle.cq_check.specs.Entities.{duty_entities, equation_at as equation_in};
ghost use Rattle.cq_check.specs.Entities.{AreDuties, AreMetOver, IsUnmetOver, IsCut};
ghost use Rattle.cq_check.specs.declared.refusal.CheckRefusal.TheVariants.{NotPreserved, Depth, TooManyRows};
ghost use Rattle.cq_mapping.specs.Duties.{Preserves, duties_of, one_generator};

use crate::deciding::{Unmet, first_unmet};
use crate::duties::{number_after, refusal};
use crate::prepared::Prepared;
use crate::refusal::CheckRefusal;
use cq_base::{Name, Seq};
use cq_mapping::{Duty, Mapping};
use cq_theory::{Equation, Groups, Presentation, Schema, Sort};
use std::alloc::{AllocError, Global};

fn target(mapping: &Mapping) -> &Schema
    ensures { result.now ≡ mapping.now.target }
{
    &mapping.target
}

/// How many entities the target has.
fn entity_count(mapping: &Mapping) -> u32
    ensures { result ≡ length mapping.now.target.entities }
{
    mapping.is_well_sorted();
    mapping.target.entities.len() as u32
}

/// One generator of an entity, and no equations.
fn over_one(alloc: Global, entity: u32) -> Result<Presentation, AllocError>
    ensures { IfOk result (λ made. made ≡ one_generator entity) }
{
    let generators = vec![in alloc; (Name::empty(alloc)?, Sort::Entity(entity))]?;
    Ok(Presentation {
        generators: Seq::from_vec(generators),
        equations: Seq::from_vec(Vec::new(alloc)),
    })
}

/// The entity over which each duty is.
fn entities_of(alloc: Global, duties: &[Duty]) -> Result<Vec<u32>, AllocError>
    ensures { IfOk result (λ entities. entities.items ≡ duty_entities duties.now) }
{
    let mut entities = Vec::new(alloc);
    for duty in duties {
        entities.push(duty.schema_entity)?;
    }
    Ok(entities)
}

/// The duties of a mapping, their places by the entity over which they are, and the target, over which they are
/// decided.
struct DutyList<'a> {
    duties: Vec<Duty>,
    by_entity: Groups,
    target: Prepared<'a>,
}

impl Drop for DutyList<'_> {
    fn drop(self) {
        let Self {
            duties: _,
            by_entity: _,
            target: _,
        } = self;
    }
}

fn list_duties<'a>(
    alloc: Global,
    mapping: &'a Mapping,
    duties: Vec<Duty>,
) -> Result<DutyList<'a>, AllocError>
    requires { duties.items ≡ duties_of mapping.now }
    ensures { IfOk result (AreDuties mapping.now) }
{
    mapping.is_well_sorted();
    let entities = entities_of(alloc, &duties)?;
    let by_entity = Groups::new(alloc, entity_count(mapping) as usize, &entities)?;
    let target = Prepared::new(alloc, target(mapping))?;
    Ok(DutyList {
        duties,
        by_entity,
        target,
    })
}

/// The places before the first one that isn't below a bound.
fn places_below(places: &[u32], bound: usize) -> &[u32]
    ensures { IsCut places.now bound result.now }
{
    for (count, place) in places.iter().enumerate() {
        if *place as usize >= bound {
            return &places[..count];
        }
    }
    places
}

fn place_at(places: &[u32], number: usize) -> u32
    requires within { number < length places.now }
    ensures { slice_get places.now number ≡ Some result }
{
    places[number]
}

fn equation_at(duties: &[Duty], place: u32) -> &Equation
    requires within { place < length duties.now }
    ensures { equation_in duties.now place ≡ Some result.now }
{
    &duties[place as usize].equation
}

/// The equations of the duties at some places.
fn equations_at<'a>(
    alloc: Global,
    duties: &'a [Duty],
    places: &[u32],
) -> Result<Vec<&'a Equation>, AllocError>
    requires { All (λ place. place < length duties.now) places.now }
    ensures { IfOk result (λ equations. map (λ e. Some e.now) equations.items
        ≡ map (equation_in duties.now) places.now) }
{
    let mut equations = Vec::new(alloc);
    for place in places {
        equations.push(equation_at(duties, *place))?;
    }
    Ok(equations)
}

/// The first duty over an entity that isn't known to be derivable, of those below a bound.
fn first_over(
    alloc: Global,
    mapping: &Mapping,
    list: &DutyList,
    entity: u32,
    bound: usize,
    depth: u32,
) -> Result<Option<Unmet>, AllocError>
    requires duties { AreDuties mapping.now list.now }
    requires entity { entity < length mapping.now.target.entities }
    requires depth { depth ≤ 64 }
    ensures { IfOk result (λ unmet. MatchOption unmet (AreMetOver mapping.now entity bound)
        (IsUnmetOver mapping.now entity bound depth)) }
{
    mapping.is_well_sorted();
    let places = places_below(list.by_entity.of(entity), bound);
    let over = over_one(alloc, entity)?;
    let equations = equations_at(alloc, &list.duties, places)?;
    let Some(unmet) = first_unmet(alloc, &list.target, &over, &equations, depth)? else {
        return Ok(None);
    };
    let place = place_at(places, unmet.place) as usize;
    let cause = unmet.cause;
    Ok(Some(Unmet { place, cause }))
}

/// Whether each duty of a mapping is derivable, by `equal` up to the given depth, which is at most 64. Those over one
/// entity are decided together; once one isn't known to be derivable, only those before it matter.
pub fn check_mapping(alloc: Global, mapping: &Mapping, depth: u32) -> Result<(), CheckRefusal>
    requires { depth ≤ 64 }
    ensures preserves { IfOk result (λ _. Preserves mapping.now) }
    ensures not_preserved { (n : ℕ) → result ≡ Err (NotPreserved n) → IsNotPreserved mapping.now n }
    ensures deep { (n : ℕ) → result ≡ Err (Depth n) → IsTooDeepDuty mapping.now depth n }
    ensures many { (n : ℕ) → result ≡ Err (TooManyRows n) → IsTooWideDuty mapping.now depth n }
{
    mapping.is_well_sorted();
    let duties = mapping.duties(alloc)?;
    if duties.is_empty() {
        return Ok(());
    }
    let list = list_duties(alloc, mapping, duties)?;
    check_duties(alloc, mapping, &list, depth)
}

/// Whether each of the duties of a mapping is derivable, entity by entity.
fn check_duties(
    alloc: Global,
    mapping: &Mapping,
    list: &DutyList,
    depth: u32,
) -> Result<(), CheckRefusal>
    requires duties { AreDuties mapping.now list.now }
    requires depth { depth ≤ 64 }
    ensures preserves { IfOk result (λ _. Preserves mapping.now) }
    ensures not_preserved { (n : ℕ) → result ≡ Err (NotPreserved n) → IsNotPreserved mapping.now n }
    ensures deep { (n : ℕ) → result ≡ Err (Depth n) → IsTooDeepDuty mapping.now depth n }
    ensures many { (n : ℕ) → result ≡ Err (TooManyRows n) → IsTooWideDuty mapping.now depth n }
{
    mapping.is_well_sorted();
    let mut bound = list.duties.len();
    let mut first = None;
    for entity in 0..entity_count(mapping) {
        let unmet = first_over(alloc, mapping, list, entity, bound, depth)?;
        let Some(unmet) = unmet else {
            continue;
        };
        bound = unmet.place;
        first = Some(unmet.cause);
    }
    let Some(cause) = first else {
        return Ok(());
    };
    let number = number_after(bound as u64)?;
    Err(refusal(cause, number))
}
