//! A duty by its number.
ghost use Rattle.std.specs.Prelude.{ℕ, ◌≡◌, ◌≤◌, ◌<◌, ◌+◌, IfOk, MatchOption, Some, length, slice_get};
ghost use Rattle.cq_mapping.specs.Duties.{duties_of};
ghost use Rattle.cq_query.specs.Duties.{all_duties, duties as duties_at, duties_below};
ghost use Rattle.cq_unmet.specs.Asked.{IsMappingDuty, IsQueryDuty};

use cq_mapping::{Duty, Mapping};
use cq_query::Query;
use cq_theory::{Equation, Presentation, Schema};
use cq_witness::over;
use std::alloc::{AllocError, Global};

/// An equation, and the presentation from which it is to be derivable.
pub struct Asked {
    pub over: Presentation,
    pub equation: Equation,
}

impl Drop for Asked {
    fn drop(self) {
        let Self {
            over: _,
            equation: _,
        } = self;
    }
}

impl Asked {
    /// The presentation and the equation.
    pub fn into_parts(self) -> (Presentation, Equation)
        ensures { result ≡ (self.over, self.equation) }
    {
        let Self { over, equation } = self;
        (over, equation)
    }
}

/// The target of a mapping.
fn target(mapping: &Mapping) -> &Schema
    ensures { result.now ≡ mapping.now.target }
{
    &mapping.target
}

/// The duty of a mapping, over one generator that goes by its entity's name.
fn asked_of(alloc: Global, mapping: &Mapping, duty: Duty) -> Result<Asked, AllocError>
    ensures { (n : ℕ) → slice_get (duties_of mapping.now) n ≡ Some duty → IfOk result (IsMappingDuty mapping.now n) }
{
    mapping.is_well_sorted();
    let Duty {
        schema_entity,
        equation,
    } = duty;
    let over = over(alloc, target(mapping), schema_entity)?;
    Ok(Asked { over, equation })
}

/// The duty of a mapping with this number, from 0. None exactly where there are no more duties.
pub fn mapping_duty(
    alloc: Global,
    mapping: &Mapping,
    number: u64,
) -> Result<Option<Asked>, AllocError>
    ensures { IfOk result (λ found. MatchOption found (length (duties_of mapping.now) ≤ number)
        (IsMappingDuty mapping.now number)) }
{
    let mut duties = mapping.duties(alloc)?;
    if number >= duties.len() as u64 {
        return Ok(None);
    }
    let duty = duties.remove(number as usize);
    let asked = asked_of(alloc, mapping, duty)?;
    Ok(Some(asked))
}

/// The duty of a query's entity with this number among those of the entity.
fn asked_at(
    alloc: Global,
    query: &Query,
    entity: u32,
    mut duties: Vec<Equation>,
    place: usize,
) -> Result<Asked, AllocError>
    requires entity { entity < length query.now.target.entities }
    requires duties { duties.items ≡ duties_at query.now entity }
    requires place { place < length duties.items }
    ensures { IfOk result (IsQueryDuty query.now (length (duties_below query.now entity) + place)) }
{
    let over = query.frozen(alloc, entity)?;
    let equation = duties.remove(place);
    Ok(Asked { over, equation })
}

/// The duty of a query with this number, from 0, through all entities. None exactly where there are no more duties.
pub fn query_duty(alloc: Global, query: &Query, number: u64) -> Result<Option<Asked>, AllocError>
    ensures { IfOk result (λ found. MatchOption found (length (all_duties query.now) ≤ number)
        (IsQueryDuty query.now number)) }
{
    query.is_well_sorted();
    let mut before = 0u64;
    for entity in 0..query.entity_count() {
        let duties = query.duties(alloc, entity)?;
        let count = duties.len() as u64;
        let place = number - before;
        if place < count {
            let asked = asked_at(alloc, query, entity, duties, place as usize)?;
            return Ok(Some(asked));
        }
        before += count;
    }
    Ok(None)
}
