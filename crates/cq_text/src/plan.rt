//! What is looked up while a literal is written: the numbers of generators, and the edges of each entity.
ghost use Rattle.std.specs.Prelude.{◌≡◌, ◌+◌, ◌<◌, IfOk, length, sum, slice_get};
ghost use Rattle.cq_theory.specs.Tables.{key_at};
ghost use Rattle.cq_theory.specs.Canonical.{row_generator};
ghost use Rattle.cq_text.specs.Spelling.{starts_of, target_of, IsPlan, LeavesRow};

use crate::edges::{attributes_by_entity, keys_by_entity};
use cq_instance::Instance;
use std::alloc::{AllocError, Global};

/// The generators of each entity's first row and of the first null, from 0, and the attributes and the keys of
/// each entity by their numbers.
pub struct Plan {
    pub starts: Vec<u64>,
    pub first_null: u64,
    pub attributes: Vec<Vec<u32>>,
    pub keys: Vec<Vec<u32>>,
}

impl Drop for Plan {
    fn drop(self) {
        let Self {
            starts: _,
            first_null: _,
            attributes: _,
            keys: _,
        } = self;
    }
}

/// The plan of an instance.
pub fn plan_of(alloc: Global, instance: &Instance) -> Result<Plan, AllocError>
    ensures { IfOk result (IsPlan instance.now) }
{
    let counts = instance.sheet().counts.as_slice();
    let (starts, first_null) = find_starts(alloc, counts)?;
    let attributes = attributes_by_entity(alloc, instance)?;
    let keys = keys_by_entity(alloc, instance)?;
    Ok(Plan {
        starts,
        first_null,
        attributes,
        keys,
    })
}

/// The generator of each entity's first row, and that of the first null.
fn find_starts(alloc: Global, counts: &[u32]) -> Result<(Vec<u64>, u64), AllocError>
    ensures starts { IfOk result (λ made. made.0.items ≡ starts_of counts.now) }
    ensures null { IfOk result (λ made. made.1 ≡ sum counts.now) }
{
    let mut starts = Vec::with_capacity(alloc, counts.len())?;
    let mut next = 0u64;
    for count in counts {
        starts.push(next)?;
        next = sum_of(next, u64::from(*count))?;
    }
    Ok((starts, next))
}

/// The sum of two numbers of generators. One past 64 bits is told as want of memory: no memory holds that many
/// rows and nulls.
pub fn sum_of(left: u64, right: u64) -> Result<u64, AllocError>
    ensures { IfOk result (λ total. total ≡ left + right) }
{
    left.checked_add(right).ok_or(AllocError)
}

/// The generator of a row.
pub fn row_number(
    instance: &Instance,
    plan: &Plan,
    entity: u32,
    row: u32,
) -> Result<u64, AllocError>
    requires plan { IsPlan instance.now plan.now }
    requires entity { entity < length instance.now.schema.entities }
    ensures { IfOk result (λ number. number ≡ row_generator instance.now.schema instance.now.tables entity row) }
{
    sum_of(plan.starts[entity as usize], u64::from(row))
}

/// The generator of the row to which a key leads.
pub fn target_number(
    instance: &Instance,
    plan: &Plan,
    key: u32,
    row: u32,
) -> Result<u64, AllocError>
    requires plan { IsPlan instance.now plan.now }
    requires row { LeavesRow instance.now.tables instance.now.schema.keys row key }
    ensures { IfOk result (λ number. number ≡ row_generator instance.now.schema instance.now.tables
        (target_of (slice_get instance.now.schema.keys key)) (key_at instance.now.tables key row)) }
{
    row_number(
        instance,
        plan,
        target(instance, key),
        instance.key(key, row),
    )
}

/// The entity to which a key leads.
fn target(instance: &Instance, key: u32) -> u32
    requires { key < length instance.now.schema.keys }
    ensures entity { result ≡ target_of (slice_get instance.now.schema.keys key) }
    ensures within { result < length instance.now.schema.entities }
{
    instance.schema().keys.as_slice()[key as usize].to
}
