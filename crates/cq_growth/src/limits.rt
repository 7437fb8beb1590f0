//! The last depth at which the rows are not too many.
ghost use Rattle.std.specs.Prelude.{ℕ, ◌≡◌, ◌<◌, ◌≤◌, ◌+◌, IfOk, MatchOption};
ghost use Rattle.cq_rows.specs.Outline.{IsOutline};
ghost use Rattle.cq_rows.specs.Saturated.{IsSaturated, SomeWide};
ghost use Rattle.cq_theory.specs.Presentation.{IsPresentation};
ghost use Rattle.cq_growth.specs.Limits.{IsSoFar, TellsGrowth, growth_of};

use cq_rows::{Outline, Partial, RowsRefusal, saturate_over};
use cq_theory::{Presentation, Schema};
use std::alloc::{AllocError, Global};

/// A depth, and the rows up to it.
pub struct Within {
    pub depth: u32,
    pub rows: Partial,
}

impl Drop for Within {
    fn drop(self) {
        let Self { depth: _, rows: _ } = self;
    }
}

/// How rows grow up to a depth.
pub enum Growth {
    /// They are not too many at any depth up to it.
    Kept,
    /// They are not too many at this depth, and too many at the next.
    Passed(Within),
    /// They are not too many at this depth, and too many at a later one. Those between would take too much memory.
    Later(Within),
    /// The generators alone are too many.
    AtOnce,
}

impl Drop for Growth {
    fn drop(self) {
        match self {
            Self::Kept => (),
            Self::Passed(_) => (),
            Self::Later(_) => (),
            Self::AtOnce => (),
        }
    }
}

/// Where rows were not too many before, and now are.
fn passed(last: Option<Within>) -> Growth
    ensures { result ≡ growth_of last }
{
    match last {
        Some(within) => Growth::Passed(within),
        None => Growth::AtOnce,
    }
}

/// The rows up to a depth, if they are not too many.
fn rows_up_to(
    alloc: Global,
    outline: &Outline,
    schema: &Schema,
    presentation: &Presentation,
    depth: u32,
) -> Result<Option<Partial>, AllocError>
    requires outline { IsOutline schema.now outline.now }
    requires presentation { IsPresentation schema.now presentation.now }
    requires depth { depth ≤ 64 }
    ensures { IfOk result (λ rows. MatchOption rows (SomeWide schema.now presentation.now depth)
        (IsSaturated schema.now presentation.now depth)) }
{
    match saturate_over(alloc, outline, schema, presentation, depth) {
        Ok(rows) => Ok(Some(rows)),
        Err(RowsRefusal::TooManyRows) => Ok(None),
        Err(RowsRefusal::Memory) => Err(AllocError),
    }
}

/// How rows grow behind a depth, where those of the next take too much memory: whether they are too many is known of
/// the last depth without making them, where it is by paths of keys that no equation reads.
fn behind(
    alloc: Global,
    outline: &Outline,
    schema: &Schema,
    presentation: &Presentation,
    depth: u32,
    last: Option<Within>,
) -> Result<Growth, AllocError>
    requires outline { IsOutline schema.now outline.now }
    requires presentation { IsPresentation schema.now presentation.now }
    requires depth { depth ≤ 64 }
    ensures { (stage : ℕ) → stage < depth + 1 → IsSoFar schema.now presentation.now stage last
        → IfOk result (TellsGrowth schema.now presentation.now depth) }
{
    let Some(within) = last else {
        return Err(AllocError);
    };
    match rows_up_to(alloc, outline, schema, presentation, depth)? {
        Some(_) => Ok(Growth::Kept),
        None => Ok(Growth::Later(within)),
    }
}

/// The last depth, up to the given one, at which the rows of a presentation are at most 200,000 at the end of each
/// stage, if there are more at the next, or at a later one where those of the next take too much memory. The rows of
/// each depth are made anew, as those of lesser ones are few.
pub fn last_within(
    alloc: Global,
    schema: &Schema,
    presentation: &Presentation,
    depth: u32,
) -> Result<Growth, AllocError>
    requires presentation { IsPresentation schema.now presentation.now }
    requires depth { depth ≤ 64 }
    ensures { IfOk result (TellsGrowth schema.now presentation.now depth) }
{
    let outline = Outline::new(alloc, schema)?;
    let mut last = None;
    for stage in 0..depth + 1 {
        match saturate_over(alloc, &outline, schema, presentation, stage) {
            Ok(rows) => last = Some(Within { depth: stage, rows }),
            Err(RowsRefusal::TooManyRows) => return Ok(passed(last)),
            Err(RowsRefusal::Memory) => {
                return behind(alloc, &outline, schema, presentation, depth, last);
            }
        }
    }
    Ok(Growth::Kept)
}
