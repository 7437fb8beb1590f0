//! The first of some equations over one presentation that isn't known to be derivable.
ghost use Rattle.std.specs.Prelude.{ℕ, ◌≡◌, ◌<◌, ◌≤◌, Err, IfOk, MatchOption, Some, false, true};
ghost use Rattle.std.specs.Prelude.{length, map, replicate, slice_get};
ghost use Rattle.cq_check.specs.Asking.{AreWellSorted, AreKnown};
ghost use Rattle.cq_check.specs.Prepared.{IsPrepared};
ghost use Rattle.cq_check.specs.Deciding.{AreDecided, AreAllDerived, IsFirst};
ghost use Rattle.cq_rows.specs.Saturated.{SomeWide};
ghost use Rattle.cq_rows.specs.declared.refusal.RowsRefusal.TheVariants as rows;
ghost use Rattle.cq_theory.specs.Presentation.{IsPresentation};

use crate::asking::MadeRows;
use crate::closing::are_equal;
use crate::prepared::Prepared;
use cq_rows::{RowsRefusal, saturate_over};
use cq_theory::{Equation, Presentation, Schema};
use std::alloc::{AllocError, Global};

/// Why an equation isn't known to be derivable.
#[derive(Clone, Copy)]
pub enum Cause {
    NotDerivable,
    Depth,
    TooManyRows,
}

/// The first equation of a list that isn't known to be derivable.
#[derive(Clone, Copy)]
pub struct Unmet {
    pub place: usize,
    pub cause: Cause,
}

/// Which equations are derived by the rows up to one depth, and whether the others are not derivable at all.
fn decide(
    alloc: Global,
    prepared: &Prepared,
    presentation: &Presentation,
    depth: u32,
    equations: &[&Equation],
    known: &[bool],
) -> Result<(Vec<bool>, bool), RowsRefusal>
    requires prepared { IsPrepared prepared.now }
    requires presentation { IsPresentation prepared.now.schema.now presentation.now }
    requires sorted { AreWellSorted prepared.now.schema.now presentation.now (map (λ e. e.now) equations.now) }
    requires known { AreKnown prepared.now.schema.now presentation.now (map (λ e. e.now) equations.now) known.now }
    requires depth { depth ≤ 64 }
    ensures decided { IfOk result (λ made. AreDecided prepared.now.schema.now presentation.now depth
        (map (λ e. e.now) equations.now) made.0.items made.1) }
    ensures many { result ≡ Err rows.TooManyRows → SomeWide prepared.now.schema.now presentation.now depth }
{
    let schema: &Schema = prepared.schema;
    let partial = saturate_over(alloc, &prepared.outline, schema, presentation, depth)?;
    let entries = partial.generator_rows.as_slice();
    let tables = &partial.tables;
    let rows = MadeRows {
        schema,
        presentation,
        tables,
        entries,
    };
    let answers = are_equal(alloc, &rows, &prepared.observations, equations, known)?;
    Ok((answers, partial.closed))
}

/// The place of the first flag that isn't set.
fn first_unset(flags: &[bool]) -> Option<usize>
    ensures { MatchOption result ((n : ℕ) → n < length flags.now → slice_get flags.now n ≡ Some true)
        (λ place. (slice_get flags.now place ≡ Some false)
        × ((n : ℕ) → n < place → slice_get flags.now n ≡ Some true)) }
{
    for (place, flag) in flags.iter().enumerate() {
        if !*flag {
            return Some(place);
        }
    }
    None
}

/// That many flags that aren't set.
fn no_flags(alloc: Global, count: usize) -> Result<Vec<bool>, AllocError>
    ensures { IfOk result (λ flags. flags.items ≡ replicate count false) }
{
    Ok(vec![in alloc; false; count]?)
}

/// The first equation that isn't derived at some depth up to the given one, which is at most 64. At each depth the rows
/// are made once for all equations that aren't derived at a lesser one.
pub fn first_unmet(
    alloc: Global,
    prepared: &Prepared,
    presentation: &Presentation,
    equations: &[&Equation],
    depth: u32,
) -> Result<Option<Unmet>, AllocError>
    requires prepared { IsPrepared prepared.now }
    requires presentation { IsPresentation prepared.now.schema.now presentation.now }
    requires sorted { AreWellSorted prepared.now.schema.now presentation.now (map (λ e. e.now) equations.now) }
    requires depth { depth ≤ 64 }
    ensures { IfOk result (λ unmet. MatchOption unmet
        (AreAllDerived prepared.now.schema.now presentation.now (map (λ e. e.now) equations.now))
        (IsFirst prepared.now.schema.now presentation.now depth (map (λ e. e.now) equations.now))) }
{
    if equations.len() == 0 {
        return Ok(None);
    }
    let mut known = no_flags(alloc, equations.len())?;
    let mut first = 0;
    for stage in 0..depth + 1 {
        match decide(alloc, prepared, presentation, stage, equations, &known) {
            Ok((answers, closed)) => {
                let Some(place) = first_unset(&answers) else {
                    return Ok(None);
                };
                if closed {
                    let cause = Cause::NotDerivable;
                    return Ok(Some(Unmet { place, cause }));
                }
                first = place;
                known = answers;
            }
            Err(RowsRefusal::TooManyRows) => {
                let cause = Cause::TooManyRows;
                return Ok(Some(Unmet {
                    place: first,
                    cause,
                }));
            }
            Err(RowsRefusal::Memory) => return Err(AllocError),
        }
    }
    let cause = Cause::Depth;
    Ok(Some(Unmet {
        place: first,
        cause,
    }))
}
