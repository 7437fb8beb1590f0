//! A derivation of the equation between two constants.
ghost use Rattle.std.specs.Prelude.{◌≡◌, IfOk, IfSome};
ghost use Rattle.cq_proof.specs.Answers.{Proves};
ghost use Rattle.cq_conflict.specs.Conflict.{equation_of_constants};

use cq_proof::quick_derivation;
use cq_steps::Step;
use cq_theory::{Con, Equation, Presentation, Schema, TypeTerm};
use std::alloc::{AllocError, Global};

/// The equation between two constants.
fn between(least: &Con, greater: &Con) -> Result<Equation, AllocError>
    ensures { IfOk result (λ equation. equation ≡ equation_of_constants least.now greater.now) }
{
    let left = TypeTerm::Const(least.clone()?);
    let right = TypeTerm::Const(greater.clone()?);
    Ok(Equation::Typ(left, right))
}

/// A right list of steps that ends with the equation between the two constants: the checker has passed it. Of `None`
/// nothing is claimed: the search found no list that the checker passes.
pub fn conflict(
    alloc: Global,
    schema: &Schema,
    presentation: &Presentation,
    least: &Con,
    greater: &Con,
) -> Result<Option<Vec<Step>>, AllocError>
    ensures { IfOk result (λ found. IfSome found (λ steps. Proves schema.now presentation.now steps.items
        (equation_of_constants least.now greater.now))) }
{
    let equation = between(least, greater)?;
    quick_derivation(alloc, schema, presentation, &equation)
}
