//! The search for a list of steps among all there are.
ghost use Rattle.std.specs.Prelude.{◌≡◌, ◌↔◌, IsTrue, IfOk, IfErr, IfSome, IfNone};
ghost use Rattle.cq_proof.specs.Answers.{last_of, Proves};
ghost use Rattle.cq_proof.specs.Drafts.{spelled as spelled_by};
ghost use Rattle.cq_proof.specs.Searching.{AreFirst, AreSpelledBy, NoneIsOf, NoneIsShorter};

use crate::counter::{next, zeros};
use crate::draft::spelled;
use crate::same::is_same;
use cq_steps::{Step, check_steps};
use cq_theory::{Equation, Presentation, Schema};
use std::alloc::{AllocError, Global};

/// Whether the last step has this equation.
fn ends_with(steps: &[Step], equation: &Equation) -> bool
    ensures { IsTrue result ↔ (last_of steps.now ≡ Some equation.now) }
{
    match steps.last() {
        Some(step) => is_same(&step.equation, equation),
        None => false,
    }
}

/// Whether the steps are a right list that ends with the equation, as the checker says.
pub(crate) fn proves(
    alloc: Global,
    schema: &Schema,
    presentation: &Presentation,
    steps: &[Step],
    equation: &Equation,
) -> Result<bool, AllocError>
    ensures { IfOk result (λ proves. IsTrue proves ↔ Proves schema.now presentation.now steps.now equation.now) }
{
    Ok(ends_with(steps, equation) && check_steps(alloc, schema, presentation, steps)?)
}

/// The list of steps that the numbers spell, if it proves the equation.
fn tried(
    alloc: Global,
    schema: &Schema,
    presentation: &Presentation,
    equation: &Equation,
    numbers: &[u64],
) -> Result<Option<Vec<Step>>, AllocError>
    ensures proved { IfOk result (λ found. IfSome found (λ steps. Proves schema.now presentation.now steps.items
        equation.now)) }
    ensures spelled { IfOk result (λ found. IfSome found (λ steps. spelled_by numbers.now ≡ steps.items)) }
    ensures none { IfOk result (λ found. IfNone found (Proves schema.now presentation.now (spelled_by numbers.now)
        equation.now → ⊥)) }
{
    let steps = spelled(alloc, numbers)?;
    if proves(alloc, schema, presentation, steps.as_slice(), equation)? {
        Ok(Some(steps))
    } else {
        Ok(None)
    }
}

/// A list of steps that proves the equation, among those that are spelled by as many numbers, each of which is tried in
/// turn. It is answered that there is none only where none of these lists proves the equation.
pub(crate) fn sought_among(
    alloc: Global,
    schema: &Schema,
    presentation: &Presentation,
    equation: &Equation,
    count: usize,
) -> Result<Option<Vec<Step>>, AllocError>
    ensures proved { IfOk result (λ found. IfSome found (λ steps. Proves schema.now presentation.now steps.items
        equation.now)) }
    ensures spelled { IfOk result (λ found. IfSome found (λ steps. AreSpelledBy schema.now presentation.now
        equation.now count steps.items)) }
    ensures none { IfOk result (λ found. IfNone found (NoneIsOf schema.now presentation.now equation.now count)) }
{
    let mut digits = zeros(alloc, count)?;
    loop {
        match tried(alloc, schema, presentation, equation, digits.as_slice())? {
            Some(steps) => return Ok(Some(steps)),
            None => {
                if !next(digits.as_mut_slice()) {
                    return Ok(None);
                }
            }
        }
    }
}

/// A list of steps that proves the equation, by the lists of ever more numbers, from none on: none that fewer numbers
/// spell proves it. Else the count of numbers at which memory ran out; no list that fewer spell proves the equation.
/// There are 2 ^ 64 lists of one number, so it shows that a list is found, and isn't meant to be waited for.
pub(crate) fn sought_among_all(
    alloc: Global,
    schema: &Schema,
    presentation: &Presentation,
    equation: &Equation,
) -> Result<Vec<Step>, usize>
    ensures first { IfOk result (λ steps. AreFirst schema.now presentation.now equation.now steps.items) }
    ensures none { IfErr result (NoneIsShorter schema.now presentation.now equation.now) }
{
    for count in 0..usize::MAX {
        match sought_among(alloc, schema, presentation, equation, count) {
            Ok(Some(steps)) => return Ok(steps),
            Ok(None) => {}
            Err(_) => return Err(count),
        }
    }
    // No list of more numbers has room in memory.
    Err(usize::MAX)
}
