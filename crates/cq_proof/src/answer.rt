//! Why an equation holds in an instance, or that it doesn't.
ghost use Rattle.std.specs.Prelude.{◌↔◌, IfOk, IfSome, IsTrue};
ghost use Rattle.cq_proof.specs.Answers.{IsInitial, IsWellSorted, AreOne, Proves, Explains};

use crate::enumeration::{proves, sought_among_all};
use cq_instance::Instance;
use cq_search::sought::sought;
use cq_steps::Step;
use cq_terms::is_same_value;
use cq_theory::{Equation, Presentation, Schema};
use std::alloc::{AllocError, Global};

/// A derivation whose last step has the equation, or that the two sides are different in the instance.
#[derive(Drop)]
pub enum Answer {
    Steps(Vec<Step>),
    Different,
}

/// A derivation of the equation from the instance's presentation, exactly where both sides have one row or one value in
/// the instance; `Different` exactly where not, and then the equation isn't derivable. The steps are a right list whose
/// last equation is this one. The equation is one over the presentation: its terms are in range, and of one sort. The
/// only refusal is want of memory.
pub fn explain(
    alloc: Global,
    instance: &Instance,
    equation: &Equation,
) -> Result<Answer, AllocError>
    requires initial { IsInitial instance.now }
    requires equation { IsWellSorted instance.now.schema instance.now.presentation equation.now }
    ensures { IfOk result (λ answer. Explains instance.now equation.now answer) }
{
    if !are_one(alloc, instance, equation)? {
        return Ok(Answer::Different);
    }
    let schema = instance.schema();
    let steps = derivation(alloc, schema, instance.presentation(), equation)?;
    Ok(Answer::Steps(steps))
}

/// Whether both sides have one row or one value in the instance.
fn are_one(alloc: Global, instance: &Instance, equation: &Equation) -> Result<bool, AllocError>
    requires { IsWellSorted instance.now.schema instance.now.presentation equation.now }
    ensures { IfOk result (λ one. IsTrue one ↔ AreOne instance.now equation.now) }
{
    match equation {
        Equation::Ent(left, right) => Ok(instance.row_of(left) == instance.row_of(right)),
        Equation::Typ(left, right) => {
            let first = instance.value_of(alloc, left)?;
            let second = instance.value_of(alloc, right)?;
            Ok(is_same_value(&first, &second))
        }
    }
}

/// A list of steps that proves the equation, where the fast search finds one that the checker passes. Nothing is
/// claimed of an equation for which there is none.
pub fn quick_derivation(
    alloc: Global,
    schema: &Schema,
    presentation: &Presentation,
    equation: &Equation,
) -> Result<Option<Vec<Step>>, AllocError>
    ensures { IfOk result (λ found. IfSome found (λ steps. Proves schema.now presentation.now steps.items
        equation.now)) }
{
    if let Some(steps) = sought(alloc, schema, presentation, equation)? {
        if proves(alloc, schema, presentation, steps.as_slice(), equation)? {
            return Ok(Some(steps));
        }
    }
    Ok(None)
}

/// A list of steps that proves the equation: the one that is found fast, if the checker passes it, or else the first
/// one of all there are, which comes too late for anyone to wait for. Where none proves it, memory runs out.
fn derivation(
    alloc: Global,
    schema: &Schema,
    presentation: &Presentation,
    equation: &Equation,
) -> Result<Vec<Step>, AllocError>
    ensures { IfOk result (λ steps. Proves schema.now presentation.now steps.items equation.now) }
{
    if let Some(steps) = quick_derivation(alloc, schema, presentation, equation)? {
        return Ok(steps);
    }
    match sought_among_all(alloc, schema, presentation, equation) {
        Ok(steps) => Ok(steps),
        Err(_) => Err(AllocError),
    }
}
