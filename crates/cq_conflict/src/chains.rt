//! From which steps a told one follows.
ghost use Rattle.std.specs.Prelude.{◌≡◌, ◌∷◌, ◌++◌, [], true, IfOk, IfSome, OnOk, option_copied, slice_get};
ghost use Rattle.cq_steps.specs.declared.step.Rule.TheVariants.{Reflexivity as Reflexive, Symmetry as Turning};
ghost use Rattle.cq_steps.specs.declared.step.Rule.TheVariants.{Transitivity as Joining};
ghost use Rattle.cq_conflict.specs.Told.{AreSeen, Extends, IsBy, IsSeen, Leads};

use crate::marks::is_folded;
use cq_steps::{Rule, Step};
use std::alloc::{AllocError, Global};

/// The two numbers, where there are two.
fn pair(numbers: &[u64]) -> Option<(u64, u64)>
    ensures { IfSome result (λ p. numbers.now ≡ p.0 ∷ p.1 ∷ []) }
{
    match numbers {
        [first, second] => Some((*first, *second)),
        _ => None,
    }
}

/// The one number, where there is one.
fn only(numbers: &[u64]) -> Option<u64>
    ensures { IfSome result (λ p. numbers.now ≡ p ∷ []) }
{
    match numbers {
        [number] => Some(*number),
        _ => None,
    }
}

/// The step of a number.
pub fn step_at(steps: &[Step], number: u64) -> Option<&Step>
    ensures { option_copied result ≡ slice_get steps.now number }
{
    steps.get(number as usize)
}

/// The two premises of a step that joins them.
fn joined(steps: &[Step], number: u64) -> Option<(u64, u64)>
    ensures { IfSome result (λ p. IsBy steps.now number Joining (p.0 ∷ p.1 ∷ [])) }
{
    let Some(step) = step_at(steps, number) else {
        return None;
    };
    match &step.rule {
        Rule::Transitivity => pair(step.from.as_slice()),
        _ => None,
    }
}

/// The premise of a step that turns its equation round.
fn turned(steps: &[Step], number: u64) -> Option<u64>
    ensures { IfSome result (λ p. IsBy steps.now number Turning (p ∷ [])) }
{
    let Some(step) = step_at(steps, number) else {
        return None;
    };
    match &step.rule {
        Rule::Symmetry => only(step.from.as_slice()),
        _ => None,
    }
}

/// Whether the step says that a term equals itself.
fn is_reflexive(steps: &[Step], number: u64) -> bool
    ensures { result ≡ true → IsBy steps.now number Reflexive [] }
{
    let Some(step) = step_at(steps, number) else {
        return false;
    };
    match &step.rule {
        Rule::Reflexivity => step.from.as_slice().is_empty(),
        _ => false,
    }
}

/// Cites a step: none where a term equals itself by it, and the other one where it turns that one round.
fn cite(steps: &[Step], number: u64, cited: &mut Vec<u64>) -> Result<(), AllocError>
    ensures seen { OnOk result (IsSeen steps.now cited.new.items number) }
    ensures more { OnOk result (Extends steps.now cited.old.items cited.new.items) }
{
    if is_reflexive(steps, number) {
        return Ok(());
    }
    match turned(steps, number) {
        Some(other) => cited.push(other)?,
        None => cited.push(number)?,
    }
    Ok(())
}

/// The two premises of a step that joins them and is left out.
fn folded(steps: &[Step], marks: &[u64], number: u64) -> Option<(u64, u64)>
    ensures { IfSome result (λ p. IsBy steps.now number Joining (p.0 ∷ p.1 ∷ [])) }
{
    if is_folded(marks, number) {
        joined(steps, number)
    } else {
        None
    }
}

/// Goes down a chain of steps that each join two, from this one on, as long as they are left out: their second premises
/// and then the first of all are put behind the others.
fn unchain(
    steps: &[Step],
    marks: &[u64],
    first: u64,
    waiting: &mut Vec<u64>,
) -> Result<(), AllocError>
    ensures { OnOk result (Leads steps.now waiting.new.items (waiting.old.items ++ first ∷ [])) }
{
    let mut here = first;
    'chain: for _turn in 0..steps.len() {
        match folded(steps, marks, here) {
            Some((left, right)) => {
                waiting.push(right)?;
                here = left;
            }
            None => break,
        }
    }
    waiting.push(here)?;
    Ok(())
}

/// The steps from which the equation of this one follows, the last of them first.
fn premises_of(
    alloc: Global,
    steps: &[Step],
    marks: &[u64],
    step: &Step,
) -> Result<Vec<u64>, AllocError>
    ensures { IfOk result (λ waiting. Leads steps.now waiting.items step.now.from) }
{
    let from = step.from.as_slice();
    if let Rule::Transitivity = &step.rule {
        if let Some((first, second)) = pair(from) {
            return chain_of(alloc, steps, marks, first, second);
        }
    }
    reversed(alloc, steps, from)
}

/// The premises of a step that joins two.
fn chain_of(
    alloc: Global,
    steps: &[Step],
    marks: &[u64],
    first: u64,
    second: u64,
) -> Result<Vec<u64>, AllocError>
    ensures { IfOk result (λ waiting. Leads steps.now waiting.items (first ∷ second ∷ [])) }
{
    let mut waiting = Vec::new(alloc);
    waiting.push(second)?;
    unchain(steps, marks, first, &mut waiting)?;
    Ok(waiting)
}

/// Numbers of steps, the last one first.
fn reversed(alloc: Global, steps: &[Step], from: &[u64]) -> Result<Vec<u64>, AllocError>
    ensures { IfOk result (λ waiting. Leads steps.now waiting.items from.now) }
{
    let mut waiting = Vec::from_slice(alloc, from)?;
    waiting.reverse();
    Ok(waiting)
}

/// The steps that a told one cites: its premises are seen in them.
pub fn cited_by(
    alloc: Global,
    steps: &[Step],
    marks: &[u64],
    step: &Step,
) -> Result<Vec<u64>, AllocError>
    ensures { IfOk result (λ cited. AreSeen steps.now cited.items step.now.from) }
{
    let mut waiting = premises_of(alloc, steps, marks, step)?;
    let mut cited = Vec::new(alloc);
    'waiting: while let Some(number) = waiting.pop() {
        cite(steps, number, &mut cited)?;
    }
    Ok(cited)
}
