//! Steps that nothing uses are left out of a list.
use cq_base::Seq;
use cq_steps::Step;
use std::alloc::{AllocError, Global};

/// The steps on which the last one rests, numbered anew.
pub fn pruned(alloc: Global, steps: Vec<Step>) -> Result<Vec<Step>, AllocError> {
    let used = used_steps(alloc, steps.as_slice())?;
    let numbers = new_numbers(alloc, used.as_slice())?;
    kept_steps(alloc, steps, used.as_slice(), numbers.as_slice())
}

/// The steps that are used, with the new numbers of their premises.
fn kept_steps(
    alloc: Global,
    steps: Vec<Step>,
    used: &[bool],
    numbers: &[u64],
) -> Result<Vec<Step>, AllocError> {
    let mut kept = Vec::new(alloc);
    for (number, step) in steps.into_iter().enumerate() {
        if is_among(used, number) {
            keep(alloc, &mut kept, step, numbers)?;
        }
    }
    Ok(kept)
}

fn keep(
    alloc: Global,
    kept: &mut Vec<Step>,
    step: Step,
    numbers: &[u64],
) -> Result<(), AllocError> {
    kept.push(renumbered(alloc, step, numbers)?)?;
    Ok(())
}

/// For each step, whether the last one rests on it.
fn used_steps(alloc: Global, steps: &[Step]) -> Result<Vec<bool>, AllocError> {
    let mut used = vec![in alloc; false; steps.len()]?;
    if let Some(last) = used.last_mut() {
        *last = true;
    }
    for (number, step) in steps.iter().enumerate().rev() {
        if is_among(used.as_slice(), number) {
            mark(&mut used, step.from.as_slice());
        }
    }
    Ok(used)
}

fn is_among(used: &[bool], number: usize) -> bool {
    match used.get(number) {
        Some(is_used) => *is_used,
        None => false,
    }
}

fn mark(used: &mut Vec<bool>, from: &[u64]) {
    for number in from {
        if let Some(place) = used.get_mut(*number as usize) {
            *place = true;
        }
    }
}

/// For each step, how many steps before it are kept.
fn new_numbers(alloc: Global, used: &[bool]) -> Result<Vec<u64>, AllocError> {
    let mut numbers = Vec::with_capacity(alloc, used.len())?;
    let mut count: u64 = 0;
    for is_used in used {
        numbers.push(count)?;
        if *is_used {
            count = count.saturating_add(1);
        }
    }
    Ok(numbers)
}

/// The step with the new numbers of its premises.
fn renumbered(alloc: Global, step: Step, numbers: &[u64]) -> Result<Step, AllocError> {
    let Step {
        rule,
        from,
        equation,
    } = step;
    let mut premises = Vec::new(alloc);
    for number in from.as_slice() {
        if let Some(new) = numbers.get(*number as usize) {
            premises.push(*new)?;
        }
    }
    Ok(Step {
        rule,
        from: Seq::from_vec(premises),
        equation,
    })
}
