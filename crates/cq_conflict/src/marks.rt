//! How the steps of a derivation are used by the others.
use cq_steps::{Rule, Step};
use std::alloc::{AllocError, Global};

/// For each step a mark: 1 where one step uses it, as the first of two that it joins, 0 where none does, and more
/// elsewhere. Marks only choose what is told, so nothing is claimed of them.
pub fn marks_of(alloc: Global, steps: &[Step]) -> Result<Vec<u64>, AllocError> {
    let mut marks = vec![in alloc; 0; steps.len()]?;
    for step in steps {
        mark_premises(step, &mut marks);
    }
    Ok(marks)
}

/// Marks the premises of a step.
fn mark_premises(step: &Step, marks: &mut Vec<u64>) {
    let is_join = matches!(step.rule, Rule::Transitivity);
    for (place, number) in step.from.as_slice().iter().enumerate() {
        let weight = if is_join && place == 0 { 1 } else { 2 };
        add(marks, *number, weight);
    }
}

fn add(marks: &mut Vec<u64>, number: u64, weight: u64) {
    if let Some(mark) = marks.get_mut(number as usize) {
        *mark = mark.saturating_add(weight);
    }
}

/// Whether a step is left out where the one that joins it to another is told.
pub fn is_folded(marks: &[u64], number: u64) -> bool {
    match marks.get(number as usize) {
        Some(mark) => *mark == 1,
        None => false,
    }
}
