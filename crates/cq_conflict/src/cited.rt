//! The generators that stand in told equations.
use crate::told::Told;
use cq_steps::Step;
use cq_theory::{Equation, TypeTerm};
use std::alloc::{AllocError, Global};

/// The numbers of the generators in the told equations, each once, rising. They only choose which records are looked up
/// for their ids and lines, so nothing is claimed of them.
pub fn cited_generators(
    alloc: Global,
    steps: &[Step],
    told: &[Told],
) -> Result<Vec<u32>, AllocError> {
    let mut numbers = Vec::new(alloc);
    for one in told {
        if let Some(step) = steps.get(one.step as usize) {
            push_sides(&step.equation, &mut numbers)?;
        }
    }
    numbers.sort_unstable();
    numbers.dedup();
    Ok(numbers)
}

/// Appends the generators of an equation.
pub fn push_sides(equation: &Equation, numbers: &mut Vec<u32>) -> Result<(), AllocError> {
    match equation {
        Equation::Ent(left, right) => {
            numbers.push(left.generator)?;
            numbers.push(right.generator)?;
        }
        Equation::Typ(left, right) => {
            push_type_term(left, numbers)?;
            push_type_term(right, numbers)?;
        }
    }
    Ok(())
}

fn push_type_term(term: &TypeTerm, numbers: &mut Vec<u32>) -> Result<(), AllocError> {
    match term {
        TypeTerm::Gen(generator) => numbers.push(*generator)?,
        TypeTerm::Const(_) => {}
        TypeTerm::Att(_, at) => numbers.push(at.generator)?,
        TypeTerm::Fun(_, args) => {
            for arg in args.as_slice() {
                push_type_term(arg, numbers)?;
            }
        }
    }
    Ok(())
}
