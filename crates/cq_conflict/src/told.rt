//! The steps of a derivation that are told.
ghost use Rattle.std.specs.Prelude.{◌≡◌, ◌+◌, ◌<◌, IfOk, OnOk, length};
ghost use Rattle.cq_conflict.specs.Told.{AreTelling, AreTold, Tells};

use crate::chains::cited_by;
use crate::marks::marks_of;
use cq_base::Seq;
use cq_steps::Step;
use std::alloc::{AllocError, Global};

/// A step that is told, by its number, and the numbers of the steps that it cites, from 0.
#[derive(Drop)]
pub struct Told {
    pub step: u64,
    pub from: Seq<u64>,
}

/// Notes that these steps are cited.
fn note_cited(needed: &mut Vec<bool>, cited: &[u64]) {
    for number in cited {
        if let Some(place) = needed.get_mut(*number as usize) {
            *place = true;
        }
    }
}

/// Whether a step is cited.
fn is_needed(needed: &Vec<bool>, number: usize) -> bool {
    match needed.get(number) {
        Some(is_cited) => *is_cited,
        None => false,
    }
}

/// Tells a step.
fn tell(
    alloc: Global,
    steps: &[Step],
    marks: &[u64],
    number: usize,
    needed: &mut Vec<bool>,
    told: &mut Vec<Told>,
) -> Result<(), AllocError>
    requires { number < length steps.now }
    ensures { OnOk result (Tells steps.now number told.old.items told.new.items) }
{
    let cited = cited_by(alloc, steps, marks, &steps[number])?;
    note_cited(needed, cited.as_slice());
    told.push(Told {
        step: number as u64,
        from: Seq::from_vec(cited),
    })?;
    Ok(())
}

/// Tells the steps before this one that are cited, the last one first.
fn tell_earlier(
    alloc: Global,
    steps: &[Step],
    marks: &[u64],
    last: usize,
    needed: &mut Vec<bool>,
    told: &mut Vec<Told>,
) -> Result<(), AllocError>
    requires last { last < length steps.now }
    requires telling { AreTelling steps.now told.old.items }
    ensures { OnOk result (AreTelling steps.now told.new.items) }
{
    'earlier: for number in (0..last).rev() {
        if !is_needed(needed, number) {
            continue;
        }
        tell(alloc, steps, marks, number, needed, told)?;
    }
    Ok(())
}

/// The steps that are told: the last one, and those from which a told one follows but for turning equations round and
/// joining them. They stand in the order of the list.
pub fn told_steps(alloc: Global, steps: &[Step]) -> Result<Vec<Told>, AllocError>
    requires { 0 < length steps.now }
    ensures { IfOk result (λ told. AreTold steps.now told.items) }
{
    let marks = marks_of(alloc, steps)?;
    let mut needed = vec![in alloc; false; steps.len()]?;
    let mut told = Vec::new(alloc);
    let last = steps.len() - 1;
    tell(alloc, steps, marks.as_slice(), last, &mut needed, &mut told)?;
    tell_earlier(alloc, steps, marks.as_slice(), last, &mut needed, &mut told)?;
    told.reverse();
    Ok(told)
}
