//! Rows of equations in an instance `I`, each with a rule by which it is derived.
//!
//! A row is the rule, as a step tells it, `: `, and the equation. It is answered by a list of steps, of which one is by
//! that rule, and the last one has the sides of the equation. No rule is told where none is wanted.
//!
//!     -- derived
//!     path 1 a: a.f.f = a.f
//!     : v(b) = s(k)
use crate::entry::{Entry, cut};
use crate::questions::answer_to;
use crate::tally::Tally;
use std::alloc::{AllocError, Global};

/// What is told of each.
const DERIVED: &str = "a list of steps";

/// Tries an equation.
pub fn try_equation(
    alloc: Global,
    entry: Entry<'_>,
    row: &str,
    tally: &mut Tally,
) -> Result<(), AllocError> {
    let (rule, sides) = cut(row, ": ");
    let came = answer_to(alloc, entry, question(alloc, sides)?.as_str())?;
    let came = if is_derived(alloc, came.as_str(), rule, sides)? {
        DERIVED
    } else {
        came.as_str()
    };
    tally.add(alloc, row, DERIVED, came)
}

/// The question whether an equation holds.
fn question(alloc: Global, sides: &str) -> Result<String, AllocError> {
    let (left, right) = cut(sides, " = ");
    format!(in alloc; "I; {left}; {right}")
}

/// Whether an answer is a list of steps, of which one is by a rule, and the last one has these sides.
fn is_derived(alloc: Global, answer: &str, rule: &str, sides: &str) -> Result<bool, AllocError> {
    let step = format!(in alloc; " {rule}")?;
    let last = format!(in alloc; ": {sides}\n")?;
    Ok(
        answer.starts_with("ok\nequal ")
            && answer.contains(step.as_str())
            && answer.ends_with(last.as_str()),
    )
}
