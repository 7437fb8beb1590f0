//! The premises of a step: the equations of the earlier steps that it names.
ghost use Rattle.std.specs.Prelude.{◌≡◌, ◌↔◌, IsTrue, option_copied};
ghost use Rattle.cq_steps.specs.Right.{equation_at as equation_of_step, equations_at, AreBetween};
ghost use Rattle.cq_steps.specs.Premises.{only_of, both_of};
ghost use Rattle.cq_theory.specs.declared.presentation.Equation.TheVariants.{Typ};

use crate::side::has_sides;
use crate::step::Step;
use cq_theory::{Equation, TypeTerm};

/// The equation of the earlier step of a number.
fn equation_at(earlier: &[Step], number: u64) -> Option<&Equation>
    ensures { option_copied result ≡ equation_of_step earlier.now number }
{
    match earlier.get(number as usize) {
        Some(step) => Some(&step.equation),
        None => None,
    }
}

/// The premise, where it is the only one.
pub(crate) fn only<'a>(earlier: &'a [Step], from: &[u64]) -> Option<&'a Equation>
    ensures { option_copied result ≡ only_of (equations_at earlier.now from.now) }
{
    match from {
        [number] => equation_at(earlier, *number),
        _ => None,
    }
}

/// The premises, where they are two.
pub(crate) fn both<'a>(
    earlier: &'a [Step],
    from: &[u64],
) -> (Option<&'a Equation>, Option<&'a Equation>)
    ensures { (option_copied result.0, option_copied result.1) ≡ both_of (equations_at earlier.now from.now) }
{
    match from {
        [first, second] => (equation_at(earlier, *first), equation_at(earlier, *second)),
        _ => (None, None),
    }
}

/// Whether the premises equate each of the left terms with its fellow of the right ones.
pub(crate) fn are_between(
    earlier: &[Step],
    from: &[u64],
    left: &[TypeTerm],
    right: &[TypeTerm],
) -> bool
    ensures { IsTrue result ↔ AreBetween (equations_at earlier.now from.now) left.now right.now }
{
    if from.len() != left.len() {
        return false;
    }
    if from.len() != right.len() {
        return false;
    }
    for (i, number) in from.iter().enumerate() {
        if !is_between(earlier, *number, &left[i], &right[i]) {
            return false;
        }
    }
    true
}

/// Whether the premise equates the terms.
fn is_between(earlier: &[Step], number: u64, left: &TypeTerm, right: &TypeTerm) -> bool
    ensures { IsTrue result ↔ (equation_of_step earlier.now number ≡ Some (Typ left.now right.now)) }
{
    match equation_at(earlier, number) {
        Some(premise) => has_sides(premise, left, right),
        None => false,
    }
}
