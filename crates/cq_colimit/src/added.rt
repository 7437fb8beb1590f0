//! Refusals of the added equations, by their numbers in the call.
ghost use Rattle.std.specs.Prelude.{ℕ, ◌≡◌, ◌+◌, ◌<◌, ◌^◌};
ghost use Rattle.cq_theory.specs.declared.refusal.TermRefusal.{TermRefusal};
ghost use Rattle.cq_theory.specs.Resolve.{in_part};
ghost use Rattle.cq_colimit.specs.Faults.{of_colimit as refusal_of_colimit};
ghost use Rattle.cq_colimit.specs.Renumbered.{number_in, with_part};

use crate::refusal::ColimitRefusal;
use cq_theory::TheoryRefusal;

/// The number of the part that breaks a rule.
fn number_of(refusal: TheoryRefusal) -> u32
    ensures { result ≡ number_in refusal }
{
    match refusal {
        TheoryRefusal::Duplicate(number) => number,
        TheoryRefusal::Unknown(number) => number,
        TheoryRefusal::WrongCount(number) => number,
        TheoryRefusal::WrongSort(number) => number,
        TheoryRefusal::Reserved(number) => number,
        TheoryRefusal::TooLarge(number) => number,
        TheoryRefusal::Memory => 0,
    }
}

/// The same rule, broken by this part of a colimit.
fn with_number(refusal: TheoryRefusal, number: u32) -> ColimitRefusal
    ensures { result ≡ refusal_of_colimit (with_part number refusal) }
{
    match refusal {
        TheoryRefusal::Duplicate(_) => ColimitRefusal::Duplicate(number),
        TheoryRefusal::Unknown(_) => ColimitRefusal::Unknown(number),
        TheoryRefusal::WrongCount(_) => ColimitRefusal::WrongCount(number),
        TheoryRefusal::WrongSort(_) => ColimitRefusal::WrongSort(number),
        TheoryRefusal::Reserved(_) => ColimitRefusal::Reserved(number),
        TheoryRefusal::TooLarge(_) => ColimitRefusal::TooLarge(number),
        TheoryRefusal::Memory => ColimitRefusal::Memory,
    }
}

/// The number in the call of a part of the joined schema: it has `before` parts before its `paths` path equations, and
/// `attributes` between these and its observation equations. Its first equation is part `first` of the call.
fn place_of(number: u32, first: u32, before: u32, paths: u32, attributes: u32) -> u32
    requires { before + paths + attributes < 2 ^ 32 }
    ensures paths { (k : ℕ) → number ≡ before + k → k < paths → first + k < 2 ^ 32 → result ≡ first + k }
    ensures observations { (k : ℕ) → number ≡ before + paths + attributes + k → first + paths + k < 2 ^ 32
        → result ≡ first + paths + k }
{
    let skipped = if number < before + paths {
        before
    } else {
        before + attributes
    };
    first.saturating_add(number.saturating_sub(skipped))
}

/// The refusal of the call for one of the joined schema's parts.
pub(crate) fn of_added(
    refusal: TheoryRefusal,
    first: u32,
    before: u32,
    paths: u32,
    attributes: u32,
) -> ColimitRefusal
    requires { before + paths + attributes < 2 ^ 32 }
    ensures paths { (k : ℕ) (rule : TermRefusal) → refusal ≡ in_part (before + k) rule → k < paths
        → first + k < 2 ^ 32 → result ≡ refusal_of_colimit (in_part (first + k) rule) }
    ensures observations { (k : ℕ) (rule : TermRefusal) → refusal ≡ in_part (before + paths + attributes + k) rule
        → first + paths + k < 2 ^ 32 → result ≡ refusal_of_colimit (in_part (first + paths + k) rule) }
{
    let number = place_of(number_of(refusal), first, before, paths, attributes);
    with_number(refusal, number)
}
