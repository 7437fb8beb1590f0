//! Duties: equations, each of which is to be derivable from a presentation, numbered from 1.
ghost use Rattle.std.specs.Prelude.{ℕ, ◌≡◌, ◌≤◌, ◌+◌, Err, IfOk, IfErr};
ghost use Rattle.cq_check.specs.Answers.{IsWellSorted, IsDerived, IsTooDeep, IsTooWide};
ghost use Rattle.cq_check.specs.Prepared.{IsPrepared};
ghost use Rattle.cq_check.specs.Refusing.{refusal_of};
ghost use Rattle.cq_check.specs.declared.refusal.CheckRefusal.TheVariants.{NotPreserved, Depth, TooManyRows};
ghost use Rattle.cq_theory.specs.Presentation.{IsPresentation};

use crate::deciding::{Cause, first_unmet};
use crate::prepared::Prepared;
use crate::refusal::CheckRefusal;
use cq_theory::{Equation, Presentation};
use std::alloc::Global;
use std::slice;

/// The refusal of a duty by its number.
pub(crate) fn refusal(cause: Cause, number: u64) -> CheckRefusal
    ensures { result ≡ refusal_of cause number }
{
    match cause {
        Cause::NotDerivable => CheckRefusal::NotPreserved(number),
        Cause::Depth => CheckRefusal::Depth(number),
        Cause::TooManyRows => CheckRefusal::TooManyRows(number),
    }
}

/// Whether the duty with this number is derivable.
pub(crate) fn check_duty(
    alloc: Global,
    prepared: &Prepared,
    presentation: &Presentation,
    equation: &Equation,
    depth: u32,
    number: u64,
) -> Result<(), CheckRefusal>
    requires prepared { IsPrepared prepared.now }
    requires presentation { IsPresentation prepared.now.schema.now presentation.now }
    requires sorted { IsWellSorted prepared.now.schema.now presentation.now equation.now }
    requires depth { depth ≤ 64 }
    ensures derived { IfOk result (λ _. IsDerived prepared.now.schema.now presentation.now equation.now) }
    ensures not_derivable { (n : ℕ) → result ≡ Err (NotPreserved n)
        → (n ≡ number) × (IsDerived prepared.now.schema.now presentation.now equation.now → ⊥) }
    ensures deep { (n : ℕ) → result ≡ Err (Depth n)
        → (n ≡ number) × IsTooDeep prepared.now.schema.now presentation.now equation.now depth }
    ensures many { (n : ℕ) → result ≡ Err (TooManyRows n)
        → (n ≡ number) × IsTooWide prepared.now.schema.now presentation.now equation.now depth }
{
    let one = slice::from_ref(&equation);
    match first_unmet(alloc, prepared, presentation, one, depth) {
        Ok(None) => Ok(()),
        Ok(Some(unmet)) => Err(refusal(unmet.cause, number)),
        Err(_) => Err(CheckRefusal::Memory),
    }
}

/// The number of the next duty. Memory ends long before the numbers do.
pub(crate) fn number_after(number: u64) -> Result<u64, CheckRefusal>
    ensures next { IfOk result (λ next. next ≡ number + 1) }
    ensures memory { IfErr result (λ refusal. refusal ≡ CheckRefusal.Memory) }
{
    match number.checked_add(1) {
        Some(next) => Ok(next),
        None => Err(CheckRefusal::Memory),
    }
}
