//! Whether an equation is derivable from a presentation.
ghost use Rattle.std.specs.Prelude.{ℕ, ◌≡◌, ◌≤◌, Err, IfOk};
ghost use Rattle.cq_check.specs.Answers.{IsWellSorted, IsDerived, IsAnswer, IsTooDeep, IsTooWide};
ghost use Rattle.cq_check.specs.declared.refusal.CheckRefusal.TheVariants as duty;
ghost use Rattle.cq_check.specs.declared.refusal.EqualRefusal.TheVariants.{Depth, TooManyRows};
ghost use Rattle.cq_theory.specs.Presentation.{IsPresentation};

use crate::duties::check_duty;
use crate::prepared::Prepared;
use crate::refusal::{CheckRefusal, EqualRefusal};
use cq_theory::{Equation, Presentation, Schema};
use std::alloc::Global;
use std::rc::Rc;

/// Whether an equation is derivable.
#[derive(Clone, Copy, Debug, PartialEq, Eq)]
pub enum Verdict {
    Yes,
    No,
}

/// Whether an equation is derivable, where it is the only one over its schema.
fn check_alone(
    alloc: Global,
    schema: &Schema,
    presentation: &Presentation,
    equation: &Equation,
    depth: u32,
) -> Result<(), CheckRefusal>
    requires presentation { IsPresentation schema.now presentation.now }
    requires sorted { IsWellSorted schema.now presentation.now equation.now }
    requires depth { depth ≤ 64 }
    ensures derived { IfOk result (λ _. IsDerived schema.now presentation.now equation.now) }
    ensures not_derivable { (n : ℕ) → result ≡ Err (duty.NotPreserved n)
        → IsDerived schema.now presentation.now equation.now → ⊥ }
    ensures deep { (n : ℕ) → result ≡ Err (duty.Depth n)
        → IsTooDeep schema.now presentation.now equation.now depth }
    ensures many { (n : ℕ) → result ≡ Err (duty.TooManyRows n)
        → IsTooWide schema.now presentation.now equation.now depth }
{
    let prepared = Prepared::new(alloc, schema)?;
    check_duty(alloc, &prepared, presentation, equation, depth, 1)
}

/// Whether an equation is derivable from a presentation, by the depths from 0 up to the given one, which is at most
/// 64. At each depth the rows of the presentation are made, and the sides are equal if they are so in the closure of
/// all equations of which the paths can be traced (Nelson and Oppen, Fast Decision Procedures Based on Congruence
/// Closure, 1980). The answer is No where all cells of the rows are filled besides.
pub fn equal(
    alloc: Global,
    schema: Rc<Schema>,
    presentation: &Presentation,
    depth: u32,
    equation: &Equation,
) -> Result<Verdict, EqualRefusal>
    requires presentation { IsPresentation schema.value presentation.now }
    requires sorted { IsWellSorted schema.value presentation.now equation.now }
    requires depth { depth ≤ 64 }
    ensures answer { IfOk result (IsAnswer schema.value presentation.now equation.now) }
    ensures deep { result ≡ Err Depth → IsTooDeep schema.value presentation.now equation.now depth }
    ensures many { result ≡ Err TooManyRows → IsTooWide schema.value presentation.now equation.now depth }
{
    match check_alone(alloc, &schema, presentation, equation, depth) {
        Ok(()) => Ok(Verdict::Yes),
        Err(CheckRefusal::NotPreserved(_)) => Ok(Verdict::No),
        Err(CheckRefusal::Depth(_)) => Err(EqualRefusal::Depth),
        Err(CheckRefusal::TooManyRows(_)) => Err(EqualRefusal::TooManyRows),
        Err(CheckRefusal::Memory) => Err(EqualRefusal::Memory),
    }
}
