//! Whether equations are kept.
ghost use Rattle.std.specs.Prelude.{ℕ, ◌≡◌, ◌<◌, ◌+◌, ◌-◌, ◌^◌, ◌⊎◌, ◌↔◌, IfOk, IfErr, IsTrue, Some, length, map};
ghost use Rattle.std.specs.Prelude.{slice_get};
ghost use Rattle.cq_theory.specs.declared.presentation.Equation.{Equation as AnyEquation};
ghost use Rattle.cq_theory.specs.Tables.{AtRow, AtValue, row_of, value_of};
ghost use Rattle.cq_instance.specs.Standing.{meaning};
ghost use Rattle.cq_instance.specs.Terms.{IsEntTermOf, IsTypeTermOf};
ghost use Rattle.cq_transform.specs.Refusals.{HasSides, IsEqual, AreEqualBefore, TellsUnequal};

use crate::refusal::TransformRefusal;
use cq_instance::{Instance, Standing};
use cq_terms::is_same_value;
use cq_theory::{EntTerm, Equation, TypeTerm};
use std::alloc::{AllocError, Global};

/// Whether two entity terms name one row.
fn rows_kept(target: &Instance, standings: &[Standing], left: &EntTerm, right: &EntTerm) -> bool
    requires { (entity : ℕ)
        × IsEntTermOf target.now.schema target.now.tables (map meaning standings.now) left.now entity
        × IsEntTermOf target.now.schema target.now.tables (map meaning standings.now) right.now entity }
    ensures { IsTrue result ↔ (AtRow (row_of target.now.tables (map meaning standings.now) left.now)
        ≡ AtRow (row_of target.now.tables (map meaning standings.now) right.now)) }
{
    let first = target.row_over(standings, left);
    let second = target.row_over(standings, right);
    first == second
}

/// Whether two type terms have one value.
fn values_kept(
    alloc: Global,
    target: &Instance,
    standings: &[Standing],
    left: &TypeTerm,
    right: &TypeTerm,
) -> Result<bool, AllocError>
    requires { (type : ℕ) × IsTypeTermOf target.now.schema target.now.tables (map meaning standings.now) left.now type
        × IsTypeTermOf target.now.schema target.now.tables (map meaning standings.now) right.now type }
    ensures { IfOk result (λ kept. IsTrue kept
        ↔ (AtValue (value_of target.now.tables (map meaning standings.now) left.now)
        ≡ AtValue (value_of target.now.tables (map meaning standings.now) right.now))) }
{
    let first = target.value_over(alloc, standings, left)?;
    let second = target.value_over(alloc, standings, right)?;
    Ok(is_same_value(&first, &second))
}

/// Whether both sides of an equation mean the same, where generators stand for these rows and values.
fn is_kept(
    alloc: Global,
    target: &Instance,
    standings: &[Standing],
    equation: &Equation,
) -> Result<bool, AllocError>
    requires { HasSides target.now.schema target.now.tables (map meaning standings.now) equation.now }
    ensures { IfOk result (λ kept. IsTrue kept ↔ IsEqual target.now.tables (map meaning standings.now) equation.now) }
{
    match equation {
        Equation::Ent(left, right) => Ok(rows_kept(target, standings, left, right)),
        Equation::Typ(left, right) => values_kept(alloc, target, standings, left, right),
    }
}

/// Whether an equation is kept. Otherwise its number, from 1, where `place` is the number from 0.
fn check_equation(
    alloc: Global,
    target: &Instance,
    standings: &[Standing],
    place: u64,
    equation: &Equation,
) -> Result<(), TransformRefusal>
    requires sides { HasSides target.now.schema target.now.tables (map meaning standings.now) equation.now }
    requires place { place < 2 ^ 64 - 1 }
    ensures kept { IfOk result (λ _. IsEqual target.now.tables (map meaning standings.now) equation.now) }
    ensures refused { IfErr result (λ refusal. (refusal ≡ TransformRefusal.Memory)
        ⊎ ((refusal ≡ TransformRefusal.Broken (place + 1))
        × (IsEqual target.now.tables (map meaning standings.now) equation.now → ⊥))) }
{
    match is_kept(alloc, target, standings, equation) {
        Ok(kept) => {
            if kept {
                Ok(())
            } else {
                Err(TransformRefusal::Broken(place + 1))
            }
        }
        Err(_) => Err(TransformRefusal::Memory),
    }
}

/// Whether each equation is kept. Otherwise the number of the first one that isn't.
pub(crate) fn check_equations(
    alloc: Global,
    target: &Instance,
    standings: &[Standing],
    equations: &[Equation],
) -> Result<(), TransformRefusal>
    requires { (n : ℕ) (e : AnyEquation) → slice_get equations.now n ≡ Some e
        → HasSides target.now.schema target.now.tables (map meaning standings.now) e }
    ensures kept { IfOk result (λ _. AreEqualBefore target.now.tables (map meaning standings.now) equations.now (length
        equations.now)) }
    ensures refused { IfErr result (TellsUnequal target.now.tables (map meaning standings.now) equations.now) }
{
    for (place, equation) in equations.iter().enumerate() {
        if let Err(refusal) = check_equation(alloc, target, standings, place as u64, equation) {
            return Err(refusal);
        }
    }
    Ok(())
}
