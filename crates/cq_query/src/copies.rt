//! Copies of equations.
ghost use Rattle.std.specs.Prelude.{◌≡◌, IfOk};

use cq_terms::{copy_entity_term, copy_type_term};
use cq_theory::Equation;
use std::alloc::{AllocError, Global};

fn copy_equation(alloc: Global, equation: &Equation) -> Result<Equation, AllocError>
    ensures { IfOk result (λ made. made ≡ equation.now) }
{
    match equation {
        Equation::Ent(left, right) => {
            let left = copy_entity_term(alloc, left)?;
            Ok(Equation::Ent(left, copy_entity_term(alloc, right)?))
        }
        Equation::Typ(left, right) => {
            let left = copy_type_term(alloc, left)?;
            Ok(Equation::Typ(left, copy_type_term(alloc, right)?))
        }
    }
}

/// Copies of the equations.
pub(crate) fn copy_equations(
    alloc: Global,
    equations: &[Equation],
) -> Result<Vec<Equation>, AllocError>
    ensures { IfOk result (λ made. made.items ≡ equations.now) }
{
    let mut made = Vec::new(alloc);
    for equation in equations {
        made.push(copy_equation(alloc, equation)?)?;
    }
    Ok(made)
}
