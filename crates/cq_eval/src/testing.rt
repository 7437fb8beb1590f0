//! Tests of where equations.
ghost use Rattle.std.specs.Prelude.{◌≡◌, IfOk};
ghost use Rattle.cq_eval.specs.Testing.{holds_at, IsTestAt};

use crate::choice::Choice;
use cq_instance::Instance;
use cq_terms::is_same_value;
use cq_theory::Equation;
use std::alloc::{AllocError, Global};

/// Whether a where equation holds at these rows.
pub(crate) fn holds(
    alloc: Global,
    instance: &Instance,
    choice: &Choice,
    test: &Equation,
) -> Result<bool, AllocError>
    requires { IsTestAt instance.now.schema instance.now.tables choice.now test.now }
    ensures { IfOk result (λ holds. holds ≡ holds_at instance.now.tables choice.now test.now) }
{
    let standings = choice.standings();
    match test {
        Equation::Ent(left, right) => {
            let left = instance.row_over(standings, left);
            let right = instance.row_over(standings, right);
            Ok(left == right)
        }
        Equation::Typ(left, right) => {
            let left = instance.value_over(alloc, standings, left)?;
            let right = instance.value_over(alloc, standings, right)?;
            Ok(is_same_value(&left, &right))
        }
    }
}
