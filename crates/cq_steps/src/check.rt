//! The checker of derivations.
ghost use Rattle.std.specs.Prelude.{◌≡◌, ◌↔◌, IsTrue, IfOk};
ghost use Rattle.cq_steps.specs.Right.{IsRight, Right};

use crate::following::{
    is_by_attribute, is_by_function, is_by_key, is_given, is_joined, is_obs_at, is_path_at,
    is_reflexive, is_turned,
};
use crate::premises::{both, only};
use crate::step::{Rule, Step};
use cq_theory::{Presentation, Schema};
use std::alloc::{AllocError, Global};

/// Whether the steps are a right list: there is one, and the equation of each follows by its rule of derivation from
/// the equations of the earlier steps that it names. It costs the size of the terms. Each equation of a right list is
/// derivable, as `right_steps` says.
pub fn check_steps(
    alloc: Global,
    schema: &Schema,
    presentation: &Presentation,
    steps: &[Step],
) -> Result<bool, AllocError>
    ensures { IfOk result (λ right. IsTrue right ↔ Right schema.now presentation.now steps.now) }
{
    for (n, step) in steps.iter().enumerate() {
        if !is_right(alloc, schema, presentation, &steps[..n], step)? {
            return Ok(false);
        }
    }
    Ok(!steps.is_empty())
}

/// Whether the step follows from the steps before it.
fn is_right(
    alloc: Global,
    schema: &Schema,
    presentation: &Presentation,
    earlier: &[Step],
    step: &Step,
) -> Result<bool, AllocError>
    ensures { IfOk result (λ right. IsTrue right ↔ IsRight schema.now presentation.now earlier.now step.now) }
{
    let from = step.from.as_slice();
    let equation = &step.equation;
    match &step.rule {
        Rule::Reflexivity => Ok(from.is_empty() && is_reflexive(schema, presentation, equation)),
        Rule::Symmetry => Ok(is_turned(only(earlier, from), equation)),
        Rule::Transitivity => {
            let (first, second) = both(earlier, from);
            Ok(is_joined(first, second, equation))
        }
        Rule::Key(key) => {
            let premise = only(earlier, from);
            Ok(is_by_key(schema, presentation, *key, premise, equation))
        }
        Rule::Attribute(attribute) => {
            let premise = only(earlier, from);
            Ok(is_by_attribute(schema, presentation, *attribute, premise, equation))
        }
        Rule::Function(function) => {
            Ok(is_by_function(schema, presentation, *function, earlier, step))
        }
        Rule::Given(number) => Ok(from.is_empty() && is_given(presentation, *number, equation)),
        Rule::Path(number, at) => {
            Ok(from.is_empty() && is_path_at(schema, presentation, *number, at, equation))
        }
        Rule::Obs(number, at) => {
            Ok(from.is_empty() && is_obs_at(alloc, schema, presentation, *number, at, equation)?)
        }
    }
}
