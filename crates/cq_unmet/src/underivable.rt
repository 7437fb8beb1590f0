//! Why a duty isn't derivable.
ghost use Rattle.std.specs.Prelude.{◌≡◌, ◌≤◌, ◌++◌, OnOk};
ghost use Rattle.cq_theory.specs.Presentation.{IsPresentation};
ghost use Rattle.cq_unmet.specs.Underivable.{duty_text, TellsUnderivable};

use crate::duties::Asked;
use cq_explain::push_equation;
use cq_model::{BuildRefusal, build};
use cq_theory::Schema;
use cq_witness::{Phrase, append_phrase, append_sides};
use std::alloc::{AllocError, Global};
use std::rc::Rc;

/// Appends the equation of a duty over a schema.
pub fn append_duty(out: &mut Vec<u8>, schema: &Schema, asked: &Asked) -> Result<(), AllocError>
    ensures { OnOk result (out.new.items ≡ out.old.items
        ++ duty_text schema.now asked.now.over asked.now.equation) }
{
    append_phrase(out, Phrase::Follow)?;
    push_equation(schema, &asked.over, &asked.equation, out)?;
    append_phrase(out, Phrase::LineEnd)?;
    Ok(())
}

/// Appends the two rows, by their least names, or the two values in which the sides of a duty differ in the model of
/// its presentation, which is made of rows up to a depth of at most 64. Nothing is appended where there is no such
/// model, and where the duty is derivable.
pub fn append_underivable(
    alloc: Global,
    out: &mut Vec<u8>,
    schema: Rc<Schema>,
    asked: Asked,
    depth: u32,
) -> Result<(), AllocError>
    requires presentation { IsPresentation schema.value asked.over }
    requires depth { depth ≤ 64 }
    ensures { OnOk result (TellsUnderivable schema.value asked.over asked.equation depth
        out.old.items out.new.items) }
{
    let (over, equation) = asked.into_parts();
    match build(alloc, schema, over, depth) {
        Ok(instance) => {
            append_sides(alloc, out, &instance, &equation)?;
            Ok(())
        }
        Err(BuildRefusal::Depth) => Ok(()),
        Err(BuildRefusal::TooManyRows) => Ok(()),
        Err(BuildRefusal::Inconsistent(_, _)) => Ok(()),
        Err(BuildRefusal::Memory) => Err(AllocError),
    }
}
