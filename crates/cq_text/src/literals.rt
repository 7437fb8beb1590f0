//! The literal of an instance.
ghost use Rattle.std.specs.Prelude.{◌≡◌, ◌++◌, IfOk, OnOk, codes};
ghost use Rattle.cq_text.specs.Transcript.{line};
ghost use Rattle.cq_theory.specs.Canonical.{canonical};
ghost use Rattle.cq_text.specs.Literal.{literal_of, presentation_lines};
ghost use Rattle.cq_text.specs.Spelling.{IsPlan};

use crate::equations::push_equations;
use crate::generators::push_generators;
use crate::pieces::push_name;
use crate::plan::{Plan, plan_of};
use cq_base::Name;
use cq_instance::Instance;
use std::alloc::{AllocError, Global};

/// The literal of an instance, over a schema with this name: the declaration of an instance with this name by the
/// canonical presentation of its tables. Each line ends with LF.
///
/// The generators are `g1`, `g2` and so on: one for each row, entity by entity, and then one for each null. The
/// equations are those of each row's attributes and keys, row by row, and then one for each entry of a function.
/// Constants are always texts, so none is taken for a generator. The only refusal is want of memory.
pub fn literal(
    alloc: Global,
    name: &Name,
    schema: &Name,
    instance: &Instance,
) -> Result<Vec<u8>, AllocError>
    ensures { IfOk result (λ text. text.items ≡ literal_of name.now schema.now instance.now) }
{
    let plan = plan_of(alloc, instance)?;
    let mut text = Vec::new(alloc);
    push_first_line(name, schema, &mut text)?;
    push_presentation(instance, &plan, &mut text)?;
    text.extend_from_slice(b"}\n")?;
    Ok(text)
}

/// Appends the generators and the equations of the canonical presentation.
fn push_presentation(instance: &Instance, plan: &Plan, text: &mut Vec<u8>) -> Result<(), AllocError>
    requires { IsPlan instance.now plan.now }
    ensures { OnOk result (text.new.items ≡ text.old.items
        ++ presentation_lines instance.now.schema (canonical instance.now.schema instance.now.tables)) }
{
    text.extend_from_slice(b"generators\n")?;
    push_generators(instance, plan, text)?;
    text.extend_from_slice(b"equations\n")?;
    push_equations(instance, plan, text)?;
    Ok(())
}

fn push_first_line(name: &Name, schema: &Name, text: &mut Vec<u8>) -> Result<(), AllocError>
    ensures { OnOk result (text.new.items ≡ text.old.items
        ++ line (codes "instance " ++ name.now ++ codes " = literal : " ++ schema.now ++ codes " {")) }
{
    text.extend_from_slice(b"instance ")?;
    push_name(name, text)?;
    text.extend_from_slice(b" = literal : ")?;
    push_name(schema, text)?;
    text.extend_from_slice(b" {\n")?;
    Ok(())
}
