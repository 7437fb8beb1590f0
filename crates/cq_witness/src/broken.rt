//! Images of a transform that don't keep an equation.
ghost use Rattle.std.specs.Prelude.{◌≡◌, ◌++◌, OnOk, option_copied, slice_get};
ghost use Rattle.cq_witness.specs.Broken.{kept_text, named_text, TellsBroken};

use crate::images::{images_of, put_equation};
use crate::phrases::{Phrase, append_phrase};
use crate::sides::append_sides;
use cq_base::{Name, Raw};
use cq_explain::{push_equation, push_ordinal};
use cq_instance::Instance;
use cq_theory::Equation;
use std::alloc::{AllocError, Global};

/// Two instances between which a transform goes, with their names.
#[derive(Clone, Copy)]
pub struct Ends<'a> {
    pub source: &'a Name,
    pub target: &'a Name,
    pub start: &'a Instance,
    pub finish: &'a Instance,
}

/// Appends an equation of an instance, with its name.
fn append_equation(
    out: &mut Vec<u8>,
    name: &Name,
    instance: &Instance,
    equation: &Equation,
) -> Result<(), AllocError>
    ensures { OnOk result (out.new.items ≡ out.old.items ++ named_text name.now instance.now equation.now) }
{
    let schema = instance.schema();
    let presentation = instance.presentation();
    out.extend_from_slice(name.as_str().as_bytes())?;
    append_phrase(out, Phrase::Colon)?;
    push_equation(schema, presentation, equation, out)?;
    append_phrase(out, Phrase::LineEnd)?;
    Ok(())
}

/// Appends an equation, by its number from 1, and its image.
fn append_kept(
    out: &mut Vec<u8>,
    ends: &Ends,
    place: u64,
    equation: &Equation,
    image: &Equation,
) -> Result<(), AllocError>
    ensures { OnOk result (out.new.items ≡ out.old.items ++ kept_text ends.now.source.now ends.now.target.now
        ends.now.start.now ends.now.finish.now place equation.now image.now) }
{
    append_phrase(out, Phrase::Equation)?;
    push_ordinal(place, out)?;
    append_phrase(out, Phrase::Of)?;
    append_equation(out, ends.source, ends.start, equation)?;
    append_phrase(out, Phrase::Image)?;
    append_equation(out, ends.target, ends.finish, image)?;
    Ok(())
}

/// The equation of an instance's presentation at a place.
fn equation_at(instance: &Instance, place: u64) -> Option<&Equation>
    ensures { option_copied result ≡ slice_get instance.now.presentation.equations place }
{
    instance
        .presentation()
        .equations
        .as_slice()
        .get(place as usize)
}

/// Appends the equation with a number, from 0, of the instance from which images go; its image in the one to which they
/// go; and the two rows, by their least names, or the two values to which the sides of the image lead there. The images
/// are those that the parts give. Nothing is appended where there is no such equation.
pub fn append_broken(
    alloc: Global,
    out: &mut Vec<u8>,
    ends: &Ends,
    parts: &[(Name, Raw)],
    number: u64,
) -> Result<(), AllocError>
    ensures { OnOk result (TellsBroken ends.now.source.now ends.now.target.now ends.now.start.now ends.now.finish.now
        parts.now number out.old.items out.new.items) }
{
    let Some(equation) = equation_at(ends.start, number) else {
        return Ok(());
    };
    let Some(images) = images_of(alloc, ends.start, ends.finish, parts)? else {
        return Ok(());
    };
    let image = put_equation(alloc, &images, equation)?;
    append_kept(out, ends, number, equation, &image)?;
    append_sides(alloc, out, ends.finish, &image)?;
    append_phrase(out, Phrase::OtherImages)?;
    Ok(())
}
