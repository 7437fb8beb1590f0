//! Pushouts.
ghost use Rattle.std.specs.Prelude.{◌≡◌, ◌≤◌, ◌<◌, ◌+◌, ◌++◌, ◌⊎◌, ◌∷◌, [], IfOk, IfErr, OnOk, length};
ghost use Rattle.cq_theory.specs.declared.constant.Con.TheVariants.{Named};
ghost use Rattle.cq_theory.specs.declared.presentation.Equation.TheVariants.{Typ as TypEquation};
ghost use Rattle.cq_theory.specs.declared.term.TypeTerm.TheVariants.{Const};
ghost use Rattle.cq_model.specs.Moving.{Presents, IsModelOrCause};
ghost use Rattle.cq_transform.specs.Transforms.{GoesFrom};
ghost use Rattle.cq_transform.specs.Gluing.{sorts_of, equations_from, glued, glued_images, pushout_of};

use crate::gluing::Gluing;
use crate::shifting::{shift_ent, shift_type};
use cq_model::{Image, Instance, MoveRefusal, Transform, build_presented};
use cq_terms::{copy_entity_term, copy_type_term};
use cq_theory::{Con, Equation, Presentation, SizeRefusal, TypeTerm};
use std::alloc::{AllocError, Global};

/// The listed model of the disjoint union of the presentations of two instances, `left` and `right`, with one
/// equation for each generator of the instance `start` from which a transform goes to either: its image on the left
/// equals its image on the right. It is made of rows up to a depth of at most 64. Source: Algebraic Data Integration
/// (pushouts of instances).
///
/// `TooLarge` is tried first: it is answered exactly where there would be over 16,000,000 generators, or an image has
/// over 1,024 symbols. Then the refusals are those of `build`, in its order.
pub fn pushout(
    alloc: Global,
    first: &Transform,
    second: &Transform,
    start: &Instance,
    left: &Instance,
    right: &Instance,
    depth: u32,
) -> Result<Instance, MoveRefusal>
    requires first { GoesFrom first.now start.now left.now }
    requires second { GoesFrom second.now start.now right.now }
    requires depth { depth ≤ 64 }
    ensures { IsModelOrCause start.now.schema
        (pushout_of first.now second.now left.now.presentation right.now.presentation) depth result }
{
    left.is_instance();
    right.is_instance();
    let schema = start.schema().clone()?;
    let presented = pushout_presentation(alloc, first, second, left, right);
    build_presented(alloc, schema, presented, depth)
}

/// The presentation of which `pushout` makes the model: those of two instances, `left` and `right`, side by side, with
/// one equation for each generator of the instance from which a transform goes to either. `TooLarge` is answered
/// exactly where it would have over 16,000,000 generators or a term of over 1,024 symbols, and `Memory` for want of
/// memory.
pub fn pushout_presentation(
    alloc: Global,
    first: &Transform,
    second: &Transform,
    left: &Instance,
    right: &Instance,
) -> Result<Presentation, SizeRefusal>
    requires { length first.now.images ≡ length second.now.images }
    ensures { Presents (pushout_of first.now second.now left.now.presentation right.now.presentation) result }
{
    match glue(
        alloc,
        first.images.as_slice(),
        second.images.as_slice(),
        left.presentation(),
        right.presentation(),
    ) {
        Ok(gluing) => gluing.into_presentation(alloc),
        Err(refusal) => Err(refusal),
    }
}

/// Two presentations beside one another, where each image on the left equals its fellow on the right. `TooLarge` is
/// answered exactly where there would be over 16,000,000 generators, and `Memory` for want of memory.
fn glue(
    alloc: Global,
    lefts: &[Image],
    rights: &[Image],
    left: &Presentation,
    right: &Presentation,
) -> Result<Gluing, SizeRefusal>
    requires left { length left.now.generators ≤ 16000000 }
    requires images { length lefts.now ≡ length rights.now }
    ensures few { IfOk result (λ made. length made.sorts.items ≤ 16000000) }
    ensures sorts { IfOk result (λ made. made.sorts.items ≡ sorts_of (left.now ∷ right.now ∷ [])) }
    ensures equations { IfOk result (λ made. made.equations.items
        ≡ equations_from 0 (left.now ∷ right.now ∷ [])
        ++ glued_images (length left.now.generators) lefts.now rights.now) }
    ensures refused { IfErr result (λ refusal. (refusal ≡ SizeRefusal.Memory)
        ⊎ ((refusal ≡ SizeRefusal.TooLarge)
        × (16000000 < length (sorts_of (left.now ∷ right.now ∷ []))))) }
{
    let mut gluing = Gluing::new(alloc);
    if let Err(refusal) = gluing.add(alloc, left) {
        return Err(refusal);
    }
    if let Err(refusal) = gluing.add(alloc, right) {
        return Err(refusal);
    }
    let first = left.generators.len() as u32;
    push_glued(alloc, first, lefts, rights, &mut gluing.equations)?;
    Ok(gluing)
}

/// Appends an equation for each two images that stand beside one another.
fn push_glued(
    alloc: Global,
    first: u32,
    lefts: &[Image],
    rights: &[Image],
    made: &mut Vec<Equation>,
) -> Result<(), AllocError>
    requires { length lefts.now ≡ length rights.now }
    ensures { OnOk result (made.new.items ≡ made.old.items ++ glued_images first lefts.now rights.now) }
{
    for (place, left) in lefts.iter().enumerate() {
        made.push(glue_images(alloc, first, left, &rights[place])?)?;
    }
    Ok(())
}

/// An image on the left equals one on the right, whose generators stand behind `first` ones of the left. Images of
/// different kinds are none of one generator.
fn glue_images(
    alloc: Global,
    first: u32,
    left: &Image,
    right: &Image,
) -> Result<Equation, AllocError>
    ensures { IfOk result (λ made. made ≡ glued first left.now right.now) }
{
    match (left, right) {
        (Image::Row(left), Image::Row(right)) => {
            let left = copy_entity_term(alloc, left)?;
            Ok(Equation::Ent(left, shift_ent(alloc, first, right)?))
        }
        (Image::Value(left), Image::Value(right)) => {
            let left = copy_type_term(alloc, left)?;
            Ok(Equation::Typ(left, shift_type(alloc, first, right)?))
        }
        (Image::Row(_), Image::Value(_)) => Ok(no_equation()),
        (Image::Value(_), Image::Row(_)) => Ok(no_equation()),
    }
}

/// What stands for an equation between terms of different kinds.
fn no_equation() -> Equation
    ensures { result ≡ TypEquation (Const (Named 0)) (Const (Named 0)) }
{
    Equation::Typ(
        TypeTerm::Const(Con::Named(0)),
        TypeTerm::Const(Con::Named(0)),
    )
}
