//! Transforms: what is posed of them.
ghost use Rattle.std.specs.Prelude.{◌≡◌, ◌<◌, ◌^◌, Some, None, IfOk, IfErr, length};
ghost use Rattle.cq_base.specs.declared.name.Name.{Name as TheName};
ghost use Rattle.cq_base.specs.declared.place.Place.{Place as ThePlace};
ghost use Rattle.cq_theory.specs.Schema.{IsSchema};
ghost use Rattle.cq_transform.specs.declared.refusal.TransformRefusal.TheVariants.{Broken as BreaksEquation};
ghost use Rattle.cq_transform.specs.Images.{images_fault, images_made};
ghost use Rattle.cq_transform.specs.Transforming.{Tells as TellsImages};
ghost use Rattle.cq_program.specs.Posed.{arrow_breach};
ghost use Rattle.cq_program.specs.Transforms.{ends_at, identical_posed, images_posed, transform_posed};
ghost use Rattle.cq_environment.specs.Environment.{Answers, AreSettled, IsTermModel, Tells, ends_meant};
ghost use Rattle.cq_environment.specs.Environment.{environment_of, instance_meant};
ghost use Rattle.cq_program.specs.Images.{rule_on_images as told_rule};
ghost use Rattle.cq_parts.specs.Parts.{transform_count, transform_parts as literal_parts};
ghost use Rattle.cq_parts.specs.Parts.{transform_places as literal_places};
ghost use Rattle.cq_program.specs.Posing.{IsGrounded, IsPosed, IsTransformOf, posed_as};

use crate::refusals::tell_arrow;
use crate::statement::Statement;
use cq_base::{Name, Place, Raw, Seq};
use cq_environment::{
    Environment, NamedEnds, NamedInstance, ProgramRefusal, Reason, copy_instance, instance_of,
};
use cq_instance::{Instance, Transform};
use cq_parts::{transform_parts, transform_places};
use cq_syntax::{Spot, TransformLit};
use cq_theory::ArrowRefusal;
use cq_transform::{TransformRefusal, identity, transform};
use std::alloc::{AllocError, Global};

/// The images of generators between two ends, and the number, from 1, of the first equation that they don't keep.
pub struct BrokenImages {
    pub ends: NamedEnds,
    pub parts: Seq<(Name, Raw)>,
    pub number: u64,
}

impl Drop for BrokenImages {
    fn drop(self) {
        let Self {
            ends: _,
            parts: _,
            number: _,
        } = self;
    }
}

/// A transform by the images of generators, between two instances over one schema, or images that don't keep an
/// equation.
pub fn pose_transform(
    alloc: Global,
    env: &Environment,
    place: Place,
    literal: &TransformLit,
) -> Result<Statement, ProgramRefusal>
    requires few { transform_count literal.now < 2 ^ 32 }
    requires settled { AreSettled (environment_of env.now.names.entries) }
    ensures posed { Answers posed_as result (transform_posed (environment_of env.now.names.entries) place literal.now) }
    ensures well_sorted { IfOk result IsPosed }
    ensures grounded { (name : TheName) → IfOk result
        (λ statement. IsGrounded (environment_of env.now.names.entries) name (posed_as statement)) }
{
    let start = instance_of(env, &literal.source)?;
    let finish = instance_of(env, &literal.target)?;
    if start.schema != finish.schema {
        return Err(ProgramRefusal::Broken(literal.target.place, Reason::WrongSchema));
    }
    match name_ends(&literal.source.name, &literal.target.name, start, finish) {
        Ok(ends) => pose_images(alloc, place, ends, literal),
        Err(_) => Err(ProgramRefusal::Memory),
    }
}

/// The images of a literal between its ends, or the first that breaks a rule, or a generator without an image.
fn pose_images(
    alloc: Global,
    place: Place,
    ends: NamedEnds,
    literal: &TransformLit,
) -> Result<Statement, ProgramRefusal>
    requires few { transform_count literal.now < 2 ^ 32 }
    requires over { ends.finish.instance.value.schema ≡ ends.start.instance.value.schema }
    requires modelled { IsTermModel ends.start.instance.value }
    ensures posed { Answers posed_as result (images_posed place literal.now (ends_meant ends)) }
    ensures well_sorted { IfOk result IsPosed }
{
    let parts = transform_parts(alloc, literal)?;
    match make_transform(alloc, &ends, parts) {
        Ok(made) => Ok(Statement::Transform(ends, made)),
        Err(refusal) => refuse_images(alloc, place, ends, literal, refusal),
    }
}

/// The transform between two ends that sends generators to given terms.
fn make_transform(
    alloc: Global,
    ends: &NamedEnds,
    parts: Vec<(Name, Raw)>,
) -> Result<Transform, TransformRefusal>
    requires over { ends.now.finish.instance.value.schema ≡ ends.now.start.instance.value.schema }
    requires modelled { IsTermModel ends.now.start.instance.value }
    requires parts { length parts.items < 2 ^ 32 }
    ensures accepted { IfOk result (λ _. images_fault ends.now.start.instance.value ends.now.finish.instance.value
        parts.items ≡ None) }
    ensures stands { IfOk result (IsTransformOf (ends_meant ends.now)
        (images_made ends.now.start.instance.value ends.now.finish.instance.value parts.items)) }
    ensures refused { IfErr result (TellsImages ends.now.start.instance.value ends.now.finish.instance.value
        parts.items) }
{
    let start: &Instance = &ends.start.instance;
    let finish: &Instance = &ends.finish.instance;
    is_over_schema(start);
    transform(alloc, start, finish, parts)
}

/// Images that don't keep an equation, or the first that breaks a rule, or a generator without an image.
fn refuse_images(
    alloc: Global,
    place: Place,
    ends: NamedEnds,
    literal: &TransformLit,
    refusal: TransformRefusal,
) -> Result<Statement, ProgramRefusal>
    requires { TellsImages ends.start.instance.value ends.finish.instance.value (literal_parts literal.now) refusal }
    ensures posed { Answers posed_as result (images_posed place literal.now (ends_meant ends)) }
    ensures well_sorted { IfOk result IsPosed }
{
    match rule_on_images(refusal) {
        Ok(rule) => Err(tell_rule(alloc, place, literal, rule)),
        Err(number) => pose_broken(alloc, ends, literal, number),
    }
}

/// The rule on parts that a refusal of images tells, or the number of an equation that isn't kept.
fn rule_on_images(refusal: TransformRefusal) -> Result<ArrowRefusal, u64>
    ensures rule { IfOk result (λ rule. told_rule refusal ≡ Some rule) }
    ensures number { IfErr result (λ number. refusal ≡ BreaksEquation number) }
{
    match refusal {
        TransformRefusal::Duplicate(part) => Ok(ArrowRefusal::Duplicate(part)),
        TransformRefusal::Unknown(part) => Ok(ArrowRefusal::Unknown(part)),
        TransformRefusal::WrongCount(part) => Ok(ArrowRefusal::WrongCount(part)),
        TransformRefusal::WrongSort(part) => Ok(ArrowRefusal::WrongSort(part)),
        TransformRefusal::Reserved(part) => Ok(ArrowRefusal::Reserved(part)),
        TransformRefusal::TooLarge(part) => Ok(ArrowRefusal::TooLarge(part)),
        TransformRefusal::Missing(name) => Ok(ArrowRefusal::Missing(name)),
        TransformRefusal::Broken(number) => Err(number),
        TransformRefusal::Memory => Ok(ArrowRefusal::Memory),
    }
}

/// The rule that an image breaks, at its place, or the generator without an image, at the declaration's place.
fn tell_rule(
    alloc: Global,
    place: Place,
    literal: &TransformLit,
    rule: ArrowRefusal,
) -> ProgramRefusal
    ensures { Tells result (arrow_breach place (literal_places literal.now) rule) }
{
    match transform_places(alloc, literal) {
        Ok(places) => tell_arrow(place, places.as_slice(), rule),
        Err(_) => ProgramRefusal::Memory,
    }
}

/// The images of a literal between two ends, with the number of an equation.
fn pose_broken(
    alloc: Global,
    ends: NamedEnds,
    literal: &TransformLit,
    number: u64,
) -> Result<Statement, ProgramRefusal>
    requires { TellsImages ends.start.instance.value ends.finish.instance.value (literal_parts literal.now)
        (BreaksEquation number) }
    ensures posed { (place : ThePlace) → Answers posed_as result (images_posed place literal.now (ends_meant ends)) }
    ensures well_sorted { IfOk result IsPosed }
{
    match transform_parts(alloc, literal) {
        Ok(parts) => Ok(Statement::Broken(BrokenImages {
            ends,
            parts: Seq::from_vec(parts),
            number,
        })),
        Err(_) => Err(ProgramRefusal::Memory),
    }
}

/// The identity of an instance.
pub fn pose_identical(
    alloc: Global,
    env: &Environment,
    used: &Spot,
) -> Result<Statement, ProgramRefusal>
    requires settled { AreSettled (environment_of env.now.names.entries) }
    ensures posed { Answers posed_as result (identical_posed (environment_of env.now.names.entries) used.now) }
    ensures well_sorted { IfOk result IsPosed }
    ensures grounded { (name : TheName) → IfOk result
        (λ statement. IsGrounded (environment_of env.now.names.entries) name (posed_as statement)) }
{
    let part = instance_of(env, used)?;
    let start: &Instance = &part.instance;
    is_over_schema(start);
    let transform = identity(alloc, start)?;
    match name_both_ends(used, part) {
        Ok(ends) => Ok(Statement::Transform(ends, transform)),
        Err(_) => Err(ProgramRefusal::Memory),
    }
}

/// An instance as both ends.
fn name_both_ends(used: &Spot, part: NamedInstance) -> Result<NamedEnds, AllocError>
    ensures { IfOk result (λ ends. ends_meant ends ≡ ends_at used.now (instance_meant part)) }
{
    let finish = copy_instance(&part)?;
    name_ends(&used.name, &used.name, part, finish)
}

pub fn name_ends(
    source: &Name,
    target: &Name,
    start: NamedInstance,
    finish: NamedInstance,
) -> Result<NamedEnds, AllocError>
    ensures { IfOk result (λ ends. ends_meant ends ≡ record
        { source = source.now; target = target.now; start = instance_meant start; finish = instance_meant finish }) }
{
    Ok(NamedEnds {
        source: source.clone()?,
        target: target.clone()?,
        start,
        finish,
    })
}

/// The schema of an instance is well sorted. The call does nothing.
pub fn is_over_schema(instance: &Instance)
    ensures { IsSchema instance.now.schema }
{
    instance.schema().is_well_sorted();
}
