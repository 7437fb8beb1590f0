//! The images of generators by the parts of a transform, and the image of an equation by them.
ghost use Rattle.std.specs.Prelude.{◌≡◌, ◌≤◌, ◌<◌, IfOk, MatchOption, length, option_and_then};
ghost use Rattle.std.specs.Prelude.{slice_get};
ghost use Rattle.cq_base.specs.Names.{number_of};
ghost use Rattle.cq_scope.specs.Firsts.{AreFirstsOf};
ghost use Rattle.cq_theory.specs.Sorts.{Generators};
ghost use Rattle.cq_transform.specs.Images.{given, image_named, images_made, made_over, scope_of};
ghost use Rattle.cq_witness.specs.Images.{put_equation as equation_put, parts_as_generators};

use cq_base::{Name, Raw};
use cq_instance::{Image, Instance};
use cq_scope::{Firsts, firsts_of};
use cq_theory::{Equation, Schema, Sort};
use cq_transform::{image_in, put_row, put_value};
use std::alloc::{AllocError, Global};

/// The most parts of which names are looked up.
const MOST_PARTS: usize = 16_000_000;

/// The names of parts, as generators of which only the names count.
fn named_parts(alloc: Global, parts: &[(Name, Raw)]) -> Result<Vec<(Name, Sort)>, AllocError>
    ensures { IfOk result (λ made. made.items ≡ parts_as_generators parts.now) }
{
    let mut made = Vec::new(alloc);
    for part in parts {
        made.push((part.0.clone()?, Sort::Plain(0)))?;
    }
    Ok(made)
}

/// The number that stands beside a name.
fn number_beside(firsts: &Firsts, name: &Name) -> Option<u32>
    ensures { result ≡ option_and_then (slice_get firsts.now.numbers) (number_of firsts.now.scope.names name.now) }
{
    match firsts.scope.names.find(name) {
        Some(place) => firsts.numbers.as_slice().get(place as usize).copied(),
        None => None,
    }
}

/// Parts that give images to generators by their names, and the generators over which the images are.
#[derive(Clone, Copy)]
struct Giving<'a> {
    schema: &'a Schema,
    parts: &'a [(Name, Raw)],
    names: &'a Firsts,
    to: &'a Firsts,
}

/// The number of the first part with a name.
fn number_in(giving: &Giving, name: &Name) -> Option<u32>
    requires { AreFirstsOf (parts_as_generators giving.now.parts.now) giving.now.names.now }
    ensures { result ≡ number_of (given giving.now.parts.now) name.now }
{
    number_beside(giving.names, name)
}

/// The image of the generator with a name.
fn make_image(alloc: Global, giving: &Giving, name: &Name) -> Result<Image, AllocError>
    requires { AreFirstsOf (parts_as_generators giving.now.parts.now) giving.now.names.now }
    ensures { (H : Generators) → AreFirstsOf H giving.now.to.now → IfOk result (λ made. made
        ≡ image_named giving.now.schema.now (scope_of H) (given giving.now.parts.now) giving.now.parts.now name.now) }
{
    match number_in(giving, name) {
        Some(place) => {
            let part = giving.parts.get(place as usize);
            image_in(alloc, giving.schema, giving.to, part)
        }
        None => image_in(alloc, giving.schema, giving.to, None),
    }
}

/// The image of each generator.
fn make_images(
    alloc: Global,
    giving: &Giving,
    generators: &[(Name, Sort)],
) -> Result<Vec<Image>, AllocError>
    requires { AreFirstsOf (parts_as_generators giving.now.parts.now) giving.now.names.now }
    ensures { (H : Generators) → AreFirstsOf H giving.now.to.now → IfOk result (λ made. made.items
        ≡ made_over giving.now.schema.now generators.now H giving.now.parts.now) }
{
    let mut images = Vec::new(alloc);
    for generator in generators {
        images.push(make_image(alloc, giving, &generator.0)?)?;
    }
    Ok(images)
}

/// The generators of an instance's presentation.
fn generators_of(instance: &Instance) -> &[(Name, Sort)]
    ensures generators { result.now ≡ instance.now.presentation.generators }
    ensures few { length result.now ≤ 16000000 }
{
    instance.presentation().generators.as_slice()
}

/// The image of each generator of an instance by parts, as terms over another one. None exactly where the parts are
/// more than 16,000,000.
pub fn images_of(
    alloc: Global,
    start: &Instance,
    finish: &Instance,
    parts: &[(Name, Raw)],
) -> Result<Option<Vec<Image>>, AllocError>
    ensures { IfOk result (λ found. MatchOption found (16000000 < length parts.now)
        (λ images. images.items ≡ images_made start.now finish.now parts.now)) }
{
    if parts.len() > MOST_PARTS {
        return Ok(None);
    }
    let named = named_parts(alloc, parts)?;
    let names = firsts_of(alloc, &named)?;
    let to = firsts_of(alloc, generators_of(finish))?;
    let schema: &Schema = start.schema();
    let giving = Giving {
        schema,
        parts,
        names: &names,
        to: &to,
    };
    let images = make_images(alloc, &giving, generators_of(start))?;
    Ok(Some(images))
}

/// An equation with the image of each generator in the generator's place.
pub fn put_equation(
    alloc: Global,
    images: &[Image],
    equation: &Equation,
) -> Result<Equation, AllocError>
    ensures { IfOk result (λ made. made ≡ equation_put images.now equation.now) }
{
    match equation {
        Equation::Ent(left, right) => {
            let left = put_row(alloc, images, left)?;
            let right = put_row(alloc, images, right)?;
            Ok(Equation::Ent(left, right))
        }
        Equation::Typ(left, right) => {
            let left = put_value(alloc, images, left)?;
            let right = put_value(alloc, images, right)?;
            Ok(Equation::Typ(left, right))
        }
    }
}
