//! Terms with the images of generators in the place of these.
ghost use Rattle.std.specs.Prelude.{◌≡◌, IfOk, slice_get};
ghost use Rattle.cq_transform.specs.Composing.{value_term, put_row as row_put, put_value as value_put};
ghost use Rattle.cq_transform.specs.Composing.{put_image as image_put};

use cq_base::Seq;
use cq_instance::Image;
use cq_terms::copy_type_term;
use cq_theory::{Con, EntTerm, TypeTerm, alone, extend};
use std::alloc::{AllocError, Global};

/// An entity term with the image of its generator in the generator's place.
pub fn put_row(alloc: Global, images: &[Image], term: &EntTerm) -> Result<EntTerm, AllocError>
    ensures { IfOk result (λ made. made ≡ row_put images.now term.now) }
{
    match images.get(term.generator as usize) {
        Some(Image::Row(at)) => extend(alloc, at, term.path.as_slice()),
        Some(Image::Value(_)) => extend(alloc, &alone(alloc, 0), term.path.as_slice()),
        None => extend(alloc, &alone(alloc, 0), term.path.as_slice()),
    }
}

/// The term to which a generator of a type is sent, and a constant where there is none.
fn value_at(alloc: Global, images: &[Image], generator: u32) -> Result<TypeTerm, AllocError>
    ensures { IfOk result (λ made. made ≡ value_term (slice_get images.now generator)) }
{
    match images.get(generator as usize) {
        Some(Image::Value(term)) => copy_type_term(alloc, term),
        Some(Image::Row(_)) => Ok(TypeTerm::Const(Con::Named(0))),
        None => Ok(TypeTerm::Const(Con::Named(0))),
    }
}

/// A type term with the image of each generator in the generator's place.
pub fn put_value(alloc: Global, images: &[Image], term: &TypeTerm) -> Result<TypeTerm, AllocError>
    ensures { IfOk result (λ made. made ≡ value_put images.now term.now) }
{
    match term {
        TypeTerm::Gen(generator) => value_at(alloc, images, *generator),
        TypeTerm::Const(constant) => Ok(TypeTerm::Const(constant.clone()?)),
        TypeTerm::Att(attribute, term) => {
            Ok(TypeTerm::Att(*attribute, put_row(alloc, images, term)?))
        }
        TypeTerm::Fun(function, args) => {
            let mut made = Vec::new(alloc);
            for arg in args.as_slice() {
                made.push(put_value(alloc, images, arg)?)?;
            }
            Ok(TypeTerm::Fun(*function, Seq::from_vec(made)))
        }
    }
}

/// An image with those of its generators in their place.
pub(crate) fn put_image(alloc: Global, images: &[Image], image: &Image) -> Result<Image, AllocError>
    ensures { IfOk result (λ made. made ≡ image_put images.now image.now) }
{
    match image {
        Image::Row(term) => Ok(Image::Row(put_row(alloc, images, term)?)),
        Image::Value(term) => Ok(Image::Value(put_value(alloc, images, term)?)),
    }
}
