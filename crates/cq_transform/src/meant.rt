//! What images mean in the target.
ghost use Rattle.std.specs.Prelude.{◌≡◌, All, IfOk, map};
ghost use Rattle.cq_theory.specs.Sorts.{IsGround};
ghost use Rattle.cq_theory.specs.Tables.{meaning_of};
ghost use Rattle.cq_instance.specs.Standing.{meaning};
ghost use Rattle.cq_transform.specs.Transforms.{term_of, meanings_in};

use cq_instance::{Image, Instance, Standing};
use std::alloc::{AllocError, Global};

/// What an image means.
fn standing(alloc: Global, target: &Instance, image: &Image) -> Result<Standing, AllocError>
    requires { IsGround target.now.schema target.now.presentation (term_of image.now) }
    ensures { IfOk result (λ made. meaning made
        ≡ meaning_of target.now.tables target.now.assignment (term_of image.now)) }
{
    match image {
        Image::Row(term) => Ok(Standing::Row(target.row_of(term))),
        Image::Value(term) => {
            let value = target.value_of(alloc, term)?;
            Ok(Standing::Value(value))
        }
    }
}

/// What each image means.
pub(crate) fn standings(
    alloc: Global,
    target: &Instance,
    images: &[Image],
) -> Result<Vec<Standing>, AllocError>
    requires { All (λ image. IsGround target.now.schema target.now.presentation (term_of image)) images.now }
    ensures { IfOk result (λ made. map meaning made.items ≡ meanings_in target.now images.now) }
{
    let mut standings = Vec::with_capacity(alloc, images.len())?;
    for image in images {
        standings.push(standing(alloc, target, image)?)?;
    }
    Ok(standings)
}
