//! Identities.
ghost use Rattle.std.specs.Prelude.{◌≡◌, ◌<◌, ◌≤◌, IfOk, length, map};
ghost use Rattle.cq_base.specs.declared.name.Name.{Name as AnyName};
ghost use Rattle.cq_theory.specs.declared.value.Value.TheVariants.{Null};
ghost use Rattle.cq_theory.specs.Canonical.{below};
ghost use Rattle.cq_theory.specs.Homomorphism.{identity_rows, identity_nulls};
ghost use Rattle.cq_theory.specs.Tables.{Holds};
ghost use Rattle.cq_transform.specs.Identities.{itself, identity_images};
ghost use Rattle.cq_transform.specs.Transforms.{GoesFrom};

use cq_base::{Name, Seq};
use cq_instance::{Image, Instance, Transform};
use cq_theory::{EntTerm, Path, Sort, TypeTerm, Value};
use std::alloc::{AllocError, Global};

/// The transform that sends each generator, each row and each null of an instance to itself.
pub fn identity(alloc: Global, instance: &Instance) -> Result<Transform, AllocError>
    ensures images { IfOk result (λ made. made.images ≡ identity_images instance.now.presentation.generators) }
    ensures rows { IfOk result (λ made. made.rows ≡ identity_rows instance.now.tables) }
    ensures nulls { IfOk result (λ made. made.nulls ≡ identity_nulls instance.now.tables) }
    ensures goes { IfOk result (λ made.
        Holds instance.now.schema instance.now.presentation instance.now.tables instance.now.assignment
        → GoesFrom made instance.now instance.now) }
{
    let images = own_images(alloc, instance.presentation().generators.as_slice())?;
    let rows = own_rows(alloc, instance.sheet().counts.as_slice())?;
    let nulls = own_nulls(alloc, instance.algebra().nulls.len())?;
    Ok(Transform {
        images: Seq::from_vec(images),
        rows: Seq::from_vec(rows),
        nulls: Seq::from_vec(nulls),
    })
}

/// A generator as its own image.
fn own_image(number: u32, sort: Sort) -> Image
    ensures { (name : AnyName) → result ≡ itself (number, (name, sort)) }
{
    match sort {
        Sort::Plain(_) => Image::Value(TypeTerm::Gen(number)),
        Sort::Entity(_) => Image::Row(EntTerm {
            generator: number,
            path: Path::empty(),
        }),
    }
}

/// Each generator as its own image.
fn own_images(alloc: Global, generators: &[(Name, Sort)]) -> Result<Vec<Image>, AllocError>
    requires { length generators.now ≤ 16000000 }
    ensures { IfOk result (λ made. made.items ≡ identity_images generators.now) }
{
    let mut images = Vec::with_capacity(alloc, generators.len())?;
    for (number, generator) in generators.iter().enumerate() {
        images.push(own_image(number as u32, generator.1))?;
    }
    Ok(images)
}

/// The numbers below a count.
#[tactic(auto, using(crate::proofs::Ranges::below_more))]
fn numbers_below(alloc: Global, count: u32) -> Result<Seq<u32>, AllocError>
    ensures { IfOk result (λ made. made ≡ below count) }
{
    let mut numbers = Vec::with_capacity(alloc, count as usize)?;
    for number in 0..count {
        numbers.push(number)?;
    }
    Ok(Seq::from_vec(numbers))
}

/// The rows of each entity.
fn own_rows(alloc: Global, counts: &[u32]) -> Result<Vec<Seq<u32>>, AllocError>
    ensures { IfOk result (λ made. made.items ≡ map below counts.now) }
{
    let mut rows = Vec::with_capacity(alloc, counts.len())?;
    for count in counts {
        rows.push(numbers_below(alloc, *count)?)?;
    }
    Ok(rows)
}

/// The nulls.
#[tactic(auto, using(crate::proofs::Ranges::map_below_more))]
fn own_nulls(alloc: Global, count: usize) -> Result<Vec<Value>, AllocError>
    ensures { IfOk result (λ made. made.items ≡ map Null (below count)) }
{
    let mut nulls = Vec::with_capacity(alloc, count)?;
    for label in 0..count {
        nulls.push(Value::Null(label as u64))?;
    }
    Ok(nulls)
}
