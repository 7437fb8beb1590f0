//! The images of the equations of the parts.
ghost use Rattle.std.specs.Prelude.{ℕ, List, ◌≡◌, ◌++◌, ◌+◌, ◌≤◌, All, IfOk, OnOk, length, map};
ghost use Rattle.std.specs.List.{flat_map};
ghost use Rattle.cq_theory.specs.Canonical.{below};
ghost use Rattle.cq_mapping.specs.Images.{entity_image};
ghost use Rattle.cq_colimit.specs.Classes.{class_of};
ghost use Rattle.cq_colimit.specs.Joined.{inclusion};
ghost use Rattle.cq_colimit.specs.Appended.{ArePathEqs, AreObsEqs};
ghost use Rattle.cq_colimit.specs.Frame.{HasShortNumbers, GoesInto};
ghost use Rattle.cq_colimit.specs.Joined.{path_eq_image as image_of_path_eq, obs_eq_image as image_of_obs_eq};
ghost use Rattle.cq_colimit.specs.Joined.{path_eq_images, obs_eq_images};

use crate::inclusions::include;
use crate::placed::Placed;
use cq_base::Seq;
use cq_mapping::Mapping;
use cq_theory::{ObsEq, PathEq, Schema};
use std::alloc::{AllocError, Global};
use std::rc::Rc;

/// The image of an entity.
fn image_entity(mapping: &Mapping, entity: u32) -> u32
    ensures { result ≡ entity_image mapping.now entity }
{
    match mapping.entities.as_slice().get(entity as usize) {
        Some(image) => *image,
        None => 0,
    }
}

/// The image of a path equation.
fn image_path_eq(alloc: Global, mapping: &Mapping, equation: &PathEq) -> Result<PathEq, AllocError>
    ensures { IfOk result (λ made. made ≡ image_of_path_eq mapping.now equation.now) }
{
    let left = mapping.image_path(alloc, equation.left.as_slice())?;
    let right = mapping.image_path(alloc, equation.right.as_slice())?;
    Ok(PathEq {
        entity: image_entity(mapping, equation.entity),
        left: Seq::from_vec(left),
        right: Seq::from_vec(right),
    })
}

/// The image of an observation equation.
fn image_obs_eq(alloc: Global, mapping: &Mapping, equation: &ObsEq) -> Result<ObsEq, AllocError>
    ensures { IfOk result (λ made. made ≡ image_of_obs_eq mapping.now equation.now) }
{
    let left = mapping.image_term(alloc, &equation.left)?;
    let right = mapping.image_term(alloc, &equation.right)?;
    Ok(ObsEq {
        entity: image_entity(mapping, equation.entity),
        left,
        right,
    })
}

/// Appends the images of the path equations of a mapping's source.
fn add_path_eqs(alloc: Global, mapping: &Mapping, made: &mut Vec<PathEq>) -> Result<(), AllocError>
    ensures { OnOk result (made.new.items ≡ made.old.items ++ path_eq_images mapping.now) }
{
    for equation in mapping.source.path_eqs.as_slice() {
        made.push(image_path_eq(alloc, mapping, equation)?)?;
    }
    Ok(())
}

/// Appends the images of the observation equations of a mapping's source.
fn add_obs_eqs(alloc: Global, mapping: &Mapping, made: &mut Vec<ObsEq>) -> Result<(), AllocError>
    ensures { OnOk result (made.new.items ≡ made.old.items ++ obs_eq_images mapping.now) }
{
    for equation in mapping.source.obs_eqs.as_slice() {
        made.push(image_obs_eq(alloc, mapping, equation)?)?;
    }
    Ok(())
}

/// Path equations and observation equations.
#[derive(Drop)]
pub(crate) struct Equations {
    pub path_eqs: Vec<PathEq>,
    pub obs_eqs: Vec<ObsEq>,
}

/// Appends the images of a part's equations in a schema of joined symbols.
fn add_images(
    alloc: Global,
    part: &Placed,
    numbers: &[u32],
    target: Rc<Schema>,
    made: &mut Equations,
) -> Result<(), AllocError>
    requires entities { part.now.start.entity + length part.now.schema.entities ≤ length numbers.now }
    requires short { HasShortNumbers part.now }
    requires mapping { (links : List (ℕ × ℕ)) × (numbers.now ≡ map (class_of links) (below (length numbers.now)))
        × GoesInto links target.value part.now }
    ensures path_eqs { (links : List (ℕ × ℕ)) → numbers.now ≡ map (class_of links) (below (length numbers.now)) → OnOk
        result (made.new.path_eqs.items
        ≡ made.old.path_eqs.items ++ path_eq_images (inclusion links target.value part.now)) }
    ensures obs_eqs { (links : List (ℕ × ℕ)) → numbers.now ≡ map (class_of links) (below (length numbers.now)) → OnOk
        result (made.new.obs_eqs.items
        ≡ made.old.obs_eqs.items ++ obs_eq_images (inclusion links target.value part.now)) }
    ensures are_path_eqs { (links : List (ℕ × ℕ)) → numbers.now ≡ map (class_of links) (below (length numbers.now))
        → OnOk result (ArePathEqs target.value (path_eq_images (inclusion links target.value part.now))) }
    ensures are_obs_eqs { (links : List (ℕ × ℕ)) → numbers.now ≡ map (class_of links) (below (length numbers.now))
        → OnOk result (AreObsEqs target.value (obs_eq_images (inclusion links target.value part.now))) }
{
    let mapping = include(alloc, part, numbers, target)?;
    mapping.is_well_sorted();
    add_path_eqs(alloc, &mapping, &mut made.path_eqs)?;
    add_obs_eqs(alloc, &mapping, &mut made.obs_eqs)?;
    Ok(())
}

/// The images of the equations of all parts in a schema of joined symbols.
pub(crate) fn images(
    alloc: Global,
    parts: &[Placed],
    numbers: &[u32],
    target: &Rc<Schema>,
) -> Result<Equations, AllocError>
    requires entities { All (λ part. part.start.entity + length part.schema.entities ≤ length numbers.now) parts.now }
    requires short { All HasShortNumbers parts.now }
    requires mappings { (links : List (ℕ × ℕ)) × (numbers.now ≡ map (class_of links) (below (length numbers.now)))
        × All (GoesInto links target.now.value) parts.now }
    ensures path_eqs { (links : List (ℕ × ℕ)) → numbers.now ≡ map (class_of links) (below (length numbers.now)) → IfOk
        result (λ made.
        made.path_eqs.items ≡ flat_map (λ part. path_eq_images (inclusion links target.now.value part)) parts.now) }
    ensures obs_eqs { (links : List (ℕ × ℕ)) → numbers.now ≡ map (class_of links) (below (length numbers.now)) → IfOk
        result (λ made.
        made.obs_eqs.items ≡ flat_map (λ part. obs_eq_images (inclusion links target.now.value part)) parts.now) }
    ensures are_path_eqs { IfOk result (λ made. ArePathEqs target.now.value made.path_eqs.items) }
    ensures are_obs_eqs { IfOk result (λ made. AreObsEqs target.now.value made.obs_eqs.items) }
{
    let mut made = Equations {
        path_eqs: Vec::new(alloc),
        obs_eqs: Vec::new(alloc),
    };
    for part in parts {
        add_images(alloc, part, numbers, target.clone()?, &mut made)?;
    }
    Ok(made)
}
