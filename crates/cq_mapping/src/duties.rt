//! The equations that a mapping has to preserve.
ghost use Rattle.std.specs.Prelude.{◌≡◌, ◌++◌, map, IfOk, OnOk};
ghost use Rattle.cq_mapping.specs.Images.{path_image};
ghost use Rattle.cq_mapping.specs.Duties.{path_duty as duty_of_path_eq, observation_duty as duty_of_observation};
ghost use Rattle.cq_mapping.specs.Duties.{duties_of};

use crate::images::image_of_entity;
use crate::mapping::Mapping;
use cq_theory::{EntTerm, Equation, ObsEq, Path, PathEq};
use std::alloc::{AllocError, Global};

/// An equation of the target over one generator of an entity, which is the image of an equation of the source.
#[derive(Drop)]
pub struct Duty {
    pub schema_entity: u32,
    pub equation: Equation,
}

impl Mapping {
    /// The images of the source's path equations and then of its observation equations, each over one generator of
    /// the image of its entity.
    pub fn duties(&self, alloc: Global) -> Result<Vec<Duty>, AllocError>
        ensures { IfOk result (λ duties. duties.items ≡ duties_of self.now) }
    {
        let mut duties = Vec::new(alloc);
        add_path_duties(alloc, self, self.source.path_eqs.as_slice(), &mut duties)?;
        add_observation_duties(alloc, self, self.source.obs_eqs.as_slice(), &mut duties)?;
        Ok(duties)
    }
}

/// A path from the one generator.
fn path_term(alloc: Global, mapping: &Mapping, path: &[u32]) -> Result<EntTerm, AllocError>
    ensures { IfOk result (λ made. made ≡ record { generator = 0; path = path_image mapping.now path.now }) }
{
    let path = mapping.image_path(alloc, path)?;
    Ok(EntTerm {
        generator: 0,
        path: Path::from_vec(path)?,
    })
}

fn path_duty(alloc: Global, mapping: &Mapping, equation: &PathEq) -> Result<Duty, AllocError>
    ensures { IfOk result (λ made. made ≡ duty_of_path_eq mapping.now equation.now) }
{
    let left = path_term(alloc, mapping, equation.left.as_slice())?;
    let right = path_term(alloc, mapping, equation.right.as_slice())?;
    Ok(Duty {
        schema_entity: image_of_entity(mapping, equation.entity),
        equation: Equation::Ent(left, right),
    })
}

fn observation_duty(alloc: Global, mapping: &Mapping, equation: &ObsEq) -> Result<Duty, AllocError>
    ensures { IfOk result (λ made. made ≡ duty_of_observation mapping.now equation.now) }
{
    let left = mapping.image_term(alloc, &equation.left)?;
    let right = mapping.image_term(alloc, &equation.right)?;
    Ok(Duty {
        schema_entity: image_of_entity(mapping, equation.entity),
        equation: Equation::Typ(left, right),
    })
}

fn add_path_duties(
    alloc: Global,
    mapping: &Mapping,
    equations: &[PathEq],
    duties: &mut Vec<Duty>,
) -> Result<(), AllocError>
    ensures { OnOk result (duties.new.items ≡ duties.old.items ++ map (duty_of_path_eq mapping.now) equations.now) }
{
    for equation in equations {
        duties.push(path_duty(alloc, mapping, equation)?)?;
    }
    Ok(())
}

fn add_observation_duties(
    alloc: Global,
    mapping: &Mapping,
    equations: &[ObsEq],
    duties: &mut Vec<Duty>,
) -> Result<(), AllocError>
    ensures { OnOk result (duties.new.items ≡ duties.old.items ++ map (duty_of_observation mapping.now) equations.now) }
{
    for equation in equations {
        duties.push(observation_duty(alloc, mapping, equation)?)?;
    }
    Ok(())
}
