//! Equations that are put before those of a schema.
ghost use Rattle.std.specs.Prelude.{◌≡◌, ◌++◌, IfOk};
ghost use Rattle.cq_colimit.specs.Appended.{ArePathEqs, AreObsEqs, with_first};

use crate::images::Equations;
use cq_base::Seq;
use cq_theory::{ObsEq, PathEq, Schema};
use std::alloc::{AllocError, Global};
use std::mem::replace;

/// The path equations, and then those of the schema.
fn path_eqs_of(
    alloc: Global,
    first: Vec<PathEq>,
    rest: Seq<PathEq>,
) -> Result<Seq<PathEq>, AllocError>
    ensures { IfOk result (λ made. made ≡ first.items ++ rest) }
{
    let mut made = first;
    for equation in rest.into_vec() {
        made.push(equation)?;
    }
    Ok(Seq::from_vec(made))
}

/// The observation equations, and then those of the schema.
fn obs_eqs_of(alloc: Global, first: Vec<ObsEq>, rest: Seq<ObsEq>) -> Result<Seq<ObsEq>, AllocError>
    ensures { IfOk result (λ made. made ≡ first.items ++ rest) }
{
    let mut made = first;
    for equation in rest.into_vec() {
        made.push(equation)?;
    }
    Ok(Seq::from_vec(made))
}

/// Equations, and then those of the schema.
fn appended(
    alloc: Global,
    equations: Equations,
    path_eqs: Seq<PathEq>,
    obs_eqs: Seq<ObsEq>,
) -> Result<(Seq<PathEq>, Seq<ObsEq>), AllocError>
    ensures path_eqs { IfOk result (λ made. made.0 ≡ equations.path_eqs.items ++ path_eqs) }
    ensures obs_eqs { IfOk result (λ made. made.1 ≡ equations.obs_eqs.items ++ obs_eqs) }
{
    let path_eqs = path_eqs_of(alloc, equations.path_eqs, path_eqs)?;
    let obs_eqs = obs_eqs_of(alloc, equations.obs_eqs, obs_eqs)?;
    Ok((path_eqs, obs_eqs))
}

/// Puts equations before those of the schema.
pub(crate) fn put_first(
    alloc: Global,
    schema: Schema,
    equations: Equations,
) -> Result<Schema, AllocError>
    requires path_eqs { ArePathEqs schema equations.path_eqs.items }
    requires obs_eqs { AreObsEqs schema equations.obs_eqs.items }
    ensures { IfOk result (λ made. made ≡ with_first schema equations.path_eqs.items equations.obs_eqs.items) }
{
    schema.is_well_sorted();
    let mut schema = schema;
    let own_path_eqs = replace(&mut schema.path_eqs, Seq::from_vec(Vec::new(alloc)));
    let own_obs_eqs = replace(&mut schema.obs_eqs, Seq::from_vec(Vec::new(alloc)));
    let (path_eqs, obs_eqs) = appended(alloc, equations, own_path_eqs, own_obs_eqs)?;
    schema.path_eqs = path_eqs;
    schema.obs_eqs = obs_eqs;
    Ok(schema)
}
