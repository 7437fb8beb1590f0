//! What begins at each entity of a schema: its foreign keys, attributes and equations.
ghost use Rattle.std.specs.Prelude.{◌≡◌, ◌<◌, All, IfOk, length};
ghost use Rattle.cq_theory.specs.Beginnings.{AreBeginningsOf};
ghost use Rattle.cq_theory.specs.Groups.{AreGroups};
ghost use Rattle.cq_theory.specs.Groups.{edge_sources as sources_of_edges, path_eq_sources as sources_of_path_eqs};
ghost use Rattle.cq_theory.specs.Groups.{obs_eq_sources as sources_of_obs_eqs};

use crate::groups::Groups;
use crate::schema::{Edge, ObsEq, PathEq, Schema};
use std::alloc::{AllocError, Global};

/// The foreign keys, attributes, path equations and observation equations that begin at each entity of a schema, and
/// the place of each among those of its entity.
pub struct Beginnings {
    pub keys: Groups,
    pub attributes: Groups,
    pub path_eqs: Groups,
    pub obs_eqs: Groups,
}

impl Drop for Beginnings {
    fn drop(self) {
        let Self {
            keys: _,
            attributes: _,
            path_eqs: _,
            obs_eqs: _,
        } = self;
    }
}

impl Beginnings {
    /// What begins at each entity of a schema.
    pub fn of(alloc: Global, schema: &Schema) -> Result<Beginnings, AllocError>
        ensures { IfOk result (AreBeginningsOf schema.now) }
    {
        let keys = keys_by_entity(alloc, schema)?;
        let attributes = attributes_by_entity(alloc, schema)?;
        let path_eqs = path_equations_by_entity(alloc, schema)?;
        let obs_eqs = observation_equations_by_entity(alloc, schema)?;
        Ok(Beginnings {
            keys,
            attributes,
            path_eqs,
            obs_eqs,
        })
    }
}

fn edge_sources(alloc: Global, edges: &[Edge]) -> Result<Vec<u32>, AllocError>
    ensures { IfOk result (λ sources. sources.items ≡ sources_of_edges edges.now) }
{
    let mut sources = Vec::new(alloc);
    for edge in edges {
        sources.push(edge.from)?;
    }
    Ok(sources)
}

fn path_eq_sources(alloc: Global, path_eqs: &[PathEq]) -> Result<Vec<u32>, AllocError>
    ensures { IfOk result (λ sources. sources.items ≡ sources_of_path_eqs path_eqs.now) }
{
    let mut sources = Vec::new(alloc);
    for path_eq in path_eqs {
        sources.push(path_eq.entity)?;
    }
    Ok(sources)
}

fn obs_eq_sources(alloc: Global, obs_eqs: &[ObsEq]) -> Result<Vec<u32>, AllocError>
    ensures { IfOk result (λ sources. sources.items ≡ sources_of_obs_eqs obs_eqs.now) }
{
    let mut sources = Vec::new(alloc);
    for obs_eq in obs_eqs {
        sources.push(obs_eq.entity)?;
    }
    Ok(sources)
}

fn group_edges(alloc: Global, count: usize, edges: &[Edge]) -> Result<Groups, AllocError>
    requires { All (λ source. source < count) (sources_of_edges edges.now) }
    ensures { IfOk result (λ made. AreGroups (sources_of_edges edges.now) count made) }
{
    let sources = edge_sources(alloc, edges)?;
    let groups = Groups::new(alloc, count, sources.as_slice())?;
    Ok(groups)
}

fn group_path_eqs(alloc: Global, count: usize, path_eqs: &[PathEq]) -> Result<Groups, AllocError>
    requires { All (λ source. source < count) (sources_of_path_eqs path_eqs.now) }
    ensures { IfOk result (λ made. AreGroups (sources_of_path_eqs path_eqs.now) count made) }
{
    let sources = path_eq_sources(alloc, path_eqs)?;
    let groups = Groups::new(alloc, count, sources.as_slice())?;
    Ok(groups)
}

fn group_obs_eqs(alloc: Global, count: usize, obs_eqs: &[ObsEq]) -> Result<Groups, AllocError>
    requires { All (λ source. source < count) (sources_of_obs_eqs obs_eqs.now) }
    ensures { IfOk result (λ made. AreGroups (sources_of_obs_eqs obs_eqs.now) count made) }
{
    let sources = obs_eq_sources(alloc, obs_eqs)?;
    let groups = Groups::new(alloc, count, sources.as_slice())?;
    Ok(groups)
}

/// The foreign keys that begin at each entity of a schema, and the place of each among those of its entity.
pub fn keys_by_entity(alloc: Global, schema: &Schema) -> Result<Groups, AllocError>
    ensures { IfOk result (λ made. AreGroups (sources_of_edges schema.now.keys) (length schema.now.entities) made) }
{
    schema.is_well_sorted();
    let groups = group_edges(alloc, schema.entities.len(), schema.keys.as_slice())?;
    Ok(groups)
}

/// The attributes that begin at each entity of a schema, and the place of each among those of its entity.
pub fn attributes_by_entity(alloc: Global, schema: &Schema) -> Result<Groups, AllocError>
    ensures { IfOk result (λ made. AreGroups (sources_of_edges schema.now.attributes) (length schema.now.entities)
        made) }
{
    schema.is_well_sorted();
    let groups = group_edges(alloc, schema.entities.len(), schema.attributes.as_slice())?;
    Ok(groups)
}

/// The path equations that begin at each entity of a schema.
pub fn path_equations_by_entity(alloc: Global, schema: &Schema) -> Result<Groups, AllocError>
    ensures { IfOk result (λ made. AreGroups (sources_of_path_eqs schema.now.path_eqs) (length schema.now.entities)
        made) }
{
    schema.is_well_sorted();
    let groups = group_path_eqs(alloc, schema.entities.len(), schema.path_eqs.as_slice())?;
    Ok(groups)
}

/// The observation equations that begin at each entity of a schema.
pub fn observation_equations_by_entity(alloc: Global, schema: &Schema) -> Result<Groups, AllocError>
    ensures { IfOk result (λ made. AreGroups (sources_of_obs_eqs schema.now.obs_eqs) (length schema.now.entities)
        made) }
{
    schema.is_well_sorted();
    let groups = group_obs_eqs(alloc, schema.entities.len(), schema.obs_eqs.as_slice())?;
    Ok(groups)
}
