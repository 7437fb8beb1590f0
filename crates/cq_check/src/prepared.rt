//! A schema, with what is made of it once for all that is decided over it.
ghost use Rattle.std.specs.Prelude.{◌≡◌, IfOk};
ghost use Rattle.cq_check.specs.Prepared.{IsPreparedFor};

use cq_rows::Outline;
use cq_theory::{Groups, Schema, observation_equations_by_entity};
use std::alloc::{AllocError, Global};

/// A schema, with what depends on it alone: the outline of rows over it, and the observation equations that begin at
/// each entity. It is made once for all presentations and depths, each of which then costs no more than its rows.
pub struct Prepared<'a> {
    pub schema: &'a Schema,
    pub outline: Outline,
    pub observations: Groups,
}

impl Drop for Prepared<'_> {
    fn drop(self) {
        let Self {
            schema: _,
            outline: _,
            observations: _,
        } = self;
    }
}

impl<'a> Prepared<'a> {
    /// A schema, prepared.
    pub fn new(alloc: Global, schema: &'a Schema) -> Result<Prepared<'a>, AllocError>
        ensures { IfOk result (IsPreparedFor schema.now) }
    {
        let outline = Outline::new(alloc, schema)?;
        let observations = observation_equations_by_entity(alloc, schema)?;
        Ok(Prepared {
            schema,
            outline,
            observations,
        })
    }
}
