//! What rows are made from.
use crate::outline::Outline;
use cq_theory::{Presentation, Schema};

/// A presentation, its schema, and the outline of the schema, which may lack the path equations where no generator is
/// of an entity.
#[derive(Clone, Copy)]
pub struct Origin<'a> {
    pub schema: &'a Schema,
    pub presentation: &'a Presentation,
    pub outline: &'a Outline,
}
