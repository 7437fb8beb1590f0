//! The ends of attributes.
ghost use Rattle.std.specs.Prelude.{◌≡◌, map, IfOk};

use cq_theory::Edge;
use std::alloc::{AllocError, Global};

/// The entity of each attribute.
pub fn sources(alloc: Global, attributes: &[Edge]) -> Result<Vec<u32>, AllocError>
    ensures { IfOk result (λ sources. sources.items ≡ map (λ edge. edge.from) attributes.now) }
{
    attributes.iter().map(|edge| edge.from).collect(alloc)
}

/// The type of each attribute.
pub fn targets(alloc: Global, attributes: &[Edge]) -> Result<Vec<u32>, AllocError>
    ensures { IfOk result (λ targets. targets.items ≡ map (λ edge. edge.to) attributes.now) }
{
    attributes.iter().map(|edge| edge.to).collect(alloc)
}
