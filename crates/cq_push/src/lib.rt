//! Coproducts and pushouts of instances.
//!
//! Presentations are glued part by part (`gluing`). A `Gluing` holds the sorts of the generators so far and the
//! equations, and each further presentation is appended with its generators behind those (`shifting`). The
//! presentations of coproducts and pushouts end in one call, which tests the limit on terms and names the generators;
//! that of a pushout is also made alone.
#![tactic(auto)]

pub mod coproducts;
mod generators;
mod gluing;
pub mod laws;
pub mod pushouts;
mod shifting;

pub use coproducts::coproduct;
pub use pushouts::{pushout, pushout_presentation};
