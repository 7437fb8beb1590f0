//! Instances that are moved along mappings.
#![tactic(auto)]

pub mod columns;
pub mod laws;
pub mod pulling;
pub mod pushing;

pub use pulling::delta;
pub use pushing::sigma;
