//! Derivations of what holds in an instance.
#![tactic(auto)]

pub mod answer;
pub mod counter;
pub mod draft;
pub mod enumeration;
pub mod laws;
pub mod same;
pub mod stack;

pub use answer::{Answer, explain, quick_derivation};
