//! Instances of a query's target, read backwards: the freest instances of its source that have those answers.
#![tactic(auto)]

pub mod gluing;

pub use gluing::coeval;
