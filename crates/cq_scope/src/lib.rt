//! The names of generators, of which each stands for the first generator that has it.
#![tactic(auto)]

pub mod building;
pub mod names;

pub use building::build_over;
pub use names::{Firsts, Scope, firsts_of};
