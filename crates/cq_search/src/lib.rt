//! Why two terms are equal: derivations that are found.
#![tactic(auto)]

mod classes;
mod expanding;
mod forest;
mod graph;
mod halt;
mod hashing;
mod listing;
mod near;
mod needed;
mod node;
mod pruning;
mod putting;
mod reading;
mod roots;
pub mod sought;
mod steps;
mod terms;
mod ways;
