//! Ground congruence closure: which nodes are equal, and the value that each of them has.
#![tactic(auto)]

mod classes;
mod closing;
mod constants;
mod entering;
mod entries;
pub mod flat;
mod hashing;
mod key;
mod labels;
mod lists;
pub mod node;
mod numbers;
mod uses;
mod values;

pub use flat::Flat;
pub use node::Node;
