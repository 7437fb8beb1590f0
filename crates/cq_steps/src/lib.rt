//! Derivations as lists of steps, and their checker.
//!
//! `check_steps` (`check`) goes over the list once. A step's rule says how many premises it takes (`premises`, which
//! looks them up among the earlier steps), and one function a rule compares them with the step's equation
//! (`following`), term by term (`side`), and asks for the sort of a term where the rule does (`sorts`). The equations
//! of the presentation and of the schema are looked up by their numbers, so a step costs the size of its terms.
#![tactic(auto)]

pub mod check;
pub mod following;
pub mod laws;
pub mod premises;
pub mod side;
pub mod sorts;
pub mod step;

pub use check::check_steps;
pub use step::{Rule, Step};
