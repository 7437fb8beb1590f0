//! Why two constants of a declared instance are equal, from the declarations of its file.
//!
//! `push_clash` makes the presentation that the declaration poses (`clash`), says of which instances it is made
//! (`parts`) and where their equations are written (`writing`), and has the derivation told (`cq_conflict`).
#![tactic(auto)]

mod clash;
mod parts;
mod writing;

pub use clash::{Declared, push_clash};
pub use cq_conflict::Constants;
