//! The nearest of some names, which may have been meant where another one stands.
#![tactic(auto)]

mod choice;

pub use choice::nearest;
