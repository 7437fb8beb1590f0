//! What an instance gives is read back: its files as an import, its literal as a declaration, its tables as those of
//! their canonical presentation.
#![tactic(auto)]

pub mod laws;
