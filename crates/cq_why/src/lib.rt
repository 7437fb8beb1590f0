//! The top call of `cqlwhy`: the line that `cqlrun` would write of a file, and then why, and what there is to mend.
//!
//! The file is read and judged once, as `cq_run::run` does it (`reply`): the line comes from what becomes of it there,
//! and what follows it is made by `cq_told`, from the declaration at which the program stopped. All is written at once
//! (`top`).
#![tactic(auto)]

mod reply;
mod top;

pub use top::why;
