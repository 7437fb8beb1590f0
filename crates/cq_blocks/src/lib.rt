//! How the parts of a query become its blocks, and the first fault of parts that break a rule.
//!
//! `parts` has what a literal gives, with names that are not yet looked up, and `block` what is made of it. Each pass
//! has a module: `owners` looks up the entity of each block, `scopes` the variables of each block, `clauses` tests the
//! clauses (`given`: what an earlier one gives), `missing` tells what no clause gives, and `blocks` makes the blocks.
//! `making` has the order of the passes after the first. The clauses are listed once by the attribute or foreign key to
//! which they give something (`index`), and those of one foreign key by variables (`assigned`), so that no pass goes
//! over all clauses for each attribute, foreign key or variable.
#![tactic(auto)]

mod assigned;
pub mod block;
mod blocks;
mod clauses;
mod given;
mod index;
pub mod making;
mod missing;
pub mod owners;
pub mod parts;
mod scopes;

pub use block::Block;
pub use making::{BlockParts, make_blocks};
pub use owners::make_entities;
pub use parts::{Clause, QueryParts};
