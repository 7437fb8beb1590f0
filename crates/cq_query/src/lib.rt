//! Queries from a schema to a schema: what they keep, their frozen presentations, their duties, and the presentation of
//! coeval.
//!
//! A query keeps, beside its blocks, what begins at each entity of its target. Contracts see the two schemas and the
//! blocks; the lists stand in the type's invariant. The blocks are made by `cq_blocks`, whose types of parts and blocks
//! this crate passes on.
//!
//! `query` has the type, its constructor and look-ups in it, `puts` terms with other terms in place of their
//! generators, `translation` what a query makes of the keys, attributes and terms of its target. Over these stand
//! `duties` (with frozen presentations; `copies`: their equations) and `coeval` (`sorts`: its generators, `rows`: its
//! equations). `laws` says what follows for duties, answers, coeval and the tables of eval.
#![tactic(auto)]

mod coeval;
mod copies;
mod duties;
pub mod laws;
mod puts;
pub mod query;
mod rows;
mod sorts;
pub mod translation;

pub use cq_blocks::{Block, Clause, QueryParts, parts};
pub use duties::push_equal_terms;
pub use query::Query;
