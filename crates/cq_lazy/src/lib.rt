//! Queries that are made when they are used.
//!
//! A composite can have millions of variables, and a chain of composites may only be declared. So a program keeps of a
//! composite how it is made (`plan`), and beside that what tells at once whether a further composite passes the limits:
//! how many variables each block has (`widths`), and how long terms can be (`lengths`, over `terms`). `lazy_query` has
//! the query that is kept so, which contracts see as the query itself.
#![tactic(auto)]

pub mod lazy_query;
mod lengths;
mod plan;
mod terms;
mod widths;

pub use lazy_query::LazyQuery;
