//! Transforms along mappings and queries, and the two adjunctions.
//!
//! Where a transform sends what a generator stands for (`sending`) is spelled in an instance of tables or named in any
//! instance (`spelling`), and tested against the limit on images (`limits`). `sigma_map` puts each image along the
//! mapping (`along`); `delta_map` and `to_delta` spell where generators go (`spelled`, `pulled`), and `from_delta`
//! names it (`named`, `pushed`). Each makes the transform by its images, which are known to be right, so that no
//! equation is tested again.
//!
//! Along a query, answers stand in order, so that the place of each is found by halves (`places`), and so do the
//! generators of coeval (`layout`). `to_eval` sends rows to the answers that their copies name (`crossing`,
//! `into_eval`), and `eval_map` applies a transform to each row of an answer (`eval_maps`). `coeval_map` sends the
//! copies of a row to those of the row to which the row goes (`coeval_maps`), and `from_eval` sends them to the names
//! of the rows in the row's answer (`answering`, `out_of_coeval`).
//!
//! The laws (`laws`, `query_laws`) say that there and back is the identity both ways, that units and counits are the
//! transforms of identities, and that the four maps keep identities and composites.
#![tactic(auto)]

mod along;
mod answering;
pub mod coeval_maps;
mod crossing;
pub mod eval_maps;
pub mod into_eval;
pub mod laws;
mod layout;
mod limits;
pub mod named;
pub mod out_of_coeval;
mod places;
mod pulled;
mod pushed;
pub mod query_laws;
mod sending;
mod spelled;
mod spelling;

pub use along::sigma_map;
pub use coeval_maps::coeval_map;
pub use eval_maps::eval_map;
pub use into_eval::to_eval;
pub use named::Naming;
pub use out_of_coeval::from_eval;
pub use pulled::{delta_map, to_delta};
pub use pushed::{from_delta, from_delta_by};
