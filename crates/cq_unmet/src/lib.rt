//! What is told of a duty of a mapping or a query that isn't met.
//!
//! `duties` finds a duty by its number, with the presentation from which it is to be derivable. `underivable` tells the
//! two rows or values in which the sides of a duty differ in the model of that presentation. Where a duty isn't decided
//! because rows go on or are too many, `cq_witness` tells of the presentation what it tells of an instance's.
#![tactic(auto)]

mod duties;
mod underivable;

pub use duties::{Asked, mapping_duty, query_duty};
pub use underivable::{append_duty, append_underivable};
