//! What doesn't fit in a part of a literal, and the joined name that a colimit would have twice.
//!
//! The part at a place (`part`) is looked at as it is written, over the names that may stand there with their sorts
//! (`signature`, `sorted`; which these are, `over`). Sought are the symbol that is applied to another number of
//! arguments than it takes (`counts`), and what doesn't fit together (`misfit`, `sorts`): in terms (`fitting`), in
//! paths (`paths`), and of what a mapping, a query or a transform gives (`images`). The schemas of a colimit give
//! joined names (`joined`), of which one may stand twice (`clash`).
#![tactic(auto)]

mod clash;
mod counts;
mod fitting;
mod images;
mod joined;
mod misfit;
mod over;
mod part;
mod paths;
mod signature;
mod sorted;
mod sorts;

pub use clash::{DoubleName, double_name};
pub use counts::{Miscounted, miscounted_in_part};
pub use misfit::{Ends, Misfit};
pub use sorted::NamedSort;
pub use sorts::missorted_in_part;
