//! Names that may stand where an unknown one stands, and the place of the very name.
//!
//! A *use* is a name that something names, with the *role* in which it does (`role`). What a part of a literal names is
//! looked at literal by literal (`literals`, its terms in `terms`), over the names that may stand there: those of the
//! literal itself and of what its declaration uses (`scope`). The uses of which no name is known are told apart, the
//! first of them is sought among the tokens (`spelled`), and the nearest known name beside it (`unknown`). The names
//! that a declaration uses as a whole, of schemas and the like, are in `used`.
#![tactic(auto)]

mod literals;
mod role;
mod scope;
mod spelled;
mod terms;
mod unknown;
mod used;

pub use literals::{joined_name, schema_of};
pub use role::Kind;
pub use spelled::first_spelled;
pub use terms::has_spot;
pub use unknown::{Unknown, unknown_in_part};
pub use used::{Wanted, kind_of, known_as, near_used, wanted_at};
