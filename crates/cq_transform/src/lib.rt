//! Transforms between instances.
//!
//! `transform` looks up the generators of both instances by name (`cq_scope`), tests the images in their order and
//! makes them (`images`), reads what each means in the target (`meant`), and tests the source's equations one by one
//! (`equations`). Rows then go where their names lead (`rows`), in one walk over the rows. The values of nulls are
//! found from the generators that stand for them, from the cells that hold them, and from the entries whose arguments
//! have values (`nulls`, `entries`). `compose` puts the second transform's images in place of the generators
//! (`putting`), and sends rows and values on (`composing`).
#![tactic(auto)]

pub mod composing;
mod entries;
mod equations;
mod found;
pub mod identities;
mod images;
pub mod laws;
mod meant;
mod nulls;
mod putting;
pub mod refusal;
mod rows;
pub mod scope;
pub mod sizes;
pub mod transforming;

pub use composing::{compose, rows_at, value_then};
pub use identities::identity;
pub use images::image_in;
pub use putting::{put_row, put_value};
pub use refusal::TransformRefusal;
pub use sizes::is_long;
pub use transforming::{transform, transform_of_images};
