//! Names, places in a file, terms as they are written, and lists that contracts see as their items.
#![tactic(auto)]

pub mod escapes;
pub mod hashing;
pub mod keys;
pub mod name;
pub mod names;
pub mod place;
pub mod raw;
pub mod refusal;
pub mod seq;
pub mod shared;
pub mod source;

pub use escapes::unescape;
pub use hashing::Hashing;
pub use keys::Keys;
pub use name::Name;
pub use names::Names;
pub use place::Place;
pub use raw::Raw;
pub use refusal::{NameRefusal, NamesRefusal};
pub use seq::{Seq, number_at};
pub use shared::SharedTexts;
pub use source::Source;
