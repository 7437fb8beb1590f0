//! Colimits of schemas: several schemas over one typeside made one, in which listed entities are the same, and the
//! mapping by which each of them goes into it.
//!
//! `placed` puts the parts in their places, `ends` looks up the pairs, `classes` makes their classes by a forest,
//! `given` and `clashes` make the joined names and test them, `joining` joins. The joined symbols are looked up once
//! without equations (`frames`), so that the images of the parts' equations (`images`) can be made in a well-sorted
//! schema, and once with the added equations, before which the images are put (`equations`). Look-ups of names go by
//! tables; each part, symbol and equation is visited a fixed number of times.
#![tactic(auto)]

pub(crate) mod added;
pub(crate) mod clashes;
pub(crate) mod classes;
pub mod colimits;
pub(crate) mod ends;
pub(crate) mod equations;
pub(crate) mod frames;
pub(crate) mod given;
pub(crate) mod images;
pub(crate) mod inclusions;
pub mod joined;
pub(crate) mod joining;
pub mod laws;
pub(crate) mod placed;
pub mod refusal;
pub(crate) mod text;
pub(crate) mod texts;
pub(crate) mod written;

pub use colimits::colimit;
pub use cq_theory::ColimitParts;
pub use joined::Colimit;
pub use refusal::ColimitRefusal;
