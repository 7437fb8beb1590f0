//! Mappings between schemas: the images of terms, the equations that a mapping has to preserve, and the presentation
//! to which it sends a presentation.
//!
//! `blocks` tests the parts of entities and makes their images, `arrows` tests the other parts and makes paths and
//! terms of them, `images` has the images of paths and terms, `duties` the equations that a mapping has to preserve,
//! `sigma` the images of presentations. All look-ups go by the schemas' tables and by one table of the names that have
//! an image.
#![tactic(auto)]

pub(crate) mod arrows;
pub(crate) mod blocks;
pub mod duties;
pub mod images;
pub mod laws;
pub mod mapping;
pub(crate) mod rules;
pub mod sigma;

pub use duties::Duty;
pub use mapping::Mapping;
