//! Why two constants are equal: a derivation that the checker has passed, and how it is told.
//!
//! `conflict` seeks the steps, and `constant_of_text` finds a constant by its printed text. `told_steps` leaves out
//! what a reader does without (`chains`): an equation that is turned round, and all but the last of a chain of
//! equations that are joined one after the other. `push_steps` appends a numbered line for each step that is left
//! (`text`), with where its equation comes from, or from which lines it follows (`notes`).
//!
//! The equations of a presentation are those of one part or of several (`sources`): an instance by itself, what it is
//! an image of, or what it is put together from. The records of files behind cited generators are looked up in one walk
//! over each file (`rows`), and are told by their ids (`labels`).
#![tactic(auto)]

mod chains;
mod cited;
mod constants;
mod found;
mod labels;
mod marks;
mod notes;
mod places;
mod rows;
mod seeking;
mod sources;
mod telling;
mod text;
mod told;
mod written;

pub use constants::{TypedConstant, constant_of_text};
pub use seeking::conflict;
pub use sources::{Explained, Files, Part, Rest, Rules, Source};
pub use telling::{Constants, push_conflict, push_steps};
pub use text::{Shown, push_told};
pub use told::{Told, told_steps};
