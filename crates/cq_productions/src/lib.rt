//! The productions of the grammar, each read from tokens.
//!
//! A production is a unit struct that says which rule of the grammar it reads (`item`), mostly by functions that put
//! productions one behind another (`sequence`) or one after the other in lists. Reading goes from cursor to cursor
//! (`cursor`, `step`), and halts at a token for a reason (`halt`), which the crate above turns into a refusal.
#![tactic(auto)]

mod colimit;
mod cursor;
mod declaration;
mod equation;
mod halt;
mod instance;
mod item;
mod mapping;
mod names;
mod options;
mod query;
mod schema;
mod sequence;
mod step;
mod term;
mod transform;
mod typeside;
mod words;

pub use cursor::{Cursor, classes_of};
pub use declaration::DeclarationRule;
pub use equation::TermRule;
pub use halt::Halt;
pub use item::{Item, Production, many};
pub use options::OptionsRule;
pub use step::ends;
pub use words::{HeadWords, NoWords, Words};
