//! Value texts are read back.
//!
//! `read_value` reads from the front by recursive descent, led by the type. The first byte tells a quoted text, a null
//! or a word, and the types of a function's arguments say what is read next, so there is no backtracking. Words and
//! functions are looked up in the typeside's tables; the whole costs the length of the text.
#![tactic(auto)]

pub mod built;
mod constants;
pub mod labels;
pub mod laws;
mod quotes;
pub mod reading;
pub mod words;

pub use built::read_built;
pub use labels::read_label;
pub use reading::read_value;
pub use words::name_of;
