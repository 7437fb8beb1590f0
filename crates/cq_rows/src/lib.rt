//! The rows of entity term models, made stage by stage.
#![tactic(auto)]

mod ahead;
mod entries;
mod fill;
mod grow;
mod join;
mod merge;
mod origin;
mod outline;
mod refusal;
mod renamings;
mod settle;
mod unread;
mod waiting;

pub use grow::{MOST_ROWS, Partial, saturate, saturate_over};
pub use outline::Outline;
pub use refusal::RowsRefusal;
