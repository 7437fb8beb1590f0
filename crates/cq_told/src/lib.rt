//! Why a file is refused, in words.
//!
//! `explanation` takes what a run read of the file, and the declaration at which it stopped, and tells what is wrong by
//! the step at which it is found: the tokens, the grammar, or the declarations (`steps`). What is told of a fault is a
//! place and words (`telling`): the line of the file at the place is shown with a caret (`cq_place`), and the words are
//! one sentence (`cq_sentences`) with its names (`texts`, for a declaration's rule `broken`, of what doesn't fit in a
//! part `misfits`), what more is known of it (`details`), and what there is to mend. Which code a rule has is in
//! `codes`.
#![tactic(auto)]

mod broken;
mod case;
mod codes;
mod details;
mod folders;
mod limits;
mod misfits;
mod near;
mod page;
mod posed;
mod steps;
mod telling;
mod texts;

pub use codes::code_of;
pub use steps::explanation;
