//! The top call: reads the words and the file, or makes the text of an example, writes the transcripts or the summary,
//! and hands the files to the exporters; or writes the answer to a question about an instance.
#![tactic(auto)]

mod answer;
mod choice;
mod files;
mod judge;
pub mod laws;
mod output;
mod question;
mod status;
mod summary;
mod top;

pub use answer::{Answer, FileAnswer, answer_to_file};
pub use status::Status;
pub use top::run;
