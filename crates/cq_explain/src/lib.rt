//! Explanations: which equation two texts ask about, and the text of a derivation or of two different values.
#![tactic(auto)]

mod answer;
mod lines;
mod question;
mod refusal;
mod terms;
mod words;

pub use answer::explanation;
pub use refusal::QuestionRefusal;
pub use terms::push_equation;
pub use words::push_ordinal;
