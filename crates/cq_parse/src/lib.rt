//! Programs, and terms, read from their tokens.
//!
//! What each production reads stands below, in `cq_productions`; here stand the two texts that are read whole
//! (`parser`), and what is told of the token that decides against one (`whole`, `refusal`).
#![tactic(auto)]

pub mod parser;
pub mod refusal;
mod whole;

pub use parser::{parse, parse_term};
pub use refusal::ParseRefusal;
