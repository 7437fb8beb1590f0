//! Queries that are evaluated: the answers for an entity, and the instance of all answers.
//!
//! `answers` and `eval` search one variable at a time (`joining`), depth first, so that only whole answers are kept,
//! each once. Variables are bound in an order that follows the where equations (`plan`, which claims nothing, and
//! `order`, which tests it and numbers the equations by it); where it isn't their own, the answers are put back and
//! sorted (`sorted`). When a where equation is tested follows from the greatest variable in it (`reaches`); those of
//! one stage are listed together (`grouping`), so no binding goes over all, and variables that none is left of are
//! counted before their rows are tried (`free`). Where no equation that is left reads what is bound (`borders`), what
//! is found is the same behind any rows: it is searched once (`known`), and nothing more where there is none. A where
//! equation that joins a new variable to earlier ones gives lists of rows (`index`), by an attribute (a `CellIndex`) or
//! by a path of keys (a `KeyIndex`), of which one is taken for the rows that are bound (`listed`). The index of an
//! attribute's cells, or of one foreign key, is made once a run and kept for further equations and entities (`kept`).
//! Answers are kept in order (`table`), where their places are found for the columns of keys (`keys`); `cells` has the
//! columns of attributes, `evaluating` the tables and limits.
#![tactic(auto)]

pub mod answering;
mod borders;
mod cells;
mod choice;
pub mod evaluating;
mod free;
mod grouping;
mod index;
mod joining;
mod kept;
mod keys;
mod known;
mod listed;
mod order;
mod plan;
mod reaches;
pub mod refusal;
mod rows;
mod sorted;
mod table;
mod testing;

pub use answering::answers;
pub use evaluating::eval;
pub use refusal::EvalRefusal;
