//! The declarations of a program in order: what they mean, or the first rule that is broken.
//!
//! `meaning` walks over the declarations once (`declarations`); `meaning_or_stop` also hands out where the walk ends
//! early (`stops`). Each is first *stated* over the names declared before it: `state` (`stating`) tests that its name
//! is new, and then checks its form, the names that it uses and its parts, and tells the rule that a part breaks at the
//! part's place (`refusals`). What is left is a *statement* (`statement`): a theory, a mapping or a query whose duties
//! are to be derived, a presentation whose model is to be made, instances that are to be moved or glued, or a
//! transform; or it is a folder of files, and `read_stated` reads them and gives the presentation that they pose. A
//! statement then gets its *meaning* (`models`). What calls answer that make a model is told in one way (`made`), and
//! of which duty isn't derived, too (`duties`).
//!
//! Each form of declaration has a folder, with what is stated of it (`stating`, by functions that `pose` it) and what
//! that stands for (`meaning`, by functions that `mean` it). A function that begins with `tell` gives a refusal.
//!
//! The folders:
//! - `typesides`, `schemas`, `colimits` (with the schemas of colimits and the inclusions of their parts), `mappings`
//!   (with identities) and `queries` (with composites and the queries of mappings);
//! - instances: `literals`, `imports` (with `reading`), `moves` along mappings (sigma, delta), `evals` along queries
//!   (eval, coeval) and `gluing` (coproducts, pushouts);
//! - transforms: `transforms` (literals and identities) and `movements`, which operations move, with units and counits
//!   (of these `mapped` along mappings and `queried` along queries).
//!
//! That a program means one thing, and breaks one rule first, are laws (`laws`). A later form adds a case to
//! `Statement` and a folder, an arm to `stating` and to `models`, and to the definitions cases of `Posed` and `Stands`.
#![tactic(auto)]

mod colimits;
mod declarations;
mod duties;
mod evals;
mod gluing;
mod imports;
pub mod laws;
mod literals;
mod made;
mod mappings;
mod models;
mod movements;
mod moves;
mod queries;
mod refusals;
mod schemas;
mod statement;
mod stating;
mod stops;
mod transforms;
mod typesides;

pub use cq_environment::{ProgramRefusal, ReadCause, Reason, numbered_line, refusal_line};
pub use cq_parts::has_few_parts;
pub use declarations::{Named, meaning, meaning_or_stop};
pub use imports::reading::read_stated;
pub use imports::stating::{FolderImport, Format};
pub use movements::stating::{Movement, Moving, Route};
pub use statement::{Stated, Statement};
pub use stating::state;
pub use stops::{Fault, Halt, Stop};
pub use transforms::stating::BrokenImages;
