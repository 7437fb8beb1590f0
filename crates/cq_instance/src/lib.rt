//! Instances: rows, cells, nulls and entries over a presentation, and what is read from them.
//!
//! An `Instance` keeps for each generator its row or its value: `row_of` follows the keys of an entity term from there,
//! and `value_of` goes through a type term once. The entry for a function at arguments is found by a table (`entries`):
//! entries are listed by a number of what they are for, and only those in one list are compared. These numbers are made
//! by the kit's hasher after a key of them all (`digests`), so that no file can have many texts with one number.
//!
//! `null_terms` has a term for each null: its generator where the tables were given, and else the first node that means
//! it, found in one walk over the nodes.
//!
//! `KeyIndex` has the rows from which a foreign key, or a path of them, leads to a row, and `CellIndex` the rows whose
//! cell is a value, both exactly and ascending. A cell index groups rows by value, and lists the groups by the numbers
//! of their values, so a look-up compares the values that share a number and no rows.
//!
//! `Instance::of_tables` (`given`) counts rows and nulls first, then makes the canonical presentation (`canonical`):
//! the numbers of generators, and the foreign keys and attributes of each entity, are made once (`Numbers`), then the
//! generators, the equations row by row, values as terms by `cq_terms`. Each step costs the size of what it makes.
//!
//! An instance that is built of a presentation comes from the crate above, `cq_model`, by `Instance::from_parts`.
#![tactic(auto)]

mod application;
mod canonical;
mod cell_index;
mod digests;
mod edges;
mod entries;
mod given;
mod groups;
mod instance;
mod key_index;
pub mod laws;
mod null_terms;
mod refusal;
mod standing;
mod terms;
mod transform;
mod values;

pub use cell_index::CellIndex;
pub use edges::{sources, targets};
pub use entries::EntryTable;
pub use groups::grouped;
pub use instance::Instance;
pub use key_index::KeyIndex;
pub use refusal::TablesRefusal;
pub use standing::Standing;
pub use transform::{Image, Transform};
pub use values::{copied, copied_entries};
