//! Whether an equation is derivable from a presentation, whether a mapping preserves the equations of its source, and
//! whether the duties of a query hold.
//!
//! A duty is an equation and the presentation from which it is to be derivable. The equations over one presentation are
//! decided together (`deciding`), and the first that isn't known to be derivable is found, with the cause; `duties`
//! puts a duty's number into the refusal. The depths 0, 1, 2 .. are taken in turn; at each the rows are made, then
//! nodes for the rows, the generators, the two sides of each equation that isn't derived so far (`asking`) and the
//! equations whose paths can be traced (`equations`, `nodes`); they are closed once, and each equation is answered from
//! this closure (`closing`). Where all open equations are between entity terms, the rows answer them and nothing is
//! closed. What depends on the schema alone (the outline of `cq_rows`, and the observation equations by entity) is made
//! once for a mapping, a query or a question (`prepared`). A depth then costs the making of its rows, the sides of the
//! open equations, the observation equations of each live row's entity, and one closure, however large the schema is;
//! the rows of lesser depths are made anew.
//!
//! `equal` (`equality`) asks for one equation. `check_mapping` (`mappings`) asks for the duties over one entity after
//! those over another, so rows are made once an entity and depth, and carries along the place of the first one that
//! isn't derived: only those that stand before it are asked then. `check_query` (`queries`) goes entity by entity,
//! makes the frozen presentation of each once, asks for each duty by itself, and carries the number along.
#![tactic(auto)]

pub(crate) mod asking;
pub(crate) mod closing;
pub(crate) mod deciding;
pub mod duties;
pub mod equality;
pub(crate) mod equations;
pub mod mappings;
pub(crate) mod nodes;
pub(crate) mod prepared;
pub mod queries;
pub mod refusal;

pub use equality::{Verdict, equal};
pub use mappings::check_mapping;
pub use queries::check_query;
pub use refusal::{CheckRefusal, EqualRefusal};
