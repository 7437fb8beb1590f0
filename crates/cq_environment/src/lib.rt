//! What the forms of declarations share: the declared names with what each stands for, and why a declaration is
//! refused.
//!
//! An *environment* (`environment`) is a table of the declared names, with what each stands for. Which mapping,
//! colimit, query, instance or transform a used name stands for, or that it isn't declared or of another kind, tells
//! `used`. By which operation an instance was declared is kept with its name (`moved`), for transforms that go along. A
//! composed query is made when a declaration first uses it, and kept (`making`).
//!
//! Here too stands why a program is refused (`reason`), also for what is computed above this crate, and the line that
//! tells it (`line`). What a declaration states and stands for is said and made in `cq_program`, form by form.
#![tactic(auto)]

mod environment;
mod line;
mod making;
mod moved;
mod reason;
mod refusal;
mod used;

pub use environment::{
    Bound, Environment, Meaning, NamedColimit, NamedEnds, NamedInstance, NamedPart, NamedSchema,
    NamedTransform, copy_named,
};
pub use line::{numbered_line, refusal_line};
pub use moved::{Moved, Operation, moved_of};
pub use reason::Reason;
pub use refusal::{ProgramRefusal, ReadCause};
pub use used::{
    NamedMapping, NamedQuery, colimit_of, copy_instance, instance_of, mapping_of, query_of,
    transform_of,
};
