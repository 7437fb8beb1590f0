//! The parts of a query, with names that are not yet looked up.
use cq_base::{Name, Raw, Seq};

/// The parts of a query: the entity of each block; the variables, each with the number of its block, its name and its
/// entity; and the clauses, each with the number of its block. The parts are numbered list after list, from 0.
#[derive(Drop)]
pub struct QueryParts {
    pub entities: Seq<Name>,
    pub vars: Seq<(u32, Name, Name)>,
    pub clauses: Seq<(u32, Clause)>,
}

/// A clause of a block.
#[derive(Drop)]
pub enum Clause {
    /// A where equation.
    Test(Raw, Raw),
    /// The term of an attribute.
    Att(Name, Raw),
    /// A foreign key, for which assignments are given.
    Key(Name),
    /// The term that a foreign key assigns to a variable of the block to which it leads.
    Assign(Name, Name, Raw),
}
