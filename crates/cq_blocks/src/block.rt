//! Blocks of queries.
use cq_base::{Name, Seq};
use cq_theory::{EntTerm, Equation, TypeTerm};

/// How a query makes the rows of one entity of its target. There is one row for each choice of a row for each
/// variable that meets the where equations. Variables stand for generators, by their places. There is a term for each
/// attribute of the entity, and for each foreign key of it a term for each variable of the block to which the key
/// leads; both are in the order of the target.
pub struct Block {
    pub vars: Seq<(Name, u32)>,
    pub tests: Seq<Equation>,
    pub attributes: Seq<TypeTerm>,
    pub keys: Seq<Seq<EntTerm>>,
}

impl Drop for Block {
    fn drop(self) {
        let Self {
            vars: _,
            tests: _,
            attributes: _,
            keys: _,
        } = self;
    }
}
