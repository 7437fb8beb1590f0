//! The trees of programs, and the grammar that says which tokens spell them.
#![tactic(auto)]

pub mod laws;
pub mod literal;
pub mod part;
pub mod program;

pub use literal::{
    AttImage, AttSyn, ColimitLit, InstanceLit, KeyImage, MapBlock, MappingLit, QueryBlock,
    QueryKey, QueryLit, SchemaLit, TransformLit, TypesideLit,
};
pub use part::{
    Bind, EdgeSyn, EqSyn, FunSyn, GroupSyn, ObsSyn, Opt, PairSyn, PathEqSyn, PathSyn, Spot, TermSyn,
};
pub use program::{
    Body, Decl, InstanceExp, MappingExp, MoveForm, Program, QueryExp, SchemaExp, TransformExp,
};
