//! A file, and a declaration of it that breaks a rule, with all that is known of it.
use crate::page::Page;
use cq_base::Place;
use cq_environment::Environment;
use cq_syntax::{Decl, Program};
use std::alloc::Global;

/// A file that is a program.
#[derive(Clone, Copy)]
pub struct Book<'a> {
    pub alloc: Global,
    pub page: Page<'a>,
    pub program: &'a Program,
}

/// A declaration of a file that breaks a rule at a place, over the names that are declared before it, with models made
/// to a depth.
#[derive(Clone, Copy)]
pub struct Case<'a> {
    pub book: Book<'a>,
    pub decl: &'a Decl,
    pub env: &'a Environment,
    pub depth: u32,
    pub place: Place,
}
