//! A transform that an operation moves, and the instances about it.
use cq_model::{Instance, Transform};

/// A transform between two instances, and the ends of the one to which it is moved.
#[derive(Clone, Copy)]
pub(crate) struct Carrying<'a> {
    pub moved: &'a Transform,
    pub source: &'a Instance,
    pub target: &'a Instance,
    pub start: &'a Instance,
    pub finish: &'a Instance,
}
