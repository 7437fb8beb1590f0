//! Joined schemas.
use cq_base::Seq;
use cq_mapping::Mapping;
use cq_theory::Schema;
use std::rc::Rc;

/// A joined schema, and for each part the mapping that sends each of its symbols to the joined symbol.
#[derive(Drop)]
pub struct Colimit {
    pub schema: Rc<Schema>,
    pub inclusions: Seq<Mapping>,
}
