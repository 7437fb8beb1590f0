//! Transforms between instances, as plain lists.
use cq_base::Seq;
use cq_theory::{EntTerm, TypeTerm, Value};

/// Where a transform sends a generator: to a term over the presentation of its target.
pub enum Image {
    /// The image of a generator of an entity.
    Row(EntTerm),
    /// The image of a generator of a type.
    Value(TypeTerm),
}

impl Drop for Image {
    fn drop(self) {
        match self {
            Self::Row(_) => (),
            Self::Value(_) => (),
        }
    }
}

/// A map from one instance to another.
pub struct Transform {
    /// The image of each generator.
    pub images: Seq<Image>,
    /// By entity, the row to which each row goes.
    pub rows: Seq<Seq<u32>>,
    /// The value to which each null goes.
    pub nulls: Seq<Value>,
}

impl Drop for Transform {
    fn drop(self) {
        let Self {
            images: _,
            rows: _,
            nulls: _,
        } = self;
    }
}
