//! A value for each node.
ghost use Rattle.std.specs.Prelude.{◌≡◌, ◌<◌, [], length, IfOk};
ghost use Rattle.cq_flat.specs.Values.{value_at};
ghost use Rattle.cq_flat.specs.Places.{values_in, ArePlaced};

use cq_theory::Value;
use std::alloc::{AllocError, Global};

/// The values of nodes, each of which is kept once however many nodes have it: for each node the
/// place of its value among the different ones.
pub struct NodeValues {
    pub places: Vec<u32>,
    pub different: Vec<Value>,
}

impl Drop for NodeValues {
    fn drop(self) {
        let Self {
            places: _,
            different: _,
        } = self;
    }
}

impl NodeValues {
    /// No values, with room for so many nodes and so many different values.
    pub fn with_room(
        alloc: Global,
        count: usize,
        different: usize,
    ) -> Result<NodeValues, AllocError>
        ensures places { IfOk result (λ made. made.places.items ≡ []) }
        ensures different { IfOk result (λ made. made.different.items ≡ []) }
    {
        Ok(NodeValues {
            places: Vec::with_capacity(alloc, count)?,
            different: Vec::with_capacity(alloc, different)?,
        })
    }

    /// The value of a node.
    pub fn get(&self, node: u64) -> &Value
        requires placed { ArePlaced self.now }
        requires node { node < length self.now.places.items }
        ensures { result.now ≡ value_at (values_in self.now) node }
    {
        let place = self.places[node as usize];
        &self.different[place as usize]
    }
}
