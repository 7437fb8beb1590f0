//! The closure of a list of nodes, as it is read.
ghost use Rattle.std.specs.Prelude.{◌≡◌, ◌<◌, ◌↔◌, IfOk, IsTrue, length, slice_get, option_map, Some};

use crate::closing::close_classes;
use crate::constants::{clash_of, least_constants};
use crate::entries::entries_of;
use crate::hashing::hashing_of;
use crate::labels::values_of;
use crate::node::Node;
use crate::numbers::{are_sides, has_earlier_arguments};
use crate::values::NodeValues;
use cq_base::Seq;
use cq_theory::{Con, Entry, Value};
use std::alloc::{AllocError, Global};
use std::marker::Model;

/// Which nodes are equal: the values of all nodes, and what follows of them.
pub struct Flat {
    values: NodeValues,
    nulls: Seq<u64>,
    entries: Seq<Entry>,
    clash: Option<(Con, Con)>,
}

impl Model for Flat {
    ghost use Rattle.cq_flat.specs.Places.{values_in, ArePlaced};
    ghost use Rattle.cq_flat.specs.Values.{Closure};
    ghost use Rattle.std.specs.Coded.{codes};
    ghost use Rattle.cq_theory.specs.contracts.value.Value as value;

    ghost Value = { Closure };

    ghost coded = { Prim.hlevel (codes, value.the_row.coded) };

    ghost view = { λ flat. record {
      values = values_in flat.values;
      nulls = flat.nulls;
      entries = flat.entries;
      clash = flat.clash;
    } };

    ghost invariant = { λ flat. ArePlaced flat.values };
}

impl Drop for Flat {
    fn drop(self) {
        let Self {
            values: _,
            nulls: _,
            entries: _,
            clash: _,
        } = self;
    }
}

impl Flat {
    ghost use Rattle.cq_flat.specs.Nodes.{HasEarlierArguments, AreSides};
    ghost use Rattle.cq_flat.specs.Values.{AreValues, AreLabels, entries_of, IsClash};

    /// The least congruence on the nodes that contains the equations and makes equal constants
    /// equal. It takes time near n log n in the nodes and their arguments (Nelson and Oppen, Fast
    /// Decision Procedures Based on Congruence Closure, 1980; Downey, Sethi and Tarjan, Variations
    /// on the Common Subexpression Problem, 1980).
    pub fn close(
        alloc: Global,
        nodes: Vec<Node>,
        equations: Vec<(u64, u64)>,
    ) -> Result<Flat, AllocError>
        requires arguments { HasEarlierArguments nodes.items }
        requires sides { AreSides nodes.items equations.items }
        ensures values { IfOk result (λ flat. AreValues nodes.items equations.items flat.values) }
        ensures labels { IfOk result (λ flat. AreLabels flat.values flat.nulls) }
        ensures entries { IfOk result (λ flat. flat.entries ≡ entries_of nodes.items flat.values) }
        ensures clash { IfOk result (λ flat. IsClash nodes.items equations.items flat.clash) }
    {
        if nodes.len() > u32::MAX as usize {
            return Err(AllocError);
        }
        let list = nodes.as_slice();
        let hashing = hashing_of(list);
        let classes = close_classes(alloc, hashing, list, equations)?;
        let numbers = classes.as_slice();
        let constants = least_constants(alloc, list, numbers)?;
        let least = constants.as_slice();
        let clash = clash_of(list, numbers, least)?;
        let (values, nulls) = values_of(alloc, list, numbers, least)?;
        drop(constants);
        let entries = entries_of(alloc, hashing, list, numbers, &values)?;
        Ok(Flat {
            values,
            nulls: Seq::from_vec(nulls),
            entries: Seq::from_vec(entries),
            clash,
        })
    }

    /// Whether the arguments of each node are earlier nodes, and the sides of each equation nodes.
    pub fn can_close(nodes: &[Node], equations: &[(u64, u64)]) -> bool
        ensures { IsTrue result ↔ (HasEarlierArguments nodes.now × AreSides nodes.now equations.now) }
    {
        has_earlier_arguments(nodes) && are_sides(nodes.len() as u64, equations)
    }

    /// The value of a node: the least constant, in the order of constants, that is equal to it, or else its null.
    pub fn value(&self, node: u64) -> &Value
        requires { node < length self.now.values }
        ensures { slice_get self.now.values node ≡ Some result.now }
    {
        self.values.get(node)
    }

    /// The first node of each null, by its label.
    pub fn nulls(&self) -> &[u64]
        ensures { result.now ≡ self.now.nulls }
    {
        self.nulls.as_slice()
    }

    /// The values of functions at the arguments at which nodes have them, in order of first
    /// appearance.
    pub fn entries(&self) -> &[Entry]
        ensures { result.now ≡ self.now.entries }
    {
        self.entries.as_slice()
    }

    /// The least constant, in the order of constants, that is equal to a greater one, and the least such greater one.
    /// None exactly where no two different constants are equal. It takes no memory.
    pub fn clash(&self) -> Option<(&Con, &Con)>
        ensures { option_map (λ pair. (pair.0.now, pair.1.now)) result ≡ self.now.clash }
    {
        match &self.clash {
            Some(pair) => Some((&pair.0, &pair.1)),
            None => None,
        }
    }
}
