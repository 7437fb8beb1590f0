//! The entries of functions.
ghost use Rattle.std.specs.Prelude.{◌≡◌, ◌<◌, ◌^◌, length, map, All, IfOk};
ghost use Rattle.cq_flat.specs.Nodes.{HasEarlierArguments};
ghost use Rattle.cq_flat.specs.Values.{entries_of, value_at};
ghost use Rattle.cq_flat.specs.Entries.{AreValuesOf};
ghost use Rattle.cq_flat.specs.Places.{values_in, ArePlaced};
ghost use Rattle.cq_theory.specs.Tables.{IsPlain};

use crate::entering::function_key;
use crate::key::Table;
use crate::node::Node;
use crate::values::NodeValues;
use cq_base::{Hashing, Seq};
use cq_theory::{Entry, Value};
use std::alloc::{AllocError, Global};

/// The entries of the function nodes, one for each function and arguments.
pub fn entries_of(
    alloc: Global,
    hashing: Hashing,
    nodes: &[Node],
    classes: &[u32],
    values: &NodeValues,
) -> Result<Vec<Entry>, AllocError>
    requires few { length nodes.now < 2 ^ 32 }
    requires arguments { HasEarlierArguments nodes.now }
    requires placed { ArePlaced values.now }
    requires values { AreValuesOf (length nodes.now) classes.now (values_in values.now) }
    ensures { IfOk result (λ entries. entries.items ≡ entries_of nodes.now (values_in values.now)) }
{
    let mut table = Table::new(alloc, hashing, 0);
    let mut entries = Vec::new(alloc);
    for (node, content) in nodes.iter().enumerate() {
        let Node::Fun(function, args) = content else {
            continue;
        };
        let key = function_key(alloc, classes, *function, args.as_slice())?;
        if table.put(key, node as u32)?.is_some() {
            continue;
        }
        entries.push(entry(alloc, values, node as u64, *function, args.as_slice())?)?;
    }
    Ok(entries)
}

fn entry(
    alloc: Global,
    values: &NodeValues,
    node: u64,
    function: u32,
    args: &[u64],
) -> Result<Entry, AllocError>
    requires placed { ArePlaced values.now }
    requires plain { All IsPlain (values_in values.now) }
    requires node { node < length values.now.places.items }
    requires args { All (λ arg. arg < length values.now.places.items) args.now }
    ensures { IfOk result (λ entry. entry ≡ record {
      function = function;
      args = map (value_at (values_in values.now)) args.now;
      value = value_at (values_in values.now) node;
    }) }
{
    let mut list = Vec::with_capacity(alloc, args.len())?;
    for arg in args {
        list.push(value_of(values, *arg)?)?;
    }
    let value = value_of(values, node)?;
    Ok(Entry {
        function,
        args: Seq::from_vec(list),
        value,
    })
}

/// The value of a node.
fn value_of(values: &NodeValues, node: u64) -> Result<Value, AllocError>
    requires placed { ArePlaced values.now }
    requires plain { All IsPlain (values_in values.now) }
    requires node { node < length values.now.places.items }
    ensures { IfOk result (λ value. value ≡ value_at (values_in values.now) node) }
{
    copy_plain(values.get(node))
}

fn copy_plain(value: &Value) -> Result<Value, AllocError>
    requires { IsPlain value.now }
    ensures { IfOk result (λ copy. copy ≡ value.now) }
{
    match value {
        Value::Const(constant) => Ok(Value::Const(constant.clone()?)),
        Value::Null(label) => Ok(Value::Null(*label)),
        Value::Fun(_, _) => unreachable!(),
    }
}
