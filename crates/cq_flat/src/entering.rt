//! Nodes are looked up by their keys.
ghost use Rattle.std.specs.Prelude.{◌≡◌, ◌<◌, ◌^◌, ℕ, [], ◌∷◌, length, map, All, IfOk, OnOk, slice_index};
ghost use Rattle.cq_flat.specs.Keys.{key_of, con_key};
ghost use Rattle.cq_flat.specs.Nodes.{HasEarlierArguments, HasArgumentsBelow};
ghost use Rattle.cq_flat.specs.Partition.{Has};
ghost use Rattle.cq_flat.specs.Closing.{Enters};

use crate::key::{Key, Table};
use crate::node::Node;
use cq_theory::Con;
use smallvec::SmallVec;
use std::alloc::{AllocError, Global};

/// What a node is looked up by, where nodes have these classes.
pub fn key(alloc: Global, classes: &[u32], node: &Node) -> Result<Option<Key>, AllocError>
    requires { HasArgumentsBelow (length classes.now) node.now }
    ensures { IfOk result (λ key. key ≡ key_of (slice_index classes.now) node.now) }
{
    match node {
        Node::Leaf => Ok(None),
        Node::Const(constant) => Ok(Some(constant_key(alloc, constant)?)),
        Node::Fun(function, args) => {
            Ok(Some(function_key(alloc, classes, *function, args.as_slice())?))
        }
    }
}

fn constant_key(alloc: Global, constant: &Con) -> Result<Key, AllocError>
    ensures { IfOk result (λ key. key ≡ con_key constant.now) }
{
    match constant {
        Con::Named(number) => {
            let numbers = SmallVec::from_array(alloc, [0, u64::from(*number)])?;
            Ok(Key::of_numbers(numbers))
        }
        Con::Open(text) => Ok(Key::of_text(text.clone()?)),
    }
}

/// The key of a function, where nodes have these classes.
pub fn function_key(
    alloc: Global,
    classes: &[u32],
    function: u32,
    args: &[u64],
) -> Result<Key, AllocError>
    requires { All (λ arg. arg < length classes.now) args.now }
    ensures { IfOk result (λ key. key ≡ 0 ∷ 1 ∷ function ∷ map (slice_index classes.now) args.now) }
{
    let mut numbers = SmallVec::new(alloc);
    numbers.push(1)?;
    numbers.push(u64::from(function))?;
    for arg in args {
        numbers.push(u64::from(classes[*arg as usize]))?;
    }
    Ok(Key::of_numbers(numbers))
}

/// Puts a node into the table at its key. The node that was there waits to be joined with it.
pub fn enter(
    alloc: Global,
    nodes: &[Node],
    classes: &[u32],
    table: &mut Table,
    pending: &mut Vec<(u64, u64)>,
    node: u64,
) -> Result<(), AllocError>
    requires arguments { HasEarlierArguments nodes.now }
    requires few { length nodes.now < 2 ^ 32 }
    requires count { length classes.now ≡ length nodes.now }
    requires node { node < length nodes.now }
    ensures { OnOk result (Enters nodes.now (slice_index classes.now)
        (λ a. a ≡ node) table.old table.new pending.old.items pending.new.items) }
{
    let Some(key) = key(alloc, classes, &nodes[node as usize])? else {
        return Ok(());
    };
    if let Some(earlier) = table.put(key, node as u32)? {
        pending.push((node, earlier as u64))?;
    }
    Ok(())
}

/// Puts some nodes into the table at their keys.
pub fn enter_all(
    alloc: Global,
    nodes: &[Node],
    classes: &[u32],
    table: &mut Table,
    pending: &mut Vec<(u64, u64)>,
    entered: &[u64],
) -> Result<(), AllocError>
    requires arguments { HasEarlierArguments nodes.now }
    requires few { length nodes.now < 2 ^ 32 }
    requires count { length classes.now ≡ length nodes.now }
    requires entered { (a : ℕ) → Has entered.now a → a < length nodes.now }
    ensures { OnOk result (Enters nodes.now (slice_index classes.now) (Has entered.now) table.old table.new
        pending.old.items pending.new.items) }
{
    for node in entered {
        enter(alloc, nodes, classes, table, pending, *node)?;
    }
    Ok(())
}
