//! The functions that have a node as an argument.
ghost use Rattle.std.specs.Prelude.{IfOk, OnOk, length};
ghost use Rattle.cq_flat.specs.Nodes.{HasEarlierArguments};
ghost use Rattle.cq_flat.specs.Closing.{AreUses, AddsUses, AddsFunctions};

use crate::lists::Lists;
use crate::node::Node;
use std::alloc::{AllocError, Global};

/// For each node, the functions that have it as an argument.
pub fn uses_of(alloc: Global, nodes: &[Node]) -> Result<Lists, AllocError>
    requires { HasEarlierArguments nodes.now }
    ensures { IfOk result (λ uses. AreUses nodes.now uses) }
{
    let mut uses = Lists::new(alloc);
    for (node, content) in nodes.iter().enumerate() {
        if let Node::Fun(_, args) = content {
            add_uses(&mut uses, node as u64, args.as_slice())?;
        }
    }
    Ok(uses)
}

fn add_uses(uses: &mut Lists, node: u64, args: &[u64]) -> Result<(), AllocError>
    ensures { OnOk result (AddsUses uses.old uses.new node args.now) }
{
    for arg in args {
        uses.push(*arg, node)?;
    }
    Ok(())
}

/// Puts the numbers of the functions among these nodes behind others.
pub fn add_functions(numbers: &mut Vec<u64>, nodes: &[Node]) -> Result<(), AllocError>
    ensures { OnOk result (AddsFunctions nodes.now (length nodes.now) numbers.old.items numbers.new.items) }
{
    for (node, content) in nodes.iter().enumerate() {
        if let Node::Fun(_, _) = content {
            numbers.push(node as u64)?;
        }
    }
    Ok(())
}
