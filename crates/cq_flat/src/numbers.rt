//! Whether the numbers in nodes and equations name nodes.
ghost use Rattle.std.specs.Prelude.{◌<◌, ◌↔◌, IsTrue, All};
ghost use Rattle.cq_flat.specs.Nodes.{HasEarlierArguments};

use crate::node::Node;

/// Whether the arguments of each node are earlier nodes.
pub fn has_earlier_arguments(nodes: &[Node]) -> bool
    ensures { IsTrue result ↔ HasEarlierArguments nodes.now }
{
    for (node, content) in nodes.iter().enumerate() {
        if let Node::Fun(_, args) = content {
            if !are_below(args.as_slice(), node as u64) {
                return false;
            }
        }
    }
    true
}

/// Whether both sides of each equation are below the number of nodes.
pub fn are_sides(count: u64, equations: &[(u64, u64)]) -> bool
    ensures { IsTrue result ↔ All (λ e. (e.0 < count) × (e.1 < count)) equations.now }
{
    equations.iter().all(|e| e.0 < count && e.1 < count)
}

fn are_below(args: &[u64], bound: u64) -> bool
    ensures { IsTrue result ↔ All (λ arg. arg < bound) args.now }
{
    args.iter().all(|arg| *arg < bound)
}
