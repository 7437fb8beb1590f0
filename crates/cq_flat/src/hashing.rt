//! The key by which nodes are hashed.
use crate::node::Node;
use cq_base::Hashing;
use cq_theory::Con;
use std::hash::{DefaultHasher, Hash, Hasher};

/// How tables of these nodes are to hash: by a key of them all, whatever files they come from.
pub fn hashing_of(nodes: &[Node]) -> Hashing {
    let mut state = DefaultHasher::new();
    for node in nodes {
        feed(node, &mut state);
    }
    Hashing::of_state(&state)
}

fn feed(node: &Node, state: &mut DefaultHasher) {
    match node {
        Node::Leaf => (),
        Node::Const(Con::Named(number)) => state.write_u32(*number),
        Node::Const(Con::Open(text)) => text.hash(state),
        Node::Fun(function, arguments) => {
            state.write_u32(*function);
            arguments.as_slice().hash(state);
        }
    }
}
