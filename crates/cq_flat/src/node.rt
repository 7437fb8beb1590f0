//! Nodes: the ground terms whose equality is decided.
use cq_base::Seq;
use cq_theory::Con;

/// A node is named by its place in a list of nodes.
pub enum Node {
    /// A value of which nothing else is known.
    Leaf,
    Const(Con),
    /// A function, by its number, of earlier nodes.
    Fun(u32, Seq<u64>),
}

impl Drop for Node {
    fn drop(self) {
        match self {
            Self::Leaf => (),
            Self::Const(_) => (),
            Self::Fun(_, _) => (),
        }
    }
}
