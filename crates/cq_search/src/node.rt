//! Nodes: ground terms, by the nodes of their arguments.
use smallvec::SmallVec;

/// What stands at the head of a ground term: a generator, foreign key, attribute, function or declared constant by its
/// number, or a text by its number among the texts that were met.
#[derive(Clone, Copy, PartialEq, Eq, Hash)]
pub enum Symbol {
    Generator(u32),
    Key(u32),
    Attribute(u32),
    Function(u32),
    Constant(u32),
    Text(u64),
}

/// A symbol and its arguments: nodes, or in the table of congruent nodes the classes of nodes. Nearly all have one or
/// two, which take no memory of their own.
#[derive(PartialEq, Eq, Hash, Drop)]
pub struct Node {
    pub symbol: Symbol,
    pub arguments: SmallVec<u64, 2>,
}
