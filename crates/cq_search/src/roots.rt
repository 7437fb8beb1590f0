//! Nodes that are joined one link after the other: from each node a short way leads to the root of its class.
use std::alloc::{AllocError, Global};

/// The node above each node, which is the node itself at a root, and of each root how many nodes are joined there
/// (Tarjan, Efficiency of a good but not linear set union algorithm, 1975).
pub struct Roots {
    above: Vec<u64>,
    counts: Vec<u64>,
}

impl Drop for Roots {
    fn drop(self) {
        let Self {
            above: _,
            counts: _,
        } = self;
    }
}

impl Roots {
    /// So many nodes, none of them joined.
    pub fn new(alloc: Global, count: u64) -> Result<Roots, AllocError> {
        let mut above = Vec::new(alloc);
        let mut counts = Vec::new(alloc);
        for node in 0..count {
            above.push(node)?;
            counts.push(1)?;
        }
        Ok(Roots { above, counts })
    }

    /// The node above a node.
    pub fn above(&self, node: u64) -> u64 {
        match self.above.get(node as usize) {
            Some(above) => *above,
            None => node,
        }
    }

    /// The nodes from this one to the root, with both of them.
    pub fn way(&self, alloc: Global, node: u64) -> Result<Vec<u64>, AllocError> {
        let mut way = Vec::new(alloc);
        let mut here = node;
        for _turn in 0..u64::MAX {
            way.push(here)?;
            let next = self.above(here);
            if next == here {
                break;
            }
            here = next;
        }
        Ok(way)
    }

    /// From now on the node is right below the root.
    pub fn shorten(&mut self, node: u64, root: u64) {
        if let Some(above) = self.above.get_mut(node as usize) {
            *above = root;
        }
    }

    /// How many nodes are joined at a root.
    pub fn count(&self, root: u64) -> u64 {
        match self.counts.get(root as usize) {
            Some(count) => *count,
            None => 0,
        }
    }

    /// Puts one root below another.
    pub fn join(&mut self, from: u64, to: u64) {
        let sum = self.count(from).saturating_add(self.count(to));
        self.shorten(from, to);
        if let Some(count) = self.counts.get_mut(to as usize) {
            *count = sum;
        }
    }
}
