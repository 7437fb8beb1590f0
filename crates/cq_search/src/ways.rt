//! The ways between nodes in a forest.
use crate::forest::Forest;
use crate::halt::Halt;
use std::alloc::{AllocError, Global};

/// How many links lie between each node and the root of its tree.
#[derive(Drop)]
pub struct Depths {
    depths: Vec<Option<u64>>,
}

impl Depths {
    pub fn of(alloc: Global, forest: &Forest) -> Result<Depths, AllocError> {
        let mut depths = Depths {
            depths: vec![in alloc; None; forest.count() as usize]?,
        };
        for node in 0..forest.count() {
            depths.find(alloc, forest, node)?;
        }
        Ok(depths)
    }

    fn get(&self, node: u64) -> Option<u64> {
        match self.depths.get(node as usize) {
            Some(depth) => *depth,
            None => None,
        }
    }

    /// Whether the way from the one node to the root is as long as that from the other, or longer.
    pub fn is_lower(&self, node: u64, other: u64) -> bool {
        match (self.get(node), self.get(other)) {
            (Some(depth), Some(second)) => depth >= second,
            _ => false,
        }
    }

    /// Finds the depth of a node, and of those on its way to the root.
    fn find(&mut self, alloc: Global, forest: &Forest, node: u64) -> Result<(), AllocError> {
        let way = self.way_to_known(alloc, forest, node)?;
        let mut depth = self.depth_above(forest, way.as_slice());
        for node in way.as_slice().iter().rev() {
            if let Some(place) = self.depths.get_mut(*node as usize) {
                *place = Some(depth);
            }
            depth = depth.saturating_add(1);
        }
        Ok(())
    }

    /// The nodes from this one on towards the root whose depth isn't known.
    fn way_to_known(
        &self,
        alloc: Global,
        forest: &Forest,
        node: u64,
    ) -> Result<Vec<u64>, AllocError> {
        let mut way = Vec::new(alloc);
        let mut next = Some(node);
        for _turn in 0..u64::MAX {
            let Some(here) = next else {
                return Ok(way);
            };
            if self.get(here).is_some() {
                return Ok(way);
            }
            way.push(here)?;
            next = match forest.above(here) {
                Some(above) => Some(above.node),
                None => None,
            };
        }
        Ok(way)
    }

    /// The depth of the last node of such a way.
    fn depth_above(&self, forest: &Forest, way: &[u64]) -> u64 {
        let Some(last) = way.last() else {
            return 0;
        };
        let Some(above) = forest.above(*last) else {
            return 0;
        };
        match self.get(above.node) {
            Some(depth) => depth.saturating_add(1),
            None => 0,
        }
    }

    /// The nodes on the way from one node to another of its tree, with both of them.
    pub fn way(
        &self,
        alloc: Global,
        forest: &Forest,
        left: u64,
        right: u64,
    ) -> Result<Vec<u64>, Halt> {
        let mut way = Vec::new(alloc);
        let mut behind = Vec::new(alloc);
        let mut here = left;
        let mut there = right;
        for _turn in 0..u64::MAX {
            if here == there {
                break;
            }
            if self.is_lower(here, there) {
                way.push(here)?;
                here = node_above(forest, here)?;
            } else {
                behind.push(there)?;
                there = node_above(forest, there)?;
            }
        }
        way.push(here)?;
        behind.reverse();
        way.extend_from_slice(behind.as_slice())?;
        Ok(way)
    }
}

fn node_above(forest: &Forest, node: u64) -> Result<u64, Halt> {
    match forest.above(node) {
        Some(above) => Ok(above.node),
        None => Err(Halt::Absent),
    }
}
