//! Which links explain why two nodes are equal.
use crate::forest::{Above, Forest, Link, Reason};
use crate::graph::Graph;
use crate::halt::Halt;
use crate::ways::Depths;
use std::alloc::{AllocError, Global};

/// Which links are needed, and for each node the highest one that needed links lead to.
#[derive(Drop)]
struct Marks {
    needed: Vec<bool>,
    tops: Vec<u64>,
}

/// For each link, whether it lies on the way between two nodes, or between two arguments of a congruence that is
/// needed. Each congruence is explained by links that came before it, so that one pass from the last link is enough. It
/// takes time near n log n in the links, since no link is passed twice.
pub fn needed_links(
    alloc: Global,
    graph: &Graph,
    depths: &Depths,
    left: u64,
    right: u64,
) -> Result<Vec<bool>, Halt> {
    let forest = &graph.forest;
    let mut marks = Marks::new(alloc, forest)?;
    marks.add_way(forest, depths, left, right)?;
    for (number, link) in forest.links().iter().enumerate().rev() {
        if marks.has(number) {
            marks.add_premises(graph, depths, *link)?;
        }
    }
    Ok(marks.needed)
}

/// Whether the ways between the two nodes and between the arguments of the congruences that are needed have, all in
/// all, at most four times as many nodes as there are needed links.
pub fn are_short(
    alloc: Global,
    graph: &Graph,
    depths: &Depths,
    needed: &[bool],
    left: u64,
    right: u64,
) -> Result<bool, Halt> {
    let mut rest = room_of(needed);
    rest = rest.saturating_sub(depths.way(alloc, &graph.forest, left, right)?.len() as u64);
    for (link, is_needed) in graph.forest.links().iter().zip(needed.iter()) {
        if *is_needed {
            rest = rest_after(alloc, graph, depths, *link, rest)?;
        }
        if rest == 0 {
            return Ok(false);
        }
    }
    Ok(true)
}

fn room_of(needed: &[bool]) -> u64 {
    let mut room: u64 = 16;
    for is_needed in needed {
        if *is_needed {
            room = room.saturating_add(4);
        }
    }
    room
}

/// What is left of a number of nodes after the ways between the arguments of a congruence.
fn rest_after(
    alloc: Global,
    graph: &Graph,
    depths: &Depths,
    link: Link,
    rest: u64,
) -> Result<u64, Halt> {
    let Reason::Congruence = link.reason else {
        return Ok(rest);
    };
    let left = graph.terms.node(link.left)?;
    let right = graph.terms.node(link.right)?;
    let mut rest = rest;
    for (first, second) in left
        .arguments
        .as_slice()
        .iter()
        .zip(right.arguments.as_slice().iter())
    {
        if rest > 0 {
            let way = depths.way(alloc, &graph.forest, *first, *second)?;
            rest = rest.saturating_sub(way.len() as u64);
        }
    }
    Ok(rest)
}

impl Marks {
    fn new(alloc: Global, forest: &Forest) -> Result<Marks, AllocError> {
        let needed = vec![in alloc; false; forest.links().len()]?;
        let mut tops = Vec::new(alloc);
        for node in 0..forest.count() {
            tops.push(node)?;
        }
        Ok(Marks { needed, tops })
    }

    fn has(&self, link: usize) -> bool {
        match self.needed.get(link) {
            Some(is_needed) => *is_needed,
            None => false,
        }
    }

    /// Marks the links on the way between two nodes that aren't marked.
    fn add_way(
        &mut self,
        forest: &Forest,
        depths: &Depths,
        left: u64,
        right: u64,
    ) -> Result<(), Halt> {
        let mut here = self.top(left);
        let mut there = self.top(right);
        for _turn in 0..u64::MAX {
            if here == there {
                return Ok(());
            }
            if depths.is_lower(here, there) {
                here = self.climb(forest, here)?;
            } else {
                there = self.climb(forest, there)?;
            }
        }
        Ok(())
    }

    /// Marks the links on the ways between the arguments of a congruence.
    fn add_premises(&mut self, graph: &Graph, depths: &Depths, link: Link) -> Result<(), Halt> {
        let Reason::Congruence = link.reason else {
            return Ok(());
        };
        let left = graph.terms.node(link.left)?;
        let right = graph.terms.node(link.right)?;
        for (first, second) in left
            .arguments
            .as_slice()
            .iter()
            .zip(right.arguments.as_slice().iter())
        {
            self.add_way(&graph.forest, depths, *first, *second)?;
        }
        Ok(())
    }

    /// Marks the link above a node, and gives the highest node that marked links lead to from there.
    fn climb(&mut self, forest: &Forest, node: u64) -> Result<u64, Halt> {
        let Some(Above { node: above, link }) = forest.above(node) else {
            return Err(Halt::Absent);
        };
        if let Some(place) = self.needed.get_mut(link as usize) {
            *place = true;
        }
        self.set_top(node, above);
        Ok(self.top(above))
    }

    /// The highest node that marked links lead to. The way there is made half as long.
    fn top(&mut self, node: u64) -> u64 {
        let mut here = node;
        for _turn in 0..u64::MAX {
            let next = self.next(here);
            if next == here {
                return here;
            }
            let behind = self.next(next);
            self.set_top(here, behind);
            here = behind;
        }
        here
    }

    fn next(&self, node: u64) -> u64 {
        match self.tops.get(node as usize) {
            Some(top) => *top,
            None => node,
        }
    }

    fn set_top(&mut self, node: u64, top: u64) {
        if let Some(place) = self.tops.get_mut(node as usize) {
            *place = top;
        }
    }
}
