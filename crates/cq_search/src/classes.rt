//! Classes of equal nodes.
use std::alloc::{AllocError, Global};

/// A node's class, named by one of its nodes, and the next node of it in a circle. Of the class that is named by this
/// node: how many nodes it has, and what was put in at one of them.
#[derive(Clone, Copy)]
struct Member {
    class: u64,
    next: u64,
    count: u64,
    is_expanded: bool,
    has_keys: bool,
}

/// The classes of the nodes.
#[derive(Drop)]
pub struct Classes {
    members: Vec<Member>,
}

impl Classes {
    pub fn new(alloc: Global) -> Classes {
        Classes {
            members: Vec::new(alloc),
        }
    }

    /// One node more, in a class of its own.
    pub fn add(&mut self) -> Result<(), AllocError> {
        let node = self.members.len() as u64;
        self.members.push(Member {
            class: node,
            next: node,
            count: 1,
            is_expanded: false,
            has_keys: false,
        })?;
        Ok(())
    }

    /// The class of a node.
    pub fn of(&self, node: u64) -> u64 {
        match self.members.get(node as usize) {
            Some(member) => member.class,
            None => node,
        }
    }

    /// How many nodes a class has.
    pub fn count(&self, class: u64) -> u64 {
        match self.members.get(class as usize) {
            Some(member) => member.count,
            None => 0,
        }
    }

    /// Whether the equations of the schema are to be put in at this node, since they were at none of its class. From
    /// now on they are.
    pub fn expand(&mut self, node: u64) -> bool {
        let class = self.of(node);
        match self.members.get_mut(class as usize) {
            Some(member) => {
                let is_new = !member.is_expanded;
                member.is_expanded = true;
                is_new
            }
            None => false,
        }
    }

    /// Whether foreign keys are to be followed from this node, since they were from none of its class. From now on
    /// they are.
    pub fn follow(&mut self, node: u64) -> bool {
        let class = self.of(node);
        match self.members.get_mut(class as usize) {
            Some(member) => {
                let is_new = !member.has_keys;
                member.has_keys = true;
                is_new
            }
            None => false,
        }
    }

    /// Joins one class to another. It takes time in the nodes of the first.
    pub fn join(&mut self, from: u64, to: u64) {
        self.relabel(from, to);
        let (Some(gone), Some(kept)) = (self.member(from), self.member(to)) else {
            return;
        };
        if let Some(member) = self.members.get_mut(to as usize) {
            *member = Member {
                class: to,
                next: gone.next,
                count: kept.count.saturating_add(gone.count),
                is_expanded: kept.is_expanded || gone.is_expanded,
                has_keys: kept.has_keys || gone.has_keys,
            };
        }
        if let Some(member) = self.members.get_mut(from as usize) {
            member.next = kept.next;
        }
    }

    fn member(&self, node: u64) -> Option<Member> {
        match self.members.get(node as usize) {
            Some(member) => Some(*member),
            None => None,
        }
    }

    /// Puts the nodes of a class into another.
    fn relabel(&mut self, from: u64, to: u64) {
        let mut node = from;
        for _turn in 0..self.count(from) {
            if let Some(member) = self.members.get_mut(node as usize) {
                member.class = to;
                node = member.next;
            }
        }
    }
}
