//! The congruence closure of links between nodes.
use crate::classes::Classes;
use crate::forest::{Forest, Link, Reason};
use crate::halt::Halt;
use crate::node::Node;
use crate::terms::Terms;
use cq_base::Hashing;
use smallvec::SmallVec;
use std::alloc::{AllocError, Global};
use std::collections::HashMap;
use std::mem;

/// Nodes, their classes so far, and why nodes of a class are equal. Of two nodes with one symbol whose arguments have
/// the same classes, the table has one. Links wait to be made, and nodes whose arguments were joined wait to be looked
/// up (Downey, Sethi and Tarjan, Variations on the Common Subexpression Problem, 1980).
pub struct Graph {
    pub terms: Terms,
    pub classes: Classes,
    pub forest: Forest,
    uses: Vec<Vec<u64>>,
    table: HashMap<Node, u64, Hashing>,
    waiting: Vec<Link>,
    stale: Vec<u64>,
    generators: Vec<Option<u64>>,
    hashing: Hashing,
    alloc: Global,
}

impl Drop for Graph {
    fn drop(self) {
        let Self {
            terms: _,
            classes: _,
            forest: _,
            uses: _,
            table: _,
            waiting: _,
            stale: _,
            generators: _,
            hashing: _,
            alloc: _,
        } = self;
    }
}

impl Graph {
    /// No nodes, over so many generators. They are hashed as told.
    pub fn new(alloc: Global, hashing: Hashing, generators: usize) -> Result<Graph, AllocError> {
        Ok(Graph {
            terms: Terms::new(alloc, hashing),
            classes: Classes::new(alloc),
            forest: Forest::new(alloc),
            uses: Vec::new(alloc),
            table: HashMap::with_hasher(alloc, hashing),
            waiting: Vec::new(alloc),
            stale: Vec::new(alloc),
            generators: vec![in alloc; None; generators]?,
            hashing,
            alloc,
        })
    }

    /// The node of a generator that was put in.
    pub fn generator(&self, number: u32) -> Result<u64, Halt> {
        match self.generators.get(number as usize) {
            Some(Some(node)) => Ok(*node),
            _ => Err(Halt::Absent),
        }
    }

    /// Puts a generator in.
    pub fn put_generator(
        &mut self,
        number: u32,
        leaf: Node,
        entity: Option<u32>,
    ) -> Result<(), Halt> {
        let node = self.put(leaf, entity)?;
        if let Some(place) = self.generators.get_mut(number as usize) {
            *place = Some(node);
        }
        Ok(())
    }

    /// How tables of nodes are to hash.
    pub fn hashing(&self) -> Hashing {
        self.hashing
    }

    /// Whether two nodes are of one class.
    pub fn are_joined(&self, left: u64, right: u64) -> bool {
        self.classes.of(left) == self.classes.of(right)
    }

    /// The number of a node, which is put in if it isn't there.
    pub fn put(&mut self, node: Node, entity: Option<u32>) -> Result<u64, Halt> {
        let (number, is_new) = self.terms.put(node, entity)?;
        if is_new {
            self.classes.add()?;
            self.forest.add()?;
            self.uses.push(Vec::new(self.alloc))?;
            self.add_uses(number)?;
            self.look_up(number)?;
        }
        Ok(number)
    }

    /// The number of a node of this symbol whose arguments have the same classes, or of this node, which is put in
    /// if there is none.
    pub fn put_like(&mut self, node: Node, entity: Option<u32>) -> Result<u64, Halt> {
        match self.alike(&node)? {
            Some(number) => Ok(number),
            None => self.put(node, entity),
        }
    }

    fn alike(&self, node: &Node) -> Result<Option<u64>, Halt> {
        let Some(key) = self.key(node)? else {
            return Ok(None);
        };
        match self.table.get(&key) {
            Some(number) => Ok(Some(*number)),
            None => Ok(None),
        }
    }

    /// Two nodes are equal for a reason.
    pub fn equate(&mut self, left: u64, right: u64, reason: Reason) -> Result<(), AllocError> {
        self.waiting.push(Link {
            left,
            right,
            reason,
        })?;
        Ok(())
    }

    /// Makes the links that wait, and those that follow from them. It takes time near n log n in the nodes and their
    /// arguments.
    pub fn close(&mut self) -> Result<(), Halt> {
        for _turn in 0..u64::MAX {
            if self.waiting.is_empty() {
                return Ok(());
            }
            self.make_links()?;
            self.refresh()?;
        }
        Ok(())
    }

    /// Puts a node into the lists of its arguments' classes.
    fn add_uses(&mut self, number: u64) -> Result<(), Halt> {
        let node = self.terms.node(number)?;
        for argument in node.arguments.as_slice() {
            let class = self.classes.of(*argument);
            if let Some(uses) = self.uses.get_mut(class as usize) {
                uses.push(number)?;
            }
        }
        Ok(())
    }

    /// Puts a node into the table. The node that was there waits to be linked with it.
    fn look_up(&mut self, number: u64) -> Result<(), Halt> {
        let Some(key) = self.key(self.terms.node(number)?)? else {
            return Ok(());
        };
        if let Some(earlier) = self.table.insert(key, number)? {
            if earlier != number {
                self.equate(earlier, number, Reason::Congruence)?;
            }
        }
        Ok(())
    }

    /// The symbol of a node and the classes of its arguments, if it has some.
    fn key(&self, node: &Node) -> Result<Option<Node>, AllocError> {
        if node.arguments.as_slice().is_empty() {
            return Ok(None);
        }
        let mut arguments = SmallVec::with_capacity(self.alloc, node.arguments.len())?;
        for argument in node.arguments.as_slice() {
            arguments.push(self.classes.of(*argument))?;
        }
        Ok(Some(Node {
            symbol: node.symbol,
            arguments,
        }))
    }

    fn make_links(&mut self) -> Result<(), Halt> {
        let waiting = mem::replace(&mut self.waiting, Vec::new(self.alloc));
        for link in waiting {
            self.make_link(link)?;
        }
        Ok(())
    }

    /// Joins the class of the one node to that of the other, if they are two: the one with fewer nodes to the other.
    fn make_link(&mut self, link: Link) -> Result<(), Halt> {
        let left = self.classes.of(link.left);
        let right = self.classes.of(link.right);
        if left == right {
            return Ok(());
        }
        if self.classes.count(left) < self.classes.count(right) {
            self.forest.join(link.left, link.right, link)?;
            self.join(left, right)
        } else {
            self.forest.join(link.right, link.left, link)?;
            self.join(right, left)
        }
    }

    /// Joins one class to another. The nodes with arguments in it are to be looked up.
    fn join(&mut self, from: u64, to: u64) -> Result<(), Halt> {
        self.classes.join(from, to);
        let moved = self.take_uses(from);
        self.stale.extend_from_slice(moved.as_slice())?;
        if let Some(uses) = self.uses.get_mut(to as usize) {
            uses.extend_from_slice(moved.as_slice())?;
        }
        Ok(())
    }

    fn take_uses(&mut self, class: u64) -> Vec<u64> {
        match self.uses.get_mut(class as usize) {
            Some(uses) => mem::replace(uses, Vec::new(self.alloc)),
            None => Vec::new(self.alloc),
        }
    }

    /// Looks up the nodes whose arguments were joined, each once, however many of them were.
    fn refresh(&mut self) -> Result<(), Halt> {
        let mut stale = mem::replace(&mut self.stale, Vec::new(self.alloc));
        stale.sort_unstable();
        stale.dedup();
        for number in stale {
            self.look_up(number)?;
        }
        Ok(())
    }
}
