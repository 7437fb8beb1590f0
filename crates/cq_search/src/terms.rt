//! The ground terms that were met, one node for each.
use crate::halt::Halt;
use crate::node::{Node, Symbol};
use cq_base::{Hashing, Name};
use cq_theory::Con;
use indexmap::IndexSet;
use std::alloc::Global;

/// One node for each ground term that was met, numbered in the order in which they were put in, with its entity if it
/// is a term of one. Arguments come before the terms that they stand in.
pub struct Terms {
    texts: IndexSet<Name, Hashing>,
    nodes: IndexSet<Node, Hashing>,
    entities: Vec<Option<u32>>,
}

impl Drop for Terms {
    fn drop(self) {
        let Self {
            texts: _,
            nodes: _,
            entities: _,
        } = self;
    }
}

impl Terms {
    /// No terms. Texts and nodes are hashed as told.
    pub fn new(alloc: Global, hashing: Hashing) -> Terms {
        Terms {
            texts: IndexSet::with_hasher(alloc, hashing),
            nodes: IndexSet::with_hasher(alloc, hashing),
            entities: Vec::new(alloc),
        }
    }

    /// How many nodes there are.
    pub fn len(&self) -> u64 {
        self.nodes.len() as u64
    }

    /// The node of a number.
    pub fn node(&self, number: u64) -> Result<&Node, Halt> {
        match self.nodes.get_index(number as usize) {
            Some(node) => Ok(node),
            None => Err(Halt::Absent),
        }
    }

    /// The entity of a node, if it is a term of one.
    pub fn entity(&self, number: u64) -> Option<u32> {
        match self.entities.get(number as usize) {
            Some(entity) => *entity,
            None => None,
        }
    }

    /// The text of a number.
    pub fn text(&self, number: u64) -> Result<&Name, Halt> {
        match self.texts.get_index(number as usize) {
            Some(text) => Ok(text),
            None => Err(Halt::Absent),
        }
    }

    /// Puts a node in, and gives its number and whether it is a new one.
    pub fn put(&mut self, node: Node, entity: Option<u32>) -> Result<(u64, bool), Halt> {
        let (number, is_new) = self.nodes.insert_full(node)?;
        if is_new {
            self.entities.push(entity)?;
        }
        Ok((number as u64, is_new))
    }

    /// The symbol of a constant.
    pub fn put_constant(&mut self, constant: &Con) -> Result<Symbol, Halt> {
        match constant {
            Con::Named(number) => Ok(Symbol::Constant(*number)),
            Con::Open(text) => {
                let (number, _) = self.texts.insert_full(text.clone()?)?;
                Ok(Symbol::Text(number as u64))
            }
        }
    }
}
