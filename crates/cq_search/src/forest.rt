//! Why nodes are equal: a forest of links between nodes, each with its reason.
use std::alloc::{AllocError, Global};

/// Why two nodes are equal: an equation of the presentation by its number, a path equation or an observation equation
/// by its number and the node at which it is taken, or that the arguments of the two are equal.
#[derive(Clone, Copy)]
pub enum Reason {
    Given(u64),
    Path(u32, u64),
    Obs(u32, u64),
    Congruence,
}

/// Two nodes that are equal for a reason.
#[derive(Clone, Copy)]
pub struct Link {
    pub left: u64,
    pub right: u64,
    pub reason: Reason,
}

/// The node to which a node is linked, and the number of the link.
#[derive(Clone, Copy)]
pub struct Above {
    pub node: u64,
    pub link: u64,
}

/// A tree for each class of nodes. The links are numbered in the order in which they came, and a way between two nodes
/// stays as it is. The premises of a congruence are explained by links that came before it (Nieuwenhuis and Oliveras,
/// Proof-producing congruence closure, 2005).
pub struct Forest {
    above: Vec<Option<Above>>,
    links: Vec<Link>,
}

impl Drop for Forest {
    fn drop(self) {
        let Self { above: _, links: _ } = self;
    }
}

impl Forest {
    pub fn new(alloc: Global) -> Forest {
        Forest {
            above: Vec::new(alloc),
            links: Vec::new(alloc),
        }
    }

    /// One node more, in a tree of its own.
    pub fn add(&mut self) -> Result<(), AllocError> {
        self.above.push(None)?;
        Ok(())
    }

    /// How many nodes there are.
    pub fn count(&self) -> u64 {
        self.above.len() as u64
    }

    /// The links in the order in which they came.
    pub fn links(&self) -> &[Link] {
        self.links.as_slice()
    }

    /// What a node is linked to. The root of a tree is linked to nothing.
    pub fn above(&self, node: u64) -> Option<Above> {
        match self.above.get(node as usize) {
            Some(above) => *above,
            None => None,
        }
    }

    /// Joins the tree of a node to that of another by a link between the two.
    pub fn join(&mut self, node: u64, onto: u64, link: Link) -> Result<(), AllocError> {
        let number = self.links.len() as u64;
        self.links.push(link)?;
        self.turn(node);
        self.set_above(
            node,
            Some(Above {
                node: onto,
                link: number,
            }),
        );
        Ok(())
    }

    /// Makes a node the root of its tree.
    fn turn(&mut self, node: u64) {
        let mut here = node;
        let mut next = self.above(node);
        for _turn in 0..u64::MAX {
            let Some(above) = next else {
                return;
            };
            next = self.above(above.node);
            self.set_above(
                above.node,
                Some(Above {
                    node: here,
                    link: above.link,
                }),
            );
            here = above.node;
        }
    }

    fn set_above(&mut self, node: u64, above: Option<Above>) {
        if let Some(place) = self.above.get_mut(node as usize) {
            *place = above;
        }
    }
}
