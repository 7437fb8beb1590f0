//! The links that explain why two nodes are equal, as a list of steps.
use crate::forest::{Link, Reason};
use crate::graph::Graph;
use crate::halt::Halt;
use crate::needed::{are_short, needed_links};
use crate::node::Symbol;
use crate::pruning::pruned;
use crate::reading::entity_term_of;
use crate::roots::Roots;
use crate::steps::Steps;
use crate::ways::Depths;
use cq_steps::{Rule, Step};
use std::alloc::{AllocError, Global};

/// The steps that end in the equation between two nodes of one class. Where the ways between nodes are short, steps go
/// along them. Else steps lead from a node to the root of those that are joined so far, and from there to another node,
/// so that there are never many more steps than needed links and arguments.
pub fn list_steps(alloc: Global, graph: &Graph, left: u64, right: u64) -> Result<Vec<Step>, Halt> {
    let depths = Depths::of(alloc, &graph.forest)?;
    let needed = needed_links(alloc, graph, &depths, left, right)?;
    let is_along = are_short(alloc, graph, &depths, needed.as_slice(), left, right)?;
    let mut listing = Listing::new(alloc, graph, depths, is_along)?;
    listing.add_links(graph, needed.as_slice())?;
    let last = listing.premise(graph, left, right)?;
    Ok(pruned(alloc, listing.up_to(last))?)
}

/// Steps so far, and by what they lead from node to node: along the ways in the forest, or through roots.
struct Listing {
    steps: Steps,
    depths: Depths,
    roots: Roots,
    is_along: bool,
    alloc: Global,
}

impl Drop for Listing {
    fn drop(self) {
        let Self {
            steps: _,
            depths: _,
            roots: _,
            is_along: _,
            alloc: _,
        } = self;
    }
}

impl Listing {
    fn new(
        alloc: Global,
        graph: &Graph,
        depths: Depths,
        is_along: bool,
    ) -> Result<Listing, AllocError> {
        let count = if is_along { 0 } else { graph.forest.count() };
        let roots = Roots::new(alloc, count)?;
        Ok(Listing {
            steps: Steps::new(alloc, graph.hashing()),
            depths,
            roots,
            is_along,
            alloc,
        })
    }

    fn up_to(self, last: u64) -> Vec<Step> {
        let Self {
            steps,
            depths: _,
            roots: _,
            is_along: _,
            alloc: _,
        } = self;
        steps.up_to(last)
    }

    /// The steps of the needed links, each behind those of its premises.
    fn add_links(&mut self, graph: &Graph, needed: &[bool]) -> Result<(), Halt> {
        for (link, is_needed) in graph.forest.links().iter().zip(needed.iter()) {
            if *is_needed {
                self.add_link(graph, *link)?;
            }
        }
        Ok(())
    }

    fn add_link(&mut self, graph: &Graph, link: Link) -> Result<(), Halt> {
        let from = match link.reason {
            Reason::Congruence => self.premises(graph, link)?,
            _ => Vec::new(self.alloc),
        };
        let rule = rule_of(self.alloc, graph, link)?;
        self.steps
            .add(&graph.terms, rule, from, link.left, link.right)?;
        if !self.is_along {
            self.join(graph, link)?;
        }
        Ok(())
    }

    /// The numbers of the steps between the arguments of a congruence.
    fn premises(&mut self, graph: &Graph, link: Link) -> Result<Vec<u64>, Halt> {
        let left = graph.terms.node(link.left)?;
        let right = graph.terms.node(link.right)?;
        let mut from = Vec::with_capacity(self.alloc, left.arguments.len())?;
        for (first, second) in left
            .arguments
            .as_slice()
            .iter()
            .zip(right.arguments.as_slice().iter())
        {
            from.push(self.premise(graph, *first, *second)?)?;
        }
        Ok(from)
    }

    /// The number of the step between two nodes, all links between which have theirs.
    fn premise(&mut self, graph: &Graph, left: u64, right: u64) -> Result<u64, Halt> {
        if left == right {
            return self.steps.reflexivity(&graph.terms, left);
        }
        if let Some(number) = self.steps.next(&graph.terms, left, right)? {
            return Ok(number);
        }
        let way = if self.is_along {
            self.depths.way(self.alloc, &graph.forest, left, right)?
        } else {
            self.way_by_root(graph, left, right)?
        };
        self.steps.along(&graph.terms, way.as_slice())
    }

    /// The way from a node to the root and from there to another node.
    fn way_by_root(&mut self, graph: &Graph, left: u64, right: u64) -> Result<Vec<u64>, Halt> {
        let root = self.root(graph, left)?;
        let _root = self.root(graph, right)?;
        Ok(once_each(self.alloc, &[left, root, right])?)
    }

    /// The root of the nodes that are joined to a node. From the node and those on its way, steps lead to the root.
    fn root(&mut self, graph: &Graph, node: u64) -> Result<u64, Halt> {
        let way = self.roots.way(self.alloc, node)?;
        let Some(root) = way.last() else {
            return Err(Halt::Absent);
        };
        for below in way.iter().rev() {
            self.shorten(graph, *below, *root)?;
        }
        Ok(*root)
    }

    fn shorten(&mut self, graph: &Graph, node: u64, root: u64) -> Result<(), Halt> {
        let above = self.roots.above(node);
        if node != root && above != root {
            self.steps.along(&graph.terms, &[node, above, root])?;
            self.roots.shorten(node, root);
        }
        Ok(())
    }

    /// Joins the nodes on the two sides of a link: the root of fewer nodes to the other root.
    fn join(&mut self, graph: &Graph, link: Link) -> Result<(), Halt> {
        let left = self.root(graph, link.left)?;
        let right = self.root(graph, link.right)?;
        if self.roots.count(left) < self.roots.count(right) {
            self.put_below(graph, &[left, link.left, link.right, right], left, right)
        } else {
            self.put_below(graph, &[right, link.right, link.left, left], right, left)
        }
    }

    fn put_below(&mut self, graph: &Graph, way: &[u64], from: u64, to: u64) -> Result<(), Halt> {
        let way = once_each(self.alloc, way)?;
        self.steps.along(&graph.terms, way.as_slice())?;
        self.roots.join(from, to);
        Ok(())
    }
}

/// The nodes of a way, each once where it stands twice or more in a row.
fn once_each(alloc: Global, way: &[u64]) -> Result<Vec<u64>, AllocError> {
    let mut nodes = Vec::from_slice(alloc, way)?;
    nodes.dedup();
    Ok(nodes)
}

/// The rule of a link.
fn rule_of(alloc: Global, graph: &Graph, link: Link) -> Result<Rule, Halt> {
    match link.reason {
        Reason::Given(number) => Ok(Rule::Given(number)),
        Reason::Path(number, node) => {
            let at = entity_term_of(alloc, &graph.terms, node)?;
            Ok(Rule::Path(number, at))
        }
        Reason::Obs(number, node) => {
            let at = entity_term_of(alloc, &graph.terms, node)?;
            Ok(Rule::Obs(number, at))
        }
        Reason::Congruence => congruence_of(graph.terms.node(link.left)?.symbol),
    }
}

/// The rule by which terms with a symbol are equal if their arguments are.
fn congruence_of(symbol: Symbol) -> Result<Rule, Halt> {
    match symbol {
        Symbol::Key(key) => Ok(Rule::Key(key)),
        Symbol::Attribute(attribute) => Ok(Rule::Attribute(attribute)),
        Symbol::Function(function) => Ok(Rule::Function(function)),
        _ => Err(Halt::Absent),
    }
}
