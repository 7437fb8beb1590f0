//! The nodes of type terms over rows, with equations between them.
ghost use Rattle.std.specs.Prelude.{ℕ, ◌≡◌, ◌∷◌, ◌++◌, [], length, replicate, IfOk, OnOk};
ghost use Rattle.cq_flat.specs.declared.node.Node.TheVariants.{Leaf};
ghost use Rattle.cq_rows.specs.Rows.{row_of_term};
ghost use Rattle.cq_check.specs.Reading.{IsReadable, IsReadablePath};
ghost use Rattle.cq_check.specs.Adding.{IsPushed, IsEquated};

use cq_base::Seq;
use cq_flat::Node;
use cq_tables::Tables;
use cq_theory::{EntTerm, TypeTerm};
use std::alloc::{AllocError, Global};
use std::marker::Model;

/// Nodes, and equations between nodes. The first nodes are those of the rows, one for each that was made, and then
/// those of the generators.
#[derive(Drop)]
pub struct NodeList {
    pub nodes: Vec<Node>,
    pub equations: Vec<(u64, u64)>,
}

impl Model for NodeList {
    ghost use Rattle.cq_check.specs.NodeListData.{NodeListData};

    ghost Value = { NodeListData };

    ghost view = { λ list. record { nodes = list.nodes.items; equations = list.equations.items } };
}

impl NodeList {
    /// A list without nodes.
    pub fn new(alloc: Global) -> NodeList
        ensures { result ≡ record { nodes = []; equations = [] } }
    {
        NodeList {
            nodes: Vec::new(alloc),
            equations: Vec::new(alloc),
        }
    }

    /// Adds leaves.
    pub fn push_leaves(&mut self, count: u64) -> Result<(), AllocError>
        ensures { OnOk result (self.new ≡ record {
          nodes = self.old.nodes
              ++ replicate count Leaf;
          equations = self.old.equations;
        }) }
    {
        for _place in 0..count {
            self.nodes.push(Node::Leaf)?;
        }
        Ok(())
    }

    /// Adds an equation between two nodes.
    fn equate(&mut self, left: u64, right: u64) -> Result<(), AllocError>
        ensures { OnOk result (self.new ≡ record {
          nodes = self.old.nodes;
          equations = self.old.equations
              ++ (left, right) ∷ [];
        }) }
    {
        self.equations.push((left, right))?;
        Ok(())
    }
}

/// Adds a node, and answers its place.
fn push_node(nodes: &mut Vec<Node>, node: Node) -> Result<u64, AllocError>
    ensures place { IfOk result (λ place. place ≡ length nodes.old.items) }
    ensures added { OnOk result (nodes.new.items ≡ nodes.old.items ++ node ∷ []) }
{
    let place = nodes.len() as u64;
    nodes.push(node)?;
    Ok(place)
}

/// The row to which a term leads, where `rows` has the row of each generator; None exactly where a cell on the way is
/// empty.
pub fn row_of(tables: &Tables, rows: &[u64], term: &EntTerm) -> Option<u64>
    requires { (count : ℕ) × IsReadablePath tables.now rows.now count term.now }
    ensures { result ≡ row_of_term tables.now rows.now term.now }
{
    let start = rows[term.generator as usize];
    tables.trace(start, term.path.as_slice())
}

/// Adds the nodes of a term, arguments first, where `rows` has the row of each generator, and answers the place of
/// the term's own node. None where some path of the term ends at an empty cell.
pub fn push_term(
    alloc: Global,
    tables: &Tables,
    rows: &[u64],
    nodes: &mut Vec<Node>,
    term: &TypeTerm,
) -> Result<Option<u64>, AllocError>
    requires { IsReadable tables.now rows.now (length nodes.old.items) term.now }
    ensures { IfOk result (λ place. IsPushed tables.now rows.now nodes.old.items nodes.new.items term.now place) }
{
    match term {
        TypeTerm::Gen(generator) => Ok(Some(tables.made() + *generator as u64)),
        TypeTerm::Const(constant) => {
            let place = push_node(nodes, Node::Const(constant.clone()?))?;
            Ok(Some(place))
        }
        TypeTerm::Att(attribute, term) => {
            let Some(row) = row_of(tables, rows, term) else {
                return Ok(None);
            };
            let args = Seq::from_vec(vec![in alloc; row]?);
            let place = push_node(nodes, Node::Fun(*attribute, args))?;
            Ok(Some(place))
        }
        TypeTerm::Fun(function, args) => {
            let mut found = Vec::new(alloc);
            for arg in args.as_slice() {
                let Some(place) = push_term(alloc, tables, rows, nodes, arg)? else {
                    return Ok(None);
                };
                found.push(place)?;
            }
            let place = push_node(nodes, Node::Fun(*function, Seq::from_vec(found)))?;
            Ok(Some(place))
        }
    }
}

/// Adds an equation with the nodes of its sides, where all their paths can be traced.
pub fn push_equation(
    alloc: Global,
    tables: &Tables,
    rows: &[u64],
    list: &mut NodeList,
    left: &TypeTerm,
    right: &TypeTerm,
) -> Result<(), AllocError>
    requires left { IsReadable tables.now rows.now (length list.old.nodes) left.now }
    requires right { IsReadable tables.now rows.now (length list.old.nodes) right.now }
    ensures { OnOk result (IsEquated tables.now rows.now list.old list.new left.now right.now) }
{
    let Some(first) = push_term(alloc, tables, rows, &mut list.nodes, left)? else {
        return Ok(());
    };
    let Some(second) = push_term(alloc, tables, rows, &mut list.nodes, right)? else {
        return Ok(());
    };
    list.equate(first, second)?;
    Ok(())
}
