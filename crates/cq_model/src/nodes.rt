//! The nodes of type terms, with their types and with equations between them.
ghost use Rattle.std.specs.Prelude.{ℕ, ◌≡◌, ◌<◌, ◌^◌, ◌∷◌, ◌++◌, [], Ok, Some, IsSome, length, IfOk, OnOk, true, false};
ghost use Rattle.cq_rows.specs.Rows.{row_of_term};
ghost use Rattle.cq_theory.specs.SchemaData.{SchemaData as Over};
ghost use Rattle.cq_theory.specs.Typeside.{constant_type};
ghost use Rattle.cq_theory.specs.declared.term.TypeTerm.TheVariants.{Att};
ghost use Rattle.cq_model.specs.NodeTerms.{cell_place};
ghost use Rattle.cq_model.specs.Grounds.{HavePlaces, IsReadable, IsPushed, IsEquated};
ghost use Rattle.cq_model.specs.Pushing as pushing;
ghost use Rattle.cq_model.specs.Pushing.{TakesLeaf};

use crate::places::{Ground, Places};
use cq_base::Seq;
use cq_flat::Node;
use cq_tables::Tables;
use cq_theory::{Con, EntTerm, Schema, TypeTerm};
use std::alloc::{AllocError, Global};
use std::marker::Model;

/// Nodes, the type of each, and equations between nodes.
#[derive(Drop)]
pub struct NodeList {
    pub nodes: Vec<Node>,
    pub types: Vec<u32>,
    pub equations: Vec<(u64, u64)>,
}

impl Model for NodeList {
    ghost use Rattle.cq_model.specs.NodeListData.{NodeListData};

    ghost Value = { NodeListData };

    ghost view = { λ list. record {
      nodes = list.nodes.items;
      types = list.types.items;
      equations = list.equations.items;
    } };
}

impl NodeList {
    /// A list without nodes.
    pub fn new(alloc: Global) -> NodeList
        ensures { result ≡ record { nodes = []; types = []; equations = [] } }
    {
        NodeList {
            nodes: Vec::new(alloc),
            types: Vec::new(alloc),
            equations: Vec::new(alloc),
        }
    }

    /// How many nodes there are.
    pub fn count(&self) -> u64
        ensures { result ≡ length self.now.nodes }
    {
        self.nodes.len() as u64
    }

    /// Adds a node of a type, and answers its place.
    pub fn push(&mut self, node: Node, kind: u32) -> Result<u64, AllocError>
        ensures place { IfOk result (λ place. place ≡ length self.old.nodes) }
        ensures added { OnOk result (self.new ≡ record {
          nodes = self.old.nodes ++ node ∷ [];
          types = self.old.types
              ++ kind ∷ [];
          equations = self.old.equations;
        }) }
    {
        let place = self.count();
        self.nodes.push(node)?;
        self.types.push(kind)?;
        Ok(place)
    }

    /// Adds an equation between two nodes.
    fn equate(&mut self, left: u64, right: u64) -> Result<(), AllocError>
        ensures { OnOk result (self.new ≡ record {
          nodes = self.old.nodes;
          types = self.old.types;
          equations = self.old.equations ++ (left, right) ∷ [];
        }) }
    {
        self.equations.push((left, right))?;
        Ok(())
    }

    /// Puts a term that is a constant in the place of a leaf. Where it is none, or no leaf stands there, nothing
    /// changes, and the answer is no.
    fn take_leaf(&mut self, place: u64, term: &TypeTerm) -> Result<bool, AllocError>
        requires { place < length self.old.nodes }
        ensures taken { result ≡ Ok true → TakesLeaf self.old self.new place term.now }
        ensures other { result ≡ Ok false → self.new ≡ self.old }
    {
        let TypeTerm::Const(constant) = term else {
            return Ok(false);
        };
        let Node::Leaf = &self.nodes[place as usize] else {
            return Ok(false);
        };
        self.nodes[place as usize] = Node::Const(constant.clone()?);
        Ok(true)
    }
}

/// The place of the cell of an attribute at the row to which a term leads, where `rows` has the row of each generator.
fn place_of_cell(
    tables: &Tables,
    places: &Places,
    rows: &[u64],
    attribute: u32,
    term: &EntTerm,
) -> u64
    requires { (S : Over) × (count : ℕ) × (count < 2 ^ 64) × pushing.HavePlaces S tables.now places.now count
        × pushing.IsReadable S tables.now places.now rows.now count (Att attribute term.now) }
    ensures { (r : ℕ) × (row_of_term tables.now rows.now term.now ≡ Some r)
        × (result ≡ cell_place places.now r attribute) }
{
    let start = rows[term.generator as usize];
    match tables.trace(start, term.path.as_slice()) {
        Some(row) => {
            let first = places.firsts.as_slice()[row as usize];
            let rank = places.ranks.as_slice()[attribute as usize];
            first + rank as u64
        }
        None => unreachable!(),
    }
}

/// The type of a constant that has one.
fn type_of(schema: &Schema, constant: &Con) -> u32
    requires { IsSome (constant_type schema.now.typeside constant.now) }
    ensures { constant_type schema.now.typeside constant.now ≡ Some result }
{
    match schema.typeside.type_of_constant(constant) {
        Some(kind) => kind,
        None => unreachable!(),
    }
}

/// Adds the nodes of a term, arguments first, where `rows` has the row of each generator, and answers the place of the
/// term's own node. An attribute of an entity term is the cell of the row to which that term leads.
fn push_term(
    alloc: Global,
    ground: &Ground,
    rows: &[u64],
    list: &mut NodeList,
    term: &TypeTerm,
) -> Result<u64, AllocError>
    requires places { HavePlaces ground.now (length list.old.nodes) }
    requires term { IsReadable ground.now rows.now (length list.old.nodes) term.now }
    ensures { IfOk result (λ place. IsPushed ground.now rows.now list.old list.new
        term.now place) }
{
    let schema: &Schema = ground.schema;
    let tables: &Tables = ground.tables;
    let places: &Places = ground.places;
    match term {
        TypeTerm::Gen(generator) => Ok(places.generators.as_slice()[*generator as usize]),
        TypeTerm::Const(constant) => {
            let kind = type_of(schema, constant);
            list.push(Node::Const(constant.clone()?), kind)
        }
        TypeTerm::Att(attribute, term) => {
            // The number of nodes fits, and so does the place of a cell below it.
            let _count = list.count();
            Ok(place_of_cell(tables, places, rows, *attribute, term))
        }

        TypeTerm::Fun(function, args) => {
            let kind = schema.typeside.functions.as_slice()[*function as usize].result;
            let mut found = Vec::new(alloc);
            for arg in args.as_slice() {
                let place = push_term(alloc, ground, rows, list, arg)?;
                found.push(place)?;
            }
            list.push(Node::Fun(*function, Seq::from_vec(found)), kind)
        }
    }
}

/// Adds an equation with the nodes of its sides. A constant on the right takes the node of a cell or a generator on the
/// left, where that node is still a leaf: it needs no node of its own then, and no equation.
pub fn push_equation(
    alloc: Global,
    ground: &Ground,
    rows: &[u64],
    list: &mut NodeList,
    left: &TypeTerm,
    right: &TypeTerm,
) -> Result<(), AllocError>
    requires places { HavePlaces ground.now (length list.old.nodes) }
    requires left { IsReadable ground.now rows.now (length list.old.nodes) left.now }
    requires right { IsReadable ground.now rows.now (length list.old.nodes) right.now }
    ensures { OnOk result (IsEquated ground.now rows.now list.old list.new left.now right.now) }
{
    let first = push_term(alloc, ground, rows, list, left)?;
    if list.take_leaf(first, right)? {
        return Ok(());
    }
    let second = push_term(alloc, ground, rows, list, right)?;
    list.equate(first, second)?;
    Ok(())
}
